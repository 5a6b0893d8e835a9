// Examples for mapping, symbol writer and symbol reader.
#![tactic(auto)]

#[cfg(test)]
mod tests {
    use std::test::Fail;
    use symbols::{AppendRefusal, Mapping, MappingRefusal, SymbolReader, SymbolWriter};

    // The refusal's number, where there is one.
    fn refusal(bits: u32) -> Option<u32> {
        Mapping::try_from(bits)
            .err()
            .map(|refusal| refusal.number())
    }

    // How many of `most` draws give a symbol.
    fn drawn(writer: &mut SymbolWriter, most: u32) -> usize {
        (0..most).filter_map(|_| writer.draw()).count()
    }

    #[test]
    fn three_and_seven_bits_are_refused(rt: HostRuntime) {
        assert_eq!(rt; refusal(3), Some(1));
        assert_eq!(rt; refusal(4), None);
        assert_eq!(rt; refusal(5), None);
        assert_eq!(rt; refusal(6), None);
        assert_eq!(rt; refusal(7), Some(1));
    }

    #[test]
    fn a_mapping_is_read_and_named(rt: HostRuntime) -> Result<(), Fail> {
        let mapping: Mapping = "5".parse()?;
        assert_eq!(rt; mapping.bits(), 5);
        assert_eq!(rt; mapping.to_string(rt.alloc())?.as_str(), "32-QAM");
        assert_eq!(rt; "7".parse::<Mapping>(), Err(MappingRefusal::BitsPerSymbol));
        assert_eq!(rt;
            "six".parse::<Mapping>(),
            Err(MappingRefusal::BitsPerSymbol)
        );
        Ok(())
    }

    #[test]
    fn symbols_of_a_frame_that_begins_47_b8_47(rt: HostRuntime) -> Result<(), Fail> {
        let mut frame = [0u8; 204];
        frame[0] = 0x47;
        frame[1] = 0xb8;
        frame[2] = 0x47;
        let mut writer = SymbolWriter::new(Mapping::try_from(6)?);
        assert_eq!(rt; writer.draw(), None);
        writer.append(&frame)?;
        assert_eq!(rt; writer.draw(), Some(17));
        assert_eq!(rt; writer.draw(), Some(43));
        assert_eq!(rt; writer.draw(), Some(49));
        assert_eq!(rt; writer.draw(), Some(55));
        assert_eq!(rt; writer.undrawn_bits(), 1608);
        Ok(())
    }

    #[test]
    fn bytes_of_symbols_a_quarter_turn_on(rt: HostRuntime) -> Result<(), Fail> {
        let mut reader = SymbolReader::new(Mapping::try_from(6)?);
        assert_eq!(rt; reader.take(1), None);
        assert_eq!(rt; reader.take(64), None);
        assert_eq!(rt; reader.take(59), Some(0x07));
        assert_eq!(rt; reader.take(17), Some(0xb8));
        assert_eq!(rt; reader.take(23), Some(0x47));
        reader.take(59);
        reader.clear();
        assert_eq!(rt; reader.take(1), None);
        assert_eq!(rt; reader.take(59), Some(0x07));
        Ok(())
    }

    #[test]
    fn bits_left_over_open_the_next_tuple(rt: HostRuntime) -> Result<(), Fail> {
        let mut first = [0u8; 204];
        first[203] = 0b10;
        let mut second = [0u8; 204];
        second[0] = 0b101_00000;
        let mut writer = SymbolWriter::new(Mapping::try_from(5)?);
        writer.append(&first)?;
        assert_eq!(rt; drawn(&mut writer, 400), 326);
        assert_eq!(rt; writer.undrawn_bits(), 2);
        writer.append(&second)?;
        assert_eq!(rt; writer.undrawn_bits(), 1634);
        assert_eq!(rt; writer.draw(), Some(0b10_101));
        assert_eq!(rt; writer.draw(), Some(0b10_000));
        assert_eq!(rt; drawn(&mut writer, 400), 324);
        assert_eq!(rt; writer.undrawn_bits(), 4);
        Ok(())
    }

    #[test]
    fn frames_are_refused_behind_eight_bits(rt: HostRuntime) -> Result<(), Fail> {
        let frame = [0u8; 204];
        let mut writer = SymbolWriter::new(Mapping::try_from(4)?);
        assert_eq!(rt; writer.append(&frame[0..203]), Err(AppendRefusal::Length));
        writer.append(&frame)?;
        assert_eq!(rt; writer.append(&frame), Err(AppendRefusal::Undrawn));
        assert_eq!(rt; drawn(&mut writer, 406), 406);
        assert_eq!(rt; writer.undrawn_bits(), 8);
        assert_eq!(rt; writer.append(&frame), Err(AppendRefusal::Undrawn));
        assert_eq!(rt; drawn(&mut writer, 1), 1);
        writer.append(&frame)?;
        assert_eq!(rt; writer.undrawn_bits(), 1636);
        Ok(())
    }
}
