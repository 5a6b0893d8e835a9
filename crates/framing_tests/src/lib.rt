// Examples for randomizer, groups and word reader.
#![tactic(auto)]

#[cfg(test)]
mod tests {
    use framing::{Event, Group, derandomize, mend, randomize, sent_word};

    // The refusal's number, where there is one.
    fn refusal(word: &mut [u8]) -> Option<u32> {
        mend(word).err().map(|refusal| refusal.number())
    }

    // Two words end to end.
    fn joined(first: &[u8; 204], second: &[u8; 204]) -> [u8; 408] {
        let mut line = [0u8; 408];
        line[..204].copy_from_slice(first);
        line[204..].copy_from_slice(second);
        line
    }

    // The number of the refusal of the word that begins at a place of the line, where there is one.
    fn refusal_at(line: &[u8], place: usize) -> Option<u32> {
        let part = line.get(place..place.saturating_add(204))?;
        let mut word = <[u8; 204]>::try_from(part).ok()?;
        refusal(&mut word)
    }

    #[test]
    fn the_mask_begins(rt: HostRuntime) {
        let mut packet = [0u8; 188];
        packet[0] = 0x47;
        randomize(&mut packet, 0);
        assert_eq!(rt; packet[0], 0xb8);
        assert_eq!(rt; packet[1], 0x03);
        assert_eq!(rt; packet[2], 0xf6);
        assert_eq!(rt; packet[3], 0x08);
        assert_eq!(rt; packet[4], 0x34);
        derandomize(&mut packet, 8);
        assert_eq!(rt; packet[0], 0x47);
        assert_eq!(rt; packet[187], 0);
    }

    // Mask byte 1,502 is CBh; a generator that restarted would give another.
    #[test]
    fn the_last_byte_of_a_group(rt: HostRuntime) {
        let mut packet = [0u8; 204];
        packet[0] = 0x47;
        randomize(&mut packet, 7);
        assert_eq!(rt; packet[0], 0x47);
        assert_eq!(rt; packet[187], 0xcb);
        assert_eq!(rt; packet[188], 0);
    }

    #[test]
    fn eight_wrong_bytes_and_no_sync(rt: HostRuntime) {
        let mut word = [0u8; 204];
        word[0..8].copy_from_slice(&[1u8; 8]);
        assert_eq!(rt; refusal(&mut word), Some(12));
        assert_eq!(rt; word[0], 1);
        assert_eq!(rt; word[7], 1);
        word[203] = 1;
        assert_eq!(rt; refusal(&mut word), Some(11));
        assert_eq!(rt; word[203], 1);
        let mut short = [0u8; 203];
        assert_eq!(rt; refusal(&mut short), Some(14));
    }

    #[test]
    fn a_word_read_late_or_early(rt: HostRuntime) {
        let mut packet = [0x55u8; 188];
        packet[0] = 0x47;
        let line = joined(&sent_word(&packet, 0), &sent_word(&packet, 1));
        assert_eq!(rt; refusal_at(&line, 0), None);
        assert_eq!(rt; refusal_at(&line, 204), None);
        for s in 1..5usize {
            assert!(rt; refusal_at(&line, s).is_some_and(|number| number >= 11));
            assert!(rt; refusal_at(&line, 204 - s).is_some_and(|number| number >= 11));
        }
    }

    #[test]
    fn a_wrong_byte_is_mended(rt: HostRuntime) {
        let mut packet = [0x55u8; 188];
        packet[0] = 0x47;
        let mut word = sent_word(&packet, 1);
        let right = word[100];
        word[100] ^= 0xff;
        assert_eq!(rt; mend(&mut word), Ok(1));
        assert_eq!(rt; word[100], right);
    }

    #[test]
    fn groups_of_eight(rt: HostRuntime) {
        let mut group = Group::new();
        assert_eq!(rt; group.meet(Event::Plain), None);
        assert_eq!(rt; group.meet(Event::GroupStart), Some(0));
        assert_eq!(rt; group.meet(Event::Plain), Some(1));
        assert_eq!(rt; group.meet(Event::Lost), None);
        for g in 3..8u8 {
            assert_eq!(rt; group.meet(Event::Plain), Some(g));
        }
        assert_eq!(rt; group.meet(Event::Plain), None);
        assert_eq!(rt; group.meet(Event::Plain), None);
    }
}
