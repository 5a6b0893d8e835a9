// What the programs over a transport stream share: the size of a packet, the mapping that is asked for, and the count of outcomes.
#![tactic(auto)]

mod asked;
mod outcomes;

pub use asked::mapping_asked;
pub use outcomes::Outcomes;

// Bytes of a packet.
pub const PACKET: usize = 188;

#[cfg(test)]
mod tests {
    use super::*;

    // the bits to a symbol, or the refusal's number
    fn bits(argument: Option<&str>) -> Result<u32, u32> {
        mapping_asked(argument)
            .map(|mapping| mapping.bits())
            .map_err(|refusal| refusal.number())
    }

    #[test]
    fn a_mapping_is_asked_for_by_its_bits(rt: HostRuntime) {
        assert_eq!(rt; bits(None), Ok(6));
        assert_eq!(rt; bits(Some("4")), Ok(4));
        assert_eq!(rt; bits(Some("5")), Ok(5));
        assert_eq!(rt; bits(Some("6")), Ok(6));
        assert_eq!(rt; bits(Some("7")), Err(1));
        assert_eq!(rt; bits(Some("six")), Err(1));
    }
}
