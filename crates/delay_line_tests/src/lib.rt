// Examples for the delay lines.
#![tactic(auto)]

#[cfg(test)]
mod tests {
    use delay_line::{
        BoardDelay, Cascade, DelayLine, Direction, Half, Interleaver, Interleaving, Scheme, Slot,
        Stack, send,
    };
    use std::test::Fail;

    #[test]
    fn interleaver_places(rt: HostRuntime) {
        let mut bytes = [0u8; 2448];
        bytes[1] = 7;
        bytes[11] = 8;
        bytes[12] = 9;
        send(&Interleaving, &mut bytes);
        assert_eq!(rt; bytes[205], 7);
        assert_eq!(rt; bytes[2255], 8);
        assert_eq!(rt; bytes[12], 9);
        assert_eq!(rt; bytes[1], 0);
        assert_eq!(rt; bytes[11], 0);
    }

    #[test]
    fn board_over_interleaver(rt: HostRuntime) -> Result<(), Fail> {
        let one = BoardDelay::try_from(1)?;
        let stack = Stack::new(one, Interleaving);
        let mut bytes = [0u8; 408];
        bytes[0] = 7;
        bytes[11] = 8;
        send(&stack, &mut bytes);
        assert_eq!(rt; bytes[205], 7);
        assert_eq!(rt; bytes[12], 8);
        assert_eq!(rt; Half::new(stack.sending()).lag(), 12);
        assert_eq!(rt; Half::new(stack.receiving()).lag(), 12);
        Ok(())
    }

    // the number of the refusal, if there is one
    fn refusal(places: u32) -> Option<u32> {
        BoardDelay::try_from(places)
            .err()
            .map(|refusal| refusal.number())
    }

    #[test]
    fn longest_board_delay(rt: HostRuntime) {
        assert_eq!(rt; refusal(203), None);
        assert_eq!(rt; refusal(204), Some(2));
        assert_eq!(rt; refusal(u32::MAX), Some(2));
    }

    // a line whose next byte at slot 1 is 7
    fn used() -> Interleaver {
        let mut line = Interleaver::new(Direction::Sending);
        for _ in 0..17 {
            line.pass(Slot::first().next(), 7);
        }
        line
    }

    #[test]
    fn building_makes_fresh(rt: HostRuntime) {
        assert_eq!(rt; used().pass(Slot::first().next(), 1), 7);
        let mut half = Half::new(used());
        half.pass(1);
        assert_eq!(rt; half.pass(1), 0);
        let mut both = Half::new(Cascade::new(used(), used()));
        both.pass(1);
        assert_eq!(rt; both.pass(1), 0);
        both.clear();
        assert_eq!(rt; both.pass(1), 1);
        assert_eq!(rt; both.pass(1), 0);
    }
}
