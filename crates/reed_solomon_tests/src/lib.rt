// Examples for the fields and the code.
#![tactic(auto)]

#[cfg(test)]
mod tests {
    use reed_solomon::{
        BYTE_CODE, CodeRefusal, Field, Shift256, Table256, correct, correct_bytes, encode,
        encode_bytes, is_code_word, syndromes,
    };
    use std::test::Fail;

    #[test]
    fn powers_and_inverses(rt: HostRuntime) {
        assert_eq!(rt; Table256::power(8), 0x1d);
        assert_eq!(rt; Shift256::power(8), 0x1d);
        assert_eq!(rt; Table256::inverse(0x02), 0x8e);
        assert_eq!(rt; Shift256::inverse(0x02), 0x8e);
        assert_eq!(rt; Table256::inverse(0), 0);
        assert_eq!(rt; Table256::power(u64::MAX), Shift256::power(u64::MAX));
    }

    #[test]
    fn fields_agree_on_all_products(rt: HostRuntime) {
        for a in 0..=255u8 {
            for b in 0..=255u8 {
                assert_eq!(rt; Table256::product(a, b), Shift256::product(a, b));
            }
        }
    }

    #[test]
    fn one_at_the_end_of_a_message(rt: HostRuntime) {
        let mut message = [0u8; 188];
        message[187] = 1;
        let word = encode::<Table256>(&message);
        assert_eq!(rt; word[187], 1);
        assert_eq!(rt; word[188], 0x3b);
        assert_eq!(rt; word[203], 0x3b);
        assert!(rt; is_code_word::<Shift256>(BYTE_CODE, &word));
        let by_shifts = encode::<Shift256>(&message);
        assert_eq!(rt; by_shifts, word);
    }

    #[test]
    fn one_wrong_byte_shows(rt: HostRuntime) {
        let mut word = [0u8; 204];
        word[203] = 7;
        let mut values = [0u8; 16];
        syndromes::<Table256>(&word, 0, &mut values);
        assert_eq!(rt; values, [7u8; 16]);
        assert!(rt; !is_code_word::<Table256>(BYTE_CODE, &word));
        assert!(rt; !is_code_word::<Table256>(BYTE_CODE, &word[0..203]));
    }

    // the count, or the refusal's number
    fn told(r: Result<u8, CodeRefusal>) -> Result<u8, u32> {
        r.map_err(|refusal| refusal.number())
    }

    // the word after a corrector, and the answer
    fn after<C: FnOnce(&mut [u8]) -> Result<u8, CodeRefusal>>(
        corrector: C,
        mut word: [u8; 204],
    ) -> ([u8; 204], Result<u8, u32>)
        requires { C.IsAlwaysCallable corrector }
    {
        let answer = told(corrector(&mut word));
        (word, answer)
    }

    #[test]
    fn eight_wrong_bytes_and_nine(rt: HostRuntime) {
        let mut word = [0u8; 204];
        for byte in word[..200].iter_mut().step_by(25) {
            *byte = 1;
        }
        assert_eq!(rt;
            after(|w| correct::<Table256>(w), word),
            ([0u8; 204], Ok(8))
        );
        assert_eq!(rt; after(|w| correct_bytes(w), word), ([0u8; 204], Ok(8)));
        word[203] = 1;
        assert_eq!(rt; after(|w| correct::<Shift256>(w), word), (word, Err(11)));
        assert_eq!(rt; after(|w| correct_bytes(w), word), (word, Err(11)));
    }

    #[test]
    fn refusals_say_why(rt: HostRuntime) -> Result<(), Fail> {
        let mut short = [7u8; 203];
        let refusal = correct_bytes(&mut short).err().ok_or("corrected")?;
        let text = format!(in rt.alloc(); "{refusal}")?;
        assert_eq!(rt; text.as_str(), "the buffer is not 204 bytes");
        Ok(())
    }

    #[test]
    fn other_lengths_are_kept(rt: HostRuntime) {
        let mut short = [7u8; 203];
        assert_eq!(rt; told(correct::<Table256>(&mut short)), Err(14));
        assert_eq!(rt; short, [7u8; 203]);
        let mut long = [7u8; 205];
        assert_eq!(rt; told(correct_bytes(&mut long)), Err(14));
        assert_eq!(rt; long, [7u8; 205]);
    }

    #[test]
    fn a_word_begun_one_byte_late(rt: HostRuntime) {
        let mut first = [0x47u8; 188];
        first[7] = 1;
        let second = [0x47u8; 188];
        let a = encode_bytes(&first);
        let b = encode_bytes(&second);
        let mut late = [0u8; 204];
        late[0..203].copy_from_slice(&a[1..204]);
        late[203] = b[0];
        assert_eq!(rt; after(|w| correct::<Table256>(w), late), (late, Err(11)));
        assert_eq!(rt; after(|w| correct_bytes(w), late), (late, Err(11)));
    }
}
