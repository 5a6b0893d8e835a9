// The commands of the tester's line tool: a verb and hex digits on a line, and what is answered.
#![tactic(auto)]

mod account;
mod command;
mod digits;
mod reply;

pub use account::Account;
pub use command::{Command, Flaw, Verb, read_command};
pub use digits::{decode, decode_into, first_bad_digit, is_digit};
pub use reply::{Kind, Refusal, Reply, answer};

#[cfg(test)]
mod tests {
    use super::*;

    // the refusal's number
    fn refusal(line: &[u8]) -> Option<u32> {
        read_command(line)
            .ok()
            .and_then(|command| answer(command).err())
            .map(|refusal| refusal.number())
    }

    #[test]
    fn lengths_are_refused(rt: HostRuntime) {
        let mut line = [b'0'; 416];
        line[0..5].copy_from_slice(b"code ");
        assert_eq!(rt; refusal(&line[0..379]), Some(3));
        assert_eq!(rt; refusal(&line[0..381]), None);
        assert_eq!(rt; refusal(&line[0..383]), Some(3));
        line[0..6].copy_from_slice(b"check ");
        assert_eq!(rt; refusal(&line[0..412]), Some(14));
        assert_eq!(rt; refusal(&line[0..414]), None);
        assert_eq!(rt; refusal(&line[0..416]), Some(14));
    }
}
