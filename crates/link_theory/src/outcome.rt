// What a word becomes.
use crate::refusal::LinkFault;

#[derive(Clone, Copy, Debug, PartialEq, Eq)]
pub enum Outcome {
    // the packet, its frame number and how many bytes of its word were corrected
    Packet {
        bytes: [u8; 188],
        frame: u32,
        count: u8,
    },
    Fault {
        frame: u32,
        fault: LinkFault,
    },
}
