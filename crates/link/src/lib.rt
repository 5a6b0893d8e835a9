// Sender and receiver: packets to symbols and back, over any delay line.
#![tactic(auto)]

mod both;
mod cutter;
mod reader;
mod receiver;
mod sender;

pub use both::Link;
pub use receiver::Receiver;
pub use sender::Sender;
