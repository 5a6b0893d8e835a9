// The link from packets to symbols and back, as models with laws over whole runs of calls; the refusals of its calls, and what a word becomes.
#![tactic(auto)]

mod laws;
mod outcome;
mod refusal;

pub use laws::{delivery, symbols_of_packets, worked_facts};
pub use outcome::Outcome;
pub use refusal::{CollectRefusal, DrawRefusal, LinkFault, LoadRefusal, TakeRefusal};
