// From packets to words and back: the randomizer, groups of eight, and the word reader.
#![tactic(auto)]

mod group;
mod laws;
mod mask;
mod randomizer;
mod refusal;
mod word;

pub use group::{Event, Group, next_position};
pub use laws::{mask_follows_its_rule, nearest_is_near, packets_come_back};
pub use randomizer::{derandomize, randomize};
pub use refusal::{WordFault, WordRefusal};
pub use word::{mend, sent_word};
