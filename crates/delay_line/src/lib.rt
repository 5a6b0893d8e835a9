// Delay lines over frames of 204 slots: straight, a board delay, the interleaver, cascades of them, and whole schemes.
#![tactic(auto)]

mod board;
mod cascade;
mod delay;
mod direction;
mod half;
mod interleaver;
mod laws;
mod line;
mod scheme;
mod slot;
mod stack;
mod straight;
mod trip;

pub use board::{BoardDelay, DelayRefusal};
pub use cascade::Cascade;
pub use delay::Delay;
pub use direction::Direction;
pub use half::Half;
pub use interleaver::Interleaver;
pub use laws::{
    cascades_are_one, fresh_runs_are_known, round_trips_return, schemes_have_their_delays,
    stacks_have_their_delays,
};
pub use line::DelayLine;
pub use scheme::{Interleaving, NoDelay, Scheme};
pub use slot::Slot;
pub use stack::Stack;
pub use straight::Straight;
pub use trip::{carry_cascade, receive, round_trip, send};
