// The two ways through a pair of delay lines.

// Which of the two halves.
#[derive(Clone, Copy, Debug, PartialEq, Eq)]
pub enum Direction {
    Sending,
    Receiving,
}
