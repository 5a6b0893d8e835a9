// The position of a word in its group of eight.
ghost use Rattle.std.specs.Prelude.{◌≡◌, ℕ, ◌<◌, IfSome, None, Option};
ghost use Rattle.framing.specs.Group.{expected_after, following, position_of};

use std::marker::Model;

// What was met: a word that begins with B8h, one that begins with 47h, or a word that could not be read.
#[derive(Clone, Copy, Debug, PartialEq, Eq)]
pub enum Event {
    GroupStart,
    Plain,
    Lost,
}

// A clause sees a group as the position that its next word should have, where one is known.
#[derive(Drop)]
pub struct Group {
    expected: Option<u8>,
}

impl Model for Group {
    ghost Value = { Option ℕ };

    ghost view = { λ g. g.expected };

    ghost invariant = { λ g. IfSome g.expected (λ position. position < 8) };
}

// The position after `position`.
pub fn next_position(position: u8) -> u8
    ensures { result ≡ following position }
{
    if position < 7 { position + 1 } else { 0 }
}

impl Group {
    // No position is known.
    pub fn new() -> Group
        ensures { result ≡ None }
    {
        Group { expected: None }
    }

    // The position of the word that was met, if it has one. Positions are plain numbers: public functions take any, and a type of those below
    // 8 would ask more of callers, so the bound stands where it is needed.
    pub fn meet(&mut self, event: Event) -> Option<u8>
        ensures position { result ≡ position_of self.old event }
        ensures next { self.new ≡ expected_after self.old event }
        ensures within { IfSome result (λ g. g < 8) }
        ensures known { IfSome self.old (λ g. g < 8) × IfSome self.new (λ g. g < 8) }
    {
        match (self.expected, event) {
            (_, Event::GroupStart) => {
                self.expected = Some(1);
                Some(0)
            }
            (None | Some(0), Event::Plain) => {
                self.expected = None;
                None
            }
            (Some(g), Event::Plain) => {
                self.expected = Some(next_position(g));
                Some(g)
            }
            (expected, Event::Lost) => {
                self.expected = expected.map(next_position);
                None
            }
        }
    }
}
