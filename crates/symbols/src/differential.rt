// Turns in the two highest bits.
ghost use Rattle.std.specs.Prelude.{◌≡◌, ◌^◌, ◌<◌, ◌++◌, drop};
ghost use Rattle.symbols.specs.Bits.{bits, number};
ghost use Rattle.symbols.specs.Turns.{lead, turn as turn_in, turn_of};

use crate::mapping::Mapping;

// The turn for which two bits stand.
#[tactic(auto, unfolding(crate::specs::Bits::bits))]
fn turn_of(top: u8) -> u8
    requires { top < 4 }
    ensures { result ≡ turn_in (bits 2 top) }
{
    match top {
        0 => 0,
        1 => 3,
        2 => 1,
        _ => 2,
    }
}

// The two bits of a turn.
fn lead_of(turn: u8) -> u8
    ensures { result ≡ number (lead turn) }
{
    match turn {
        0 => 0,
        1 => 2,
        2 => 3,
        _ => 1,
    }
}

impl Mapping {
    // The turn of a tuple or symbol.
    pub(crate) fn turn_at(self, x: u8) -> u8
        requires { x < 2 ^ self.bits }
        ensures { result ≡ turn_of self.bits x }
    {
        turn_of(x >> (self.bits() - 2))
    }

    // A tuple or symbol with another turn.
    pub(crate) fn with_turn(self, turn: u8, x: u8) -> u8
        ensures { result ≡ number (lead turn ++ drop 2 (bits self.bits x)) }
    {
        let low = self.bits() - 2;
        (lead_of(turn) << low) + x % (1 << low)
    }
}
