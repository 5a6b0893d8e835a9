// Delay schemes, of which any number of sending and receiving halves are made.
ghost use Rattle.std.specs.Prelude.{ℕ, ◌-◌};
ghost use Rattle.delay_line.specs.Cells.{always, twelfths};
ghost use Rattle.delay_line.specs.Fresh.{IsFresh};
ghost use Rattle.delay_line.specs.Line.{Delays, Undoes, silent};
ghost use Rattle.delay_line.specs.declared.direction.Direction.TheVariants.{Sending as to_send, Receiving as to_receive};
ghost use Rattle.std.proofs.Common.{rules, arith};

use crate::board::BoardDelay;
use crate::delay::Delay;
use crate::direction::Direction;
use crate::interleaver::Interleaver;
use crate::line::DelayLine;
use crate::straight::Straight;

// Sending and receiving delays that belong to one another. The two halves have a method each, since they may differ in type, as those of a stack do.
pub trait Scheme {
    type Sending: DelayLine + Drop;

    type Receiving: DelayLine + Drop;

    // The delay of each slot, sending.
    ghost sends: { Self → ℕ → ℕ };

    // The delay of each slot, receiving.
    ghost receives: { Self → ℕ → ℕ };

    // The lag, in frames.
    ghost spans: { Self → ℕ };

    // A sending line in which nothing is pending.
    fn sending(&self) -> Self::Sending
        ensures { IsFresh Self.Sending.DelayLine result (sends self.now) (spans self.now) };

    // A receiving line in which nothing is pending.
    fn receiving(&self) -> Self::Receiving
        ensures { IsFresh Self.Receiving.DelayLine result (receives self.now) (spans self.now) };

    ghost delays: { (s : Self) → Delays (sends s) (spans s) };

    ghost undoes: { (s : Self) → Undoes (sends s) (receives s) (spans s) };
}

// Every byte goes straight through.
#[derive(Clone, Copy, Debug, PartialEq, Eq)]
pub struct NoDelay;

impl Scheme for NoDelay {
    type Sending = Straight;

    type Receiving = Straight;

    ghost sends = { λ s. silent };

    ghost receives = { λ s. silent };

    ghost spans = { λ s. 0 };

    ghost delays = { Prim.search rules };

    ghost undoes = { Prim.search rules };

    fn sending(&self) -> Straight {
        Straight::new()
    }

    fn receiving(&self) -> Straight {
        Straight::new()
    }
}

impl Scheme for BoardDelay {
    type Sending = Delay;

    type Receiving = Delay;

    ghost sends = { λ s. always s.places };

    ghost receives = { λ s. always (204 - s.places) };

    ghost spans = { λ s. 1 };

    ghost delays = { first_of (Prim.search rules, Prim.grind (arith, Self.row.coded.inj)) };

    ghost undoes = { first_of (Prim.search rules, Prim.grind (arith, Self.row.coded.inj)) };

    fn sending(&self) -> Delay {
        Delay::new(*self, Direction::Sending)
    }

    fn receiving(&self) -> Delay {
        Delay::new(*self, Direction::Receiving)
    }
}

// The interleaver.
#[derive(Clone, Copy, Debug, PartialEq, Eq)]
pub struct Interleaving;

impl Scheme for Interleaving {
    type Sending = Interleaver;

    type Receiving = Interleaver;

    ghost sends = { λ s. twelfths to_send };

    ghost receives = { λ s. twelfths to_receive };

    ghost spans = { λ s. 11 };

    ghost delays = { Prim.search rules };

    ghost undoes = { Prim.search rules };

    fn sending(&self) -> Interleaver {
        Interleaver::new(Direction::Sending)
    }

    fn receiving(&self) -> Interleaver {
        Interleaver::new(Direction::Receiving)
    }
}
