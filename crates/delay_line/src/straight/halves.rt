// Both halves of the straight line.
ghost use Rattle.delay_line.specs.Fresh.{IsFresh};
ghost use Rattle.delay_line.specs.Line.{silent};
ghost use Rattle.delay_line.specs.contracts.straight.StraightDelayLine.TheImpl.{ghosts};

use crate::straight::Straight;

impl Straight {
    // The half, sending and receiving alike.
    pub fn new() -> Straight
        ensures { IsFresh ghosts result silent 0 }
    {
        Straight
    }
}
