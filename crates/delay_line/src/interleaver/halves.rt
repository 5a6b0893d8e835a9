// The two halves of the interleaver.
ghost use Rattle.delay_line.specs.Cells.{twelfths};
ghost use Rattle.delay_line.specs.Fresh.{IsFresh};
ghost use Rattle.delay_line.specs.contracts.interleaver.InterleaverDelayLine.TheImpl.{ghosts};

use crate::direction::Direction;
use crate::interleaver::Interleaver;

impl Interleaver {
    // The half that delays the byte of slot k by k mod 12 frames, sending, and by what is left of eleven, receiving.
    pub fn new(direction: Direction) -> Interleaver
        ensures { IsFresh ghosts result (twelfths direction) 11 }
    {
        Interleaver {
            direction,
            oldest: [0; 12],
            cells: [0; 1122],
        }
    }
}
