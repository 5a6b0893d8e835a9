// The two halves of a board delay.
ghost use Rattle.std.specs.Prelude.{◌≡◌, ◌≤◌};
ghost use Rattle.delay_line.specs.Cells.{always, places_of};
ghost use Rattle.delay_line.specs.Fresh.{IsFresh};
ghost use Rattle.delay_line.specs.contracts.delay.DelayDelayLine.TheImpl.{ghosts};

use crate::board::BoardDelay;
use crate::delay::Delay;
use crate::direction::Direction;

// The byte places of one half: sending, the board's, and receiving, what is left of one frame.
fn places_of(board: BoardDelay, direction: Direction) -> u8
    ensures { (result ≡ places_of direction board.places) × (result ≤ 204) }
{
    match direction {
        Direction::Sending => board.places(),
        Direction::Receiving => 204 - board.places(),
    }
}

impl Delay {
    // The half of this board.
    pub fn new(board: BoardDelay, direction: Direction) -> Delay
        ensures { IsFresh ghosts result (always (places_of direction board.places)) 1 }
    {
        Delay {
            places: places_of(board, direction),
            cells: [0; 204],
        }
    }
}
