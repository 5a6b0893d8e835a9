// The delay of a board, and its refusal.
ghost use Rattle.std.specs.Prelude.{◌≡◌, ◌<◌, MatchResult};
ghost use Rattle.delay_line.specs.Refusals.{number_of};
ghost use Rattle.delay_line.specs.declared.board.DelayRefusal.TheVariants.{TooLong};

use thiserror::Error;

// Why a delay is refused, with the number of each refusal.
#[derive(Clone, Copy, Debug, PartialEq, Eq, Error)]
pub enum DelayRefusal {
    #[error("a board delay is above 203")]
    TooLong = 2,
}

impl DelayRefusal {
    // The number of the refusal.
    pub fn number(&self) -> u32
        ensures { result ≡ number_of self.now }
    {
        // a cast needs the enum's own type, so each enum of refusals casts itself
        *self as u32
    }
}

// One delay for every slot, 0 to 203 byte places.
#[derive(Clone, Copy, Debug, PartialEq, Eq)]
pub struct BoardDelay {
    places: u8,
    ghost short: { places < 204 },
}

impl TryFrom<u32> for BoardDelay {
    type Error = DelayRefusal;

    ghost try_from_gives = { λ places result. MatchResult result (λ board. board.places ≡ places) (λ e. (203 < places) × (e ≡ TooLong)) };

    // The delay of so many byte places.
    fn try_from(places: u32) -> Result<BoardDelay, DelayRefusal> {
        if places < 204 {
            Ok(BoardDelay {
                places: places as u8,
            })
        } else {
            Err(DelayRefusal::TooLong)
        }
    }
}

impl BoardDelay {
    // The delay in byte places.
    pub fn places(&self) -> u8
        ensures { result ≡ self.now.places }
    {
        self.places
    }
}
