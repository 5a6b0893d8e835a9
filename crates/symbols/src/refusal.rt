// Why there is no mapping, and why a frame is not appended.
ghost use Rattle.std.specs.Prelude.{◌≡◌};
ghost use Rattle.symbols.specs.Refusals.{number_of};

use thiserror::Error;

#[derive(Clone, Copy, Debug, PartialEq, Eq, Error)]
pub enum MappingRefusal {
    #[error("the number of bits to a symbol is 4, 5 or 6")]
    BitsPerSymbol = 1,
}

impl MappingRefusal {
    // The number of the refusal.
    pub fn number(&self) -> u32
        ensures { result ≡ number_of self.now }
    {
        // a cast needs the enum's own type, so each enum of refusals casts itself
        *self as u32
    }
}

#[derive(Clone, Copy, Debug, PartialEq, Eq, Error)]
pub enum AppendRefusal {
    #[error("the frame is not 204 bytes")]
    Length,
    #[error("eight or more bits are undrawn")]
    Undrawn,
}
