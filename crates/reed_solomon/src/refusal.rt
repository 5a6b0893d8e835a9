// Why a word was not corrected.
ghost use Rattle.reed_solomon.specs.Refusals.{number_of};
ghost use Rattle.std.specs.Prelude.{◌≡◌};

use thiserror::Error;

// A word that no code word is near. A rule of the project: a fault carries its number, its frame's number and the layer that found it.
#[derive(Clone, Copy, Debug, PartialEq, Eq, Error)]
#[error("fault {number} of frame {frame}, layer {layer}")]
pub struct CodeFault {
    pub number: u32,
    pub frame: u32,
    pub layer: u8,
}

#[derive(Clone, Copy, Debug, PartialEq, Eq, Error)]
pub enum CodeRefusal {
    #[error("the buffer is not 204 bytes")]
    Length,
    #[error("no code word is within eight bytes: {0}")]
    Fault(CodeFault),
}

impl CodeRefusal {
    // The number of the refusal, which callers in C are answered.
    pub fn number(&self) -> u32
        ensures { result ≡ number_of self.now }
    {
        match self {
            CodeRefusal::Length => 14,
            CodeRefusal::Fault(fault) => fault.number,
        }
    }
}
