// Why a word was not read.
ghost use Rattle.framing.specs.Refusals.{fault_frame, fault_layer, fault_number, lifted, number_of};
ghost use Rattle.framing.specs.declared.refusal.WordFault.TheVariants.{Code};
ghost use Rattle.std.specs.Prelude.{◌≡◌};

use reed_solomon::{CodeFault, CodeRefusal};
use thiserror::Error;

// What is wrong with a word of 204 bytes.
#[derive(Clone, Copy, Debug, PartialEq, Eq, Error)]
pub enum WordFault {
    // the corrector's fault
    #[error("no code word is within eight bytes")]
    Code(CodeFault),
    // of the corrected word
    #[error("the word begins with neither 47h nor B8h")]
    Sync,
}

#[derive(Clone, Copy, Debug, PartialEq, Eq, Error)]
pub enum WordRefusal {
    #[error("the buffer is not 204 bytes")]
    Length,
    #[error(transparent)]
    Fault(WordFault),
}

// By hand: the From that a derive writes has no contract, and mend's clause names the refusal that its ? makes.
impl From<CodeFault> for WordFault {
    ghost from_gives = { λ x y. y ≡ Code x };

    fn from(value: CodeFault) -> WordFault {
        WordFault::Code(value)
    }
}

impl From<CodeRefusal> for WordRefusal {
    ghost from_gives = { λ x y. y ≡ lifted x };

    fn from(value: CodeRefusal) -> WordRefusal {
        match value {
            CodeRefusal::Length => WordRefusal::Length,
            CodeRefusal::Fault(fault) => WordRefusal::Fault(fault.into()),
        }
    }
}

// By case and not by discriminants: the corrector's fault brings numbers of its own.
impl WordFault {
    pub fn number(&self) -> u32
        ensures { result ≡ fault_number self.now }
    {
        match self {
            WordFault::Code(fault) => fault.number,
            WordFault::Sync => 12,
        }
    }

    pub fn frame(&self) -> u32
        ensures { result ≡ fault_frame self.now }
    {
        match self {
            WordFault::Code(fault) => fault.frame,
            WordFault::Sync => 0,
        }
    }

    pub fn layer(&self) -> u8
        ensures { result ≡ fault_layer self.now }
    {
        match self {
            WordFault::Code(fault) => fault.layer,
            WordFault::Sync => 2,
        }
    }
}

impl WordRefusal {
    // The number of the refusal.
    pub fn number(&self) -> u32
        ensures { result ≡ number_of self.now }
    {
        match self {
            WordRefusal::Length => 14,
            WordRefusal::Fault(fault) => fault.number(),
        }
    }
}
