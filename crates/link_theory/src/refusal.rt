// Why a call of the sender or of the receiver was refused, and what is wrong with a word that the receiver took.
ghost use Rattle.link_theory.specs.Refusals.{collect_frame, collect_layer, collect_number, draw_number, load_number, take_number};
ghost use Rattle.link_theory.specs.Refusals.{link_layer, link_number};
ghost use Rattle.link_theory.specs.declared.refusal.LinkFault.TheVariants.{Word};
ghost use Rattle.std.specs.Prelude.{◌≡◌};

use framing::WordRefusal;
use thiserror::Error;

// Why a packet was not loaded, in the order in which the causes are tried. The discriminants are the refusals' numbers.
#[derive(Clone, Copy, Debug, PartialEq, Eq, Error)]
pub enum LoadRefusal {
    #[error("it is not 188 bytes")]
    Length = 3,
    #[error("it does not begin with 47h")]
    Sync = 4,
    #[error("symbols are still to be drawn")]
    Undrawn = 5,
}

// Why no symbol was drawn.
#[derive(Clone, Copy, Debug, PartialEq, Eq, Error)]
pub enum DrawRefusal {
    #[error("fewer bits are left than a symbol has")]
    Exhausted = 6,
}

// Why a symbol was not taken, in the order in which the causes are tried.
#[derive(Clone, Copy, Debug, PartialEq, Eq, Error)]
pub enum TakeRefusal {
    // the number is 2^m or more, where a symbol has m bits
    #[error("it is no symbol of this mapping")]
    NotASymbol = 7,
    #[error("an outcome waits to be collected")]
    Waiting = 8,
}

// Why a word gave no packet.
#[derive(Clone, Copy, Debug, PartialEq, Eq, Error)]
pub enum LinkFault {
    // the word reader's fault
    #[error(transparent)]
    Word(WordRefusal),
    #[error("the position of the word in its group of eight is not known")]
    Group,
}

// Why no packet was collected, in the order in which the causes are tried.
#[derive(Clone, Copy, Debug, PartialEq, Eq, Error)]
pub enum CollectRefusal {
    #[error("the buffer is not 188 bytes")]
    Length,
    #[error("no outcome waits to be collected")]
    NothingWaits,
    // the outcome is a fault of the word with this frame number
    #[error("word {frame}: {fault}")]
    Fault { frame: u32, fault: LinkFault },
}

// Not derived: a derived `From` has no contract, and clauses say which fault comes up.
impl From<WordRefusal> for LinkFault {
    ghost from_gives = { λ x y. y ≡ Word x };

    fn from(value: WordRefusal) -> LinkFault {
        LinkFault::Word(value)
    }
}

// A cast needs the enum's own type, so each enum of refusals casts itself.
impl LoadRefusal {
    pub fn number(&self) -> u32
        ensures { result ≡ load_number self.now }
    {
        *self as u32
    }
}

impl DrawRefusal {
    pub fn number(&self) -> u32
        ensures { result ≡ draw_number self.now }
    {
        *self as u32
    }
}

impl TakeRefusal {
    pub fn number(&self) -> u32
        ensures { result ≡ take_number self.now }
    {
        *self as u32
    }
}

// A fault is told as three numbers, by case, since the corrector's brings its own; what a refused call has none of is 0: a rule of the project.
impl LinkFault {
    pub fn number(&self) -> u32
        ensures { result ≡ link_number self.now }
    {
        match self {
            LinkFault::Word(refusal) => refusal.number(),
            LinkFault::Group => 13,
        }
    }

    // The layer that found it: the corrector 1, the word reader 2, the group 3.
    pub fn layer(&self) -> u8
        ensures { result ≡ link_layer self.now }
    {
        match self {
            LinkFault::Word(WordRefusal::Length) => 0,
            LinkFault::Word(WordRefusal::Fault(fault)) => fault.layer(),
            LinkFault::Group => 3,
        }
    }
}

impl CollectRefusal {
    pub fn number(&self) -> u32
        ensures { result ≡ collect_number self.now }
    {
        match self {
            CollectRefusal::Length => 9,
            CollectRefusal::NothingWaits => 10,
            CollectRefusal::Fault { frame: _, fault } => fault.number(),
        }
    }

    // The frame number of the word that is at fault; 0 where the call itself was refused.
    pub fn frame(&self) -> u32
        ensures { result ≡ collect_frame self.now }
    {
        match self {
            CollectRefusal::Length | CollectRefusal::NothingWaits => 0,
            CollectRefusal::Fault { frame, fault: _ } => *frame,
        }
    }

    // The layer that found the fault; 0 where the call itself was refused.
    pub fn layer(&self) -> u8
        ensures { result ≡ collect_layer self.now }
    {
        match self {
            CollectRefusal::Length | CollectRefusal::NothingWaits => 0,
            CollectRefusal::Fault { frame: _, fault } => fault.layer(),
        }
    }
}
