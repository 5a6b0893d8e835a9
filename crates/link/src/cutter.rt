// The delay line's answers, cut into words.
ghost use Rattle.std.specs.Prelude.{◌≡◌, ◌*◌, []};
ghost use Rattle.link.specs.Within.{WithinWord};
ghost use Rattle.link_theory.specs.Receiver.{cut};

use std::marker::Model;

// `skip` answers are still to be dropped; `filled` bytes of the word at hand stand in `word`. Array and count stand in fixed memory: there
// is no heap here.
#[derive(Drop)]
pub struct WordCutter {
    skip: u32,
    word: [u8; 204],
    filled: usize,
}

impl Model for WordCutter {
    ghost use Rattle.std.specs.Prelude.{◌≡◌, ◌<◌, length, take};
    ghost use Rattle.link_theory.specs.Receiver.{Cutter};

    ghost Value = { Cutter };

    ghost view = { λ c. record { skip = c.skip; word = take c.filled c.word } };

    ghost invariant = { λ c. (length c.word ≡ 204) × (c.filled < 204) };
}

impl WordCutter {
    // The first `frames` frames of answers are dropped.
    pub(crate) fn new(frames: u16) -> WordCutter
        ensures { result ≡ record { skip = 204 * frames; word = [] } }
    {
        WordCutter {
            skip: 204 * frames as u32,
            word: [0; 204],
            filled: 0,
        }
    }

    // Takes one answer more, and gives the word that it completes.
    pub(crate) fn push(&mut self, byte: u8) -> Option<[u8; 204]>
        ensures cut { record { gives = result; next = self.new } ≡ cut byte self.old }
        ensures within { WithinWord self.new }
    {
        if self.skip > 0 {
            self.skip -= 1;
            return None;
        }
        self.word[self.filled] = byte;
        self.filled += 1;
        if self.filled < 204 {
            return None;
        }
        self.filled = 0;
        Some(self.word)
    }
}
