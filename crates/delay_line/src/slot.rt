// The slots of a frame.
ghost use Rattle.std.specs.Prelude.{◌≡◌, suc, ◌%◌, ◌<◌};

// One of the 204 slots of a frame.
#[derive(Clone, Copy, Debug, PartialEq, Eq)]
pub struct Slot {
    number: u8,
    ghost within: { number < 204 },
}

impl Slot {
    // The first slot of a frame.
    pub fn first() -> Slot
        ensures { result.number ≡ 0 }
    {
        Slot { number: 0 }
    }

    // The slot after this one: the last is followed by the first of the next frame.
    pub fn next(self) -> Slot
        ensures { result.number ≡ suc self.number % 204 }
    {
        let past = self.number + 1;
        Slot {
            number: if past == 204 { 0 } else { past },
        }
    }

    // The slot's number, from 0.
    pub fn number(self) -> u8
        ensures { result ≡ self.number }
    {
        self.number
    }
}
