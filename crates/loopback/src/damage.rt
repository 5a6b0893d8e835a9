// Damage to symbols on their way.
ghost use Rattle.std.specs.Prelude.{◌≡◌, ◌^◌, ◌<◌, ◌≤◌, ◌≢◌, false};
ghost use Rattle.loopback.specs.declared.damage.Damage.TheVariants.{Clean};

use std::fmt;
use symbols::Mapping;

#[derive(Clone, Copy, Debug, PartialEq, Eq)]
pub enum Damage {
    Clean,
    // so many symbols of 1,000, on average
    Scattered(u32),
    // 60 symbols in a row of every 4,000
    Bursts,
}

// The column of the page, as wide as that is: a text to be padded would have to be made on the heap first.
impl fmt::Display for Damage {
    fn fmt<W: fmt::Write>(&self, f: &mut fmt::Formatter<W>) -> fmt::Result {
        match self {
            Damage::Clean => write!(f, "{:<14}", "none"),
            Damage::Scattered(rate) => write!(f, "{rate:>2} in 1000    "),
            Damage::Bursts => write!(f, "{:<14}", "60 in 4000"),
        }
    }
}

// `state` is the random numbers' generator, `place` the number of the next symbol.
#[derive(Clone, Copy, Debug, PartialEq, Eq)]
pub struct Channel {
    mapping: Mapping,
    damage: Damage,
    state: u32,
    place: u32,
}

// How many symbols there are.
fn symbols_of(mapping: Mapping) -> u32
    ensures { (16 ≤ result) × (result ≤ 64) × (result ≡ 2 ^ mapping.bits) }
{
    1 << mapping.bits()
}

// Another symbol than this one, by a random number.
fn another(mapping: Mapping, symbol: u8, random: u32) -> u8
    ensures symbol { result < 2 ^ mapping.bits }
    ensures changed { symbol < 2 ^ mapping.bits → result ≢ symbol }
{
    let count = symbols_of(mapping);
    let step = 1 + random % (count - 1);
    ((symbol as u32 + step) % count) as u8
}

impl Channel {
    // At its first symbol.
    pub fn new(mapping: Mapping, damage: Damage) -> Channel
        ensures { (result.mapping ≡ mapping) × (result.damage ≡ damage) × (result.place ≡ 0) }
    {
        Channel {
            mapping,
            damage,
            state: 1,
            place: 0,
        }
    }

    // The next random number, below 32,768.
    fn random(&mut self) -> u32
        ensures { (self.new.mapping ≡ self.old.mapping) × (self.new.damage ≡ self.old.damage) × (self.new.place ≡ self.old.place) }
    {
        let next = (1103515245 * self.state as u64 + 12345) % 2147483648;
        self.state = next as u32;
        self.state / 65536
    }

    fn damages(&self, random: u32) -> bool
        ensures { self.now.damage ≡ Clean → result ≡ false }
    {
        match self.damage {
            Damage::Clean => false,
            Damage::Scattered(rate) => random % 1000 < rate,
            Damage::Bursts => self.place % 4000 >= 3940,
        }
    }

    // What becomes of the next symbol: a symbol of the mapping stays one, and a clean channel changes none.
    pub fn pass(&mut self, symbol: u8) -> u8
        ensures symbol { symbol < 2 ^ self.old.mapping.bits → result < 2 ^ self.old.mapping.bits }
        ensures clean { self.old.damage ≡ Clean → result ≡ symbol }
        ensures settings { (self.new.mapping ≡ self.old.mapping) × (self.new.damage ≡ self.old.damage) }
    {
        let random = self.random();
        let damaged = self.damages(random);
        self.place = self.place.wrapping_add(1);
        if damaged {
            another(self.mapping, symbol, random)
        } else {
            symbol
        }
    }
}
