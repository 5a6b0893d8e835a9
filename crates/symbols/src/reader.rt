// Symbols to the line's bytes.
ghost use Rattle.std.specs.Prelude.{◌≡◌, ◌+◌, ◌*◌, ◌^◌, ◌<◌};
ghost use Rattle.symbols.specs.Models.{WithinByte};
ghost use Rattle.symbols.specs.Stages.{fresh_incoming, taken};

use crate::mapping::Mapping;
use std::marker::Model;

// `held` is the number of the `count` bits that do not yet fill a byte, and `turn` that of the last symbol. Number and
// count stand in fixed memory: there is no heap here.
#[derive(Drop)]
pub struct SymbolReader {
    mapping: Mapping,
    held: u32,
    count: u32,
    turn: u8,
}

impl Model for SymbolReader {
    ghost use Rattle.std.specs.Prelude.{◌^◌, ◌<◌};
    ghost use Rattle.symbols.specs.Models.{Reader, incoming_of};

    ghost Value = { Reader };

    ghost view = { λ r. record { mapping = r.mapping; incoming = incoming_of r.count r.held r.turn } };

    ghost invariant = { λ r. (r.count < 8) × (r.held < 2 ^ r.count) × (r.turn < 4) };
}

// A tuple behind the `count` bits of `held`.
fn joined(held: u32, count: u32, tuple: u8, mapping: Mapping) -> u32
    requires { (count < 8) × (held < 2 ^ count) × (tuple < 2 ^ mapping.bits) }
    ensures value { result ≡ held * 2 ^ mapping.bits + tuple }
    ensures below { result < 2 ^ (count + mapping.bits) }
{
    (held << mapping.bits()) + tuple as u32
}

impl SymbolReader {
    pub fn new(mapping: Mapping) -> SymbolReader
        ensures { result ≡ record { mapping = mapping; incoming = fresh_incoming } }
    {
        SymbolReader {
            mapping,
            held: 0,
            count: 0,
            turn: 0,
        }
    }

    // The writer has the same: a trait for this one getter would be no plainer than its two lines.
    pub fn mapping(&self) -> Mapping
        ensures value { result ≡ self.now.mapping }
        ensures within { WithinByte self.now }
    {
        self.mapping
    }

    // Forgets the bits at hand and the last symbol.
    pub fn clear(&mut self)
        ensures { self.new ≡ record self.old { incoming = fresh_incoming } }
    {
        self.held = 0;
        self.count = 0;
        self.turn = 0;
    }

    // Takes a symbol, and gives the byte that is then full. A number of more bits than a symbol's changes nothing.
    pub fn take(&mut self, symbol: u8) -> Option<u8>
        ensures byte { result ≡ (taken self.old.mapping.bits symbol self.old.incoming).gives }
        ensures reader { self.new ≡ record self.old { incoming = (taken self.old.mapping.bits symbol self.old.incoming).next } }
        ensures within { WithinByte self.new }
    {
        let mapping = self.mapping;
        let m = mapping.bits();
        if symbol as u32 >= 1 << m {
            return None;
        }
        let turn = mapping.turn_at(symbol);
        let tuple = mapping.with_turn((turn + (4 - self.turn)) % 4, symbol);
        let held = joined(self.held, self.count, tuple, mapping);
        let count = self.count + m;
        self.turn = turn;
        if count < 8 {
            self.held = held;
            self.count = count;
            return None;
        }
        let left = count - 8;
        self.held = held % (1 << left);
        self.count = left;
        Some((held >> left) as u8)
    }
}
