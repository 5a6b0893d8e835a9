// A delay line that delays every slot alike.
mod halves;

ghost use Rattle.std.specs.Prelude.{◌≤◌};
ghost use Rattle.delay_line.specs.Cells.{always, ringed};
ghost use Rattle.std.proofs.Common.{rules, arith};

use crate::line::DelayLine;
use crate::slot::Slot;

// The byte that is due at slot k lies in cell k.
#[derive(Drop)]
pub struct Delay {
    places: u8,
    cells: [u8; 204],
    ghost short: { places ≤ 204 },
}

impl DelayLine for Delay {
    ghost pending = { λ s. ringed s.cells s.places };

    ghost delay = { λ s. always s.places };

    ghost frames = { λ s. 1 };

    ghost delays = { first_of (Prim.search rules, Prim.grind (arith, Self.row.coded.inj)) };

    fn pass(&mut self, slot: Slot, byte: u8) -> u8 {
        let at = slot.number() as usize;
        let due = if self.places == 0 {
            byte
        } else {
            self.cells[at]
        };
        self.cells[(at + self.places as usize) % 204] = byte;
        due
    }

    fn clear(&mut self) {
        self.cells = [0; 204];
    }

    fn lag(&self) -> u16 {
        1
    }
}
