// The interleaver of twelve branches.
mod halves;

ghost use Rattle.std.specs.Prelude.{◌≡◌, suc, ◌+◌, ◌*◌, ◌%◌, ◌<◌, slice_index, slice_set};
ghost use Rattle.delay_line.specs.Cells.{Within, branch_of, branched, start, turned, twelfths};
ghost use Rattle.std.proofs.Common.{rules, arith};

use crate::direction::Direction;
use crate::line::DelayLine;
use crate::slot::Slot;

// Where the cells of each branch begin: branch j has 17 j of them. All lie in one array, since memory is fixed and the branches differ in length.
const STARTS: [usize; 12] = [0, 0, 17, 51, 102, 170, 255, 357, 476, 612, 765, 935];

// A byte waits in the branch of its slot until that has been served as often as it has cells.
#[derive(Drop)]
pub struct Interleaver {
    direction: Direction,
    oldest: [u8; 12],
    cells: [u8; 1122],
    ghost within: { Within oldest },
}

impl Interleaver {
    // Gives up the oldest byte of a branch, and takes `byte` in its place.
    fn serve(&mut self, branch: usize, byte: u8) -> u8
        requires { (0 < branch) × (branch < 12) }
        ensures due { result ≡ slice_index self.old.cells (start branch + slice_index self.old.oldest branch) }
        ensures cells { self.new.cells ≡ slice_set self.old.cells (start branch + slice_index self.old.oldest branch) byte }
        ensures oldest { self.new.oldest ≡ slice_set self.old.oldest branch (turned (17 * branch) (suc (slice_index self.old.oldest branch))) }
        ensures direction { self.new.direction ≡ self.old.direction }
    {
        let at = self.oldest[branch];
        let cell = STARTS[branch] + at as usize;
        let due = self.cells[cell];
        self.cells[cell] = byte;
        let past = at + 1;
        self.oldest[branch] = if (past as usize) < 17 * branch {
            past
        } else {
            0
        };
        due
    }
}

impl Direction {
    // The branch of a slot.
    fn branch(self, slot: Slot) -> usize
        ensures { (result ≡ branch_of self (slot.number % 12)) × (result < 12) }
    {
        let row = (slot.number() % 12) as usize;
        match self {
            Direction::Sending => row,
            Direction::Receiving => 11 - row,
        }
    }
}

impl DelayLine for Interleaver {
    ghost pending = { λ s. branched (branch_of s.direction) s.cells s.oldest };

    ghost delay = { λ s. twelfths s.direction };

    ghost frames = { λ s. 11 };

    ghost delays = { first_of (Prim.search rules, Prim.grind (arith, Self.row.coded.inj)) };

    fn pass(&mut self, slot: Slot, byte: u8) -> u8 {
        let branch = self.direction.branch(slot);
        if branch == 0 {
            byte
        } else {
            self.serve(branch, byte)
        }
    }

    fn clear(&mut self) {
        self.oldest = [0; 12];
        self.cells = [0; 1122];
    }

    fn lag(&self) -> u16 {
        11
    }
}
