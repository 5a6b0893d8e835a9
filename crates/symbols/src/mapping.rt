// The number of bits of a symbol: 4 for 16-QAM, 5 for 32-QAM, 6 for 64-QAM. It is a number and no enum of the three,
// since every use but its name counts or shifts by it.
ghost use Rattle.std.specs.Prelude.{◌≤◌};

mod ops;

#[derive(Clone, Copy, Debug, PartialEq, Eq)]
pub struct Mapping {
    bits: u32,
    ghost known: { (4 ≤ bits) × (bits ≤ 6) },
}
