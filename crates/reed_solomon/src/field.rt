// Fields of characteristic two.
ghost use Rattle.coding_theory.specs.Field.{Arithmetic, Lawful};
ghost use Rattle.std.specs.Prelude.{◌≡◌, ℕ};

// A field whose elements are the numbers below the number of its elements, which is at most 256. An operation that is given a number
// that is no element answers 0, and so does the inverse of 0.
pub trait Field {
    // the operations that the functions below compute
    ghost ops: { Arithmetic };

    ghost SIZE: { ℕ };

    ghost ALPHA: { ℕ };

    // the number of elements
    const SIZE: usize;

    // alpha, whose powers are all elements but 0
    const ALPHA: u8;

    fn sum(a: u8, b: u8) -> u8
        ensures { result ≡ ops.add a b };

    fn product(a: u8, b: u8) -> u8
        ensures { result ≡ ops.mul a b };

    fn inverse(a: u8) -> u8
        ensures { result ≡ ops.inv a };

    // alpha to the power e
    fn power(e: u64) -> u8
        ensures { result ≡ ops.pow e };

    ghost lawful: { Lawful ops };

    ghost size: { SIZE ≡ ops.order };

    ghost alpha: { ALPHA ≡ ops.alpha };
}
