// Polynomials, by their coefficients.
ghost use Rattle.std.specs.Prelude.{◌≡◌, ◌∷◌, length, take};
ghost use Rattle.coding_theory.specs.Algebra.{plain};
ghost use Rattle.coding_theory.specs.Words.{plus, scale as scaled};

use crate::field::Field;
use std::mem;

// x times `p`, without the power that does not fit.
pub(crate) fn shift(p: &mut [u8])
    ensures { p.new ≡ take (length p.old) (0 ∷ p.old) }
{
    let mut carry = 0;
    for coefficient in p.iter_mut() {
        mem::swap(coefficient, &mut carry);
    }
}

// `a` times `p`.
pub(crate) fn scale<F: Field>(p: &mut [u8], a: u8)
    ensures { p.new ≡ scaled (plain F.ops) a p.old }
{
    for coefficient in p.iter_mut() {
        *coefficient = F::product(a, *coefficient);
    }
}

// Adds `a` times `q` to `p`.
pub(crate) fn add_scaled<F: Field>(p: &mut [u8], a: u8, q: &[u8])
    requires { length q.now ≡ length p.old }
    ensures { p.new ≡ plus (plain F.ops) p.old (scaled (plain F.ops) a q.now) }
{
    // tried: p.iter_mut().zip(q): the proof didn't close at `returns`, since after the loop it knows nothing of what a zip's pairs wrote
    for i in 0..p.len() {
        p[i] = F::sum(p[i], F::product(a, q[i]));
    }
}
