// Berlekamp and Massey's algorithm over any field: the polynomial whose roots tell where the errors are.
ghost use Rattle.std.specs.Prelude.{◌≡◌, ◌+◌, ◌<◌, ◌≤◌, length, slice_index};
ghost use Rattle.coding_theory.specs.Algebra.{plain};
ghost use Rattle.coding_theory.specs.Decoder.{disc, turned, wide};
ghost use Rattle.reed_solomon.specs.States.{state};

use crate::field::Field;
use crate::polynomial::{add_scaled, scale, shift};

// The coefficient of x^n in the product of `con` and the syndromes.
fn discrepancy<F: Field>(con: &[u8], s: &[u8], n: usize) -> u8
    requires { n < length s.now }
    ensures { result ≡ disc (plain F.ops) con.now (λ k. slice_index s.now k) n }
{
    con.iter().zip(s[..=n].iter().rev()).fold(
        0,
        |sum, (c, syndrome)| F::sum(sum, F::product(*c, *syndrome)),
    )
}

// What the algorithm has after some syndromes: the length, the connection polynomial, lowest coefficient first, and the one to repair it with.
#[derive(Drop)]
struct KeyEquation<const W: usize> {
    len: usize,
    con: [u8; W],
    rep: [u8; W],
}

impl<const W: usize> KeyEquation<W> {
    // One turn, at syndrome n. W ≤ 256 since an array that is lent to be written owes a bound, and a const parameter carries none.
    fn advance<F: Field>(&mut self, s: &[u8], n: usize)
        requires n_in_bounds { n < length s.now }
        requires n_bound { n ≤ 256 }
        requires width { W ≤ 256 }
        requires len_le_n { self.old.len ≤ n }
        ensures below { self.new.len ≤ n + 1 }
        ensures turned { state self.new.len self.new.con self.new.rep ≡ turned (plain F.ops) W (λ k. slice_index s.now k) n (state self.old.len self.old.con self.old.rep) }
    {
        let d = discrepancy::<F>(&self.con, s, n);
        if d != 0 {
            let con = self.con;
            add_scaled::<F>(&mut self.con, d, &self.rep);
            if n >= self.len + self.len {
                self.rep = con;
                scale::<F>(&mut self.rep, F::inverse(d));
                self.len = n + 1 - self.len;
            }
        }
        shift(&mut self.rep);
    }
}

// The connection polynomial of the syndromes `s`, lowest coefficient first.
pub(crate) fn connect<F: Field, const W: usize>(s: &[u8]) -> [u8; W]
    requires few { length s.now ≤ 256 }
    requires wide { 2 ≤ W }
    requires width { W ≤ 256 }
    ensures { result ≡ (wide (plain F.ops) W (λ k. slice_index s.now k) (length s.now)).con }
{
    let mut equation = KeyEquation {
        len: 0,
        con: [0u8; W],
        rep: [0u8; W],
    };
    equation.con[0] = 1;
    equation.rep[1] = 1;
    // n is the number of the turn: lengths are compared with it
    for n in 0..s.len() {
        equation.advance::<F>(s, n);
    }
    equation.con
}
