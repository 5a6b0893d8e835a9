// The places of the errors, and their values.
ghost use Rattle.std.specs.Prelude.{◌≡◌, ℕ, suc, ◌-◌, ◌<◌, ◌≤◌, length, MatchOption, slice_index};
ghost use Rattle.coding_theory.specs.Algebra.{plain};
ghost use Rattle.coding_theory.specs.Decoder.{located, repaired, taken, valued};
ghost use Rattle.coding_theory.specs.Words.{from, power};
ghost use Rattle.reed_solomon.specs.Correction.{Restored};

use crate::code::evaluate;
use crate::field::Field;
use crate::key_equation::connect;

// The places of a word of `n` symbols whose locators are roots of `con`, from first to last, or nothing if they are more than the room
// `found` holds: there is no heap, so they stand at its end, and the answer is that part of it.
fn locate<'a, F: Field>(con: &[u8], n: usize, found: &'a mut [u8]) -> Option<&'a [u8]>
    requires { n ≤ 256 }
    ensures { MatchOption result
        (length found.old < length (located (plain F.ops) (λ p. F.ops.pow (n - suc p)) con.now (from 0 n)))
        (λ places. (length places.now ≤ length found.old) × (places.now ≡ located (plain F.ops) (λ p. F.ops.pow (n - suc p)) con.now (from 0 n))) }
{
    let mut start = found.len();
    let mut x = 1;
    for p in (0..n).rev() {
        if evaluate::<F>(con, x) == 0 {
            if start == 0 {
                return None;
            }
            start -= 1;
            found[start] = p as u8;
        }
        x = F::product(F::ALPHA, x);
    }
    Some(&found[start..])
}

// Takes the place with the locator `y` out of the power sums `t`.
fn take_out<F: Field>(t: &mut [u8], y: u8)
    ensures { t.new ≡ taken (plain F.ops) y t.old }
{
    // each takes in the one behind it, and the last stays: windows can't be written, and a copy moved by one would make the last a case apart
    for i in 1..t.len() {
        t[i - 1] = F::sum(F::product(y, t[i - 1]), t[i]);
    }
}

// `x` to the power `e`.
fn raised<F: Field>(x: u8, e: u64) -> u8
    ensures { result ≡ power (plain F.ops) x e }
{
    let mut value = 1;
    for _i in 0..e {
        value = F::product(x, value);
    }
    value
}

// The errors of a word of `n` symbols: their places, and the power sums of their values, as many; `first` is the code's first power.
// `repair` asks for W ≤ 256 as an array of W that is lent to be written owes a bound, and a const parameter carries no fact of its own.
#[derive(Drop)]
struct Errors<'a> {
    n: usize,
    first: u64,
    places: &'a [u8],
    sums: &'a [u8],
    ghost within: { (k : ℕ) → k < length places.now → slice_index places.now k < n },
    ghost as_many: { length sums.now ≡ length places.now },
}

impl<'a> Errors<'a> {
    // The locator of the place `p`.
    fn locator<F: Field>(&self, p: u8) -> u8
        requires { p < self.now.n }
        ensures { result ≡ F.ops.pow (self.now.n - suc p) }
    {
        F::power((self.n - 1 - p as usize) as u64)
    }

    // The value of the error at `q`, one of the places; `t` is room to work in.
    fn value<F: Field>(&self, t: &mut [u8], q: u8) -> u8
        requires some { 0 < length self.now.sums.now }
        requires t_len { length t.old ≡ length self.now.sums.now }
        requires q_lt_n { q < self.now.n }
        ensures { result ≡ valued (plain F.ops) (λ p. F.ops.pow (self.now.n - suc p)) q self.now.places.now self.now.sums.now (power (plain F.ops) (F.ops.pow (self.now.n - suc q)) self.now.first) }
    {
        let x = self.locator::<F>(q);
        t.copy_from_slice(self.sums);
        let mut den = raised::<F>(x, self.first);
        for p in self.places {
            if *p != q {
                let y = self.locator::<F>(*p);
                take_out::<F>(t, y);
                den = F::product(F::sum(y, x), den);
            }
        }
        F::product(t[0], F::inverse(den))
    }

    // Adds the error at each of the places; there are at most W. They share one room: a room made anew for each is zeroed by a call of
    // memset, which a caller in C would have to bring.
    fn repair<F: Field, const W: usize>(&self, word: &mut [u8])
        requires word_len { length word.old ≡ self.now.n }
        requires fits { length self.now.sums.now ≤ W }
        requires width { W ≤ 256 }
        ensures { word.new ≡ repaired (plain F.ops) (λ p. F.ops.pow (self.now.n - suc p)) self.now.first self.now.sums.now self.now.places.now self.now.places.now word.old }
    {
        let mut room = [0u8; W];
        let t = &mut room[..self.sums.len()];
        for p in self.places {
            word[*p as usize] = F::sum(word[*p as usize], self.value::<F>(t, *p));
        }
    }
}

// The one code word that can be within reach of `word`, where there is one: `s` are the word's syndromes, and at most W - 1 errors can be
// repaired.
pub(crate) fn restore<F: Field, const N: usize, const W: usize>(
    word: [u8; N],
    s: &[u8],
    first: u64,
) -> Option<[u8; N]>
    requires n_bound { N ≤ 256 }
    requires s_len_bound { length s.now ≤ 256 }
    requires wide { 2 ≤ W }
    requires enough { W ≤ length s.now }
    ensures { Restored F.ops first (W - 1) s.now word.entry result }
{
    let con = connect::<F, W>(s);
    let mut found = [0u8; W];
    let places = locate::<F>(&con, N, &mut found)?;
    let errors = Errors {
        n: N,
        first,
        places,
        sums: &s[..places.len()],
    };
    let mut restored = word;
    errors.repair::<F, W>(&mut restored);
    Some(restored)
}
