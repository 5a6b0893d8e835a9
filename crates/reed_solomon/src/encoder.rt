// Check symbols by division by the generator polynomial.
ghost use Rattle.std.specs.Prelude.{◌≡◌, ◌+◌, ◌<◌, ◌≤◌, ◌∷◌, ◌++◌, length};
ghost use Rattle.coding_theory.specs.Algebra.{plain};
ghost use Rattle.coding_theory.specs.Register.{checks as checks_of, extended, fed, generator as generator_of};
ghost use Rattle.reed_solomon.specs.Encoding.{Encoded};

use crate::field::Field;
use crate::polynomial::add_scaled;

// One root more for the polynomial whose coefficients behind the first, a 1, are `tail`: it is multiplied by x + a and divided by x.
fn extend<F: Field>(tail: &mut [u8], a: u8)
    ensures { 1 ∷ tail.new ≡ extended (plain F.ops) a (1 ∷ tail.old) }
{
    let mut before = 1;
    for coefficient in tail.iter_mut() {
        let old = *coefficient;
        *coefficient = F::sum(old, F::product(a, before));
        before = old;
    }
}

// The polynomial with the roots alpha^first, alpha^(first+1), ..: the coefficients behind the first, a 1, as many as there are roots.
fn generator<F: Field, const N: usize>(first: u64) -> [u8; N]
    ensures { 1 ∷ result ≡ generator_of (plain F.ops) (λ k. F.ops.pow (first + k)) N N }
{
    let mut tail = [0u8; N];
    let mut x = F::power(first);
    for _k in 0..N {
        extend::<F>(&mut tail, x);
        x = F::product(F::ALPHA, x);
    }
    tail
}

// A division by the polynomial whose coefficients behind the first, a 1, are `tail`.
#[derive(Drop)]
struct Division<const N: usize> {
    tail: [u8; N],
    register: [u8; N],
}

impl<const N: usize> Division<N> {
    // One symbol into the register. N ≤ 256 since an array that is lent to be written owes a bound, and a const parameter carries none.
    fn feed<F: Field>(&mut self, symbol: u8)
        requires some { 0 < N }
        requires few { N ≤ 256 }
        ensures tail { self.new.tail ≡ self.old.tail }
        ensures register { self.new.register ≡ fed (plain F.ops) self.old.tail self.old.register symbol }
    {
        let factor = F::sum(symbol, self.register[0]);
        self.register[0] = 0;
        self.register.rotate_left(1);
        add_scaled::<F>(&mut self.register, factor, &self.tail);
    }
}

// The check symbols of a message.
fn check<F: Field, const N: usize>(message: &[u8], first: u64) -> [u8; N]
    requires some { 0 < N }
    requires few { N ≤ 256 }
    ensures { result ≡ checks_of (plain F.ops) (λ k. F.ops.pow (first + k)) N message.now }
{
    let mut division = Division {
        tail: generator::<F, N>(first),
        register: [0u8; N],
    };
    for symbol in message {
        division.feed::<F>(*symbol);
    }
    division.register
}

// The message and behind it its check symbols.
pub(crate) fn join(word: &mut [u8], message: &[u8], checks: &[u8])
    requires { length word.old ≡ length message.now + length checks.now }
    ensures { word.new ≡ message.now ++ checks.now }
{
    let n = message.len();
    word[0..n].copy_from_slice(message);
    word[n..].copy_from_slice(checks);
}

// The word of 204 bytes that begins with the message; over a field that has not 256 elements the check bytes are 0.
pub fn encode<F: Field>(message: &[u8; 188]) -> [u8; 204]
    ensures { Encoded F.ops message.now result }
{
    let checks = if F::SIZE == 256 {
        check::<F, 16>(message, 0)
    } else {
        [0u8; 16]
    };
    let mut word = [0u8; 204];
    join(&mut word, message, &checks);
    word
}
