// Numbered bytes there and back.
ghost use Rattle.std.specs.Prelude.{◌≡◌, ℕ, ◌+◌, ◌-◌, ◌*◌, ◌%◌, ◌<◌, ◌≤◌, min, length, slice_index};
ghost use Rattle.delays.specs.Marks.{agreeing_places};

use delay_line::{Half, Scheme, round_trip};
use std::array;

pub const PLACES: usize = 8160;

// Byte i is i mod 251 + 1, so that none is 0.
fn numbered() -> [u8; PLACES]
    ensures { (k : ℕ) → k < PLACES → slice_index result k ≡ k % 251 + 1 }
{
    array::from_fn(|k| (k % 251) as u8 + 1)
}

// In how many places the two agree, as far as both go.
pub fn agreeing<T: PartialEq>(a: &[T], b: &[T]) -> usize
    ensures count { result ≡ agreeing_places T.eq a.now b.now }
    ensures bound { result ≤ length b.now }
{
    a.iter().zip(b).filter(|(x, y)| x == y).count()
}

// The bytes that came back a lag later as they were sent, and those that did not.
#[derive(Clone, Copy, Debug, PartialEq, Eq)]
pub struct Tally {
    pub back: usize,
    pub wrong: usize,
}

// The lag of a scheme, in frames.
pub fn lag_of<S: Scheme>(scheme: &S) -> u16
    ensures { result ≡ min (S.Scheme.spans scheme.now) 4095 }
{
    let half = Half::new(scheme.sending());
    half.lag()
}

// Sends 40 frames of numbered bytes and takes them in again: all are back but those still under way, and none is wrong.
pub fn there_and_back<S: Scheme>(scheme: &S) -> Tally
    ensures back { result.back ≡ 8160 - 204 * S.Scheme.spans scheme.now }
    ensures wrong { result.wrong ≡ 0 }
{
    let sent = numbered();
    let mut taken = sent;
    round_trip(scheme, &mut taken);
    let late = (204 * lag_of(scheme) as usize).min(PLACES);
    let back = agreeing(&sent, &taken[late..]);
    Tally {
        back,
        wrong: PLACES - late - back,
    }
}
