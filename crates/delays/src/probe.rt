// The place at which a byte leaves, found by sending it alone.
ghost use Rattle.std.specs.Prelude.{◌≡◌, ℕ, ◌+◌, ◌%◌, ◌<◌, ◌≤◌, length, MatchOption, ◌≢◌, slice_index};
ghost use Rattle.delays.specs.Marks.{marked_at};

use delay_line::{Scheme, send};

// A one at `place`, and zeros elsewhere.
fn mark(room: &mut [u8], place: usize)
    ensures { (k : ℕ) → k < length room.old → slice_index room.new k ≡ marked_at place k }
{
    room.fill(0);
    if place < room.len() {
        room[place] = 1;
    }
}

// Where the first one stands.
fn first_one(room: &[u8]) -> Option<usize>
    ensures { MatchOption result ((k : ℕ) → k < length room.now → slice_index room.now k ≢ 1) (λ k. (k < length room.now) × (slice_index room.now k ≡ 1)) }
{
    room.iter().position(|x| *x == 1)
}

// Where the byte sent at `place` leaves, if that is within the room.
pub fn leaves_at<S: Scheme>(scheme: &S, place: usize, room: &mut [u8]) -> Option<usize>
    ensures { MatchOption result (length room.old ≤ place + S.Scheme.sends scheme.now (place % 204)) (λ p. p ≡ place + S.Scheme.sends scheme.now (place % 204)) }
{
    mark(room, place);
    send(scheme, room);
    first_one(room)
}
