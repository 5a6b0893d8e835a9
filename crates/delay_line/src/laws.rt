// The laws of delay lines over whole runs.
ghost use Rattle.std.specs.Prelude.{◌≡◌, ℕ, ◌+◌, ◌-◌, ◌*◌, ◌%◌};
ghost use Rattle.delay_line.specs.Laws.{CascadeIsOne, FromFresh, ReceivingDelays, RoundTrip};
ghost use Rattle.delay_line.specs.Line.{series, silent};
ghost use Rattle.delay_line.specs.contracts.scheme.BoardDelayScheme.TheImpl.{ghosts as board};
ghost use Rattle.delay_line.specs.contracts.scheme.InterleavingScheme.TheImpl.{ghosts as interleaving};
ghost use Rattle.delay_line.specs.contracts.scheme.NoDelayScheme.TheImpl.{ghosts as none};
ghost use Rattle.delay_line.specs.declared.board.BoardDelay.{BoardDelay};
ghost use Rattle.delay_line.specs.declared.scheme.Interleaving.{Interleaving};
ghost use Rattle.delay_line.specs.declared.scheme.NoDelay.{NoDelay};

use crate::scheme::Scheme;
use crate::stack::Stack;

// What a fresh half answers, in closed form.
pub fn fresh_runs_are_known()
    ensures { FromFresh }
{}

// A cascade is one delay line.
pub fn cascades_are_one()
    ensures { CascadeIsOne }
{}

// Each number comes back a lag later, from any frame boundary on.
pub fn round_trips_return()
    ensures trip { RoundTrip }
    ensures delays { ReceivingDelays }
{}

// The delays of each scheme that is no stack, and its lag.
pub fn schemes_have_their_delays()
    ensures straight { (s : NoDelay) → (none.sends s ≡ silent) × (none.receives s ≡ silent) × (none.spans s ≡ 0) }
    ensures alike { (s : BoardDelay) → (board.sends s ≡ (λ (k : ℕ). s.places)) × (board.receives s ≡ (λ (k : ℕ). 204 - s.places)) × (board.spans s ≡ 1) }
    ensures twelve { (s : Interleaving) → (interleaving.sends s ≡ (λ (k : ℕ). 204 * (k % 12))) × (interleaving.receives s ≡ (λ (k : ℕ). 204 * (11 - k % 12))) × (interleaving.spans s ≡ 11) }
{}

// The delays of a stack, and its lag: the upper delays first in sending, the lower first in receiving.
pub fn stacks_have_their_delays<A: Scheme, B: Scheme>(stack: &Stack<A, B>)
    ensures sends { ⟦<Stack<A, B> as Scheme>⟧.sends stack.now ≡ series (A.Scheme.sends stack.now.upper) (B.Scheme.sends stack.now.lower) }
    ensures receives { ⟦<Stack<A, B> as Scheme>⟧.receives stack.now ≡ series (B.Scheme.receives stack.now.lower) (A.Scheme.receives stack.now.upper) }
    ensures spans { ⟦<Stack<A, B> as Scheme>⟧.spans stack.now ≡ A.Scheme.spans stack.now.upper + B.Scheme.spans stack.now.lower }
{}
