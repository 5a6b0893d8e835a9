// One delay scheme over another.
ghost use Rattle.std.specs.Prelude.{◌≡◌, ◌+◌};
ghost use Rattle.delay_line.specs.Line.{series};
ghost use Rattle.delay_line.specs.InSeries.{series_delays, series_undoes};

use crate::cascade::Cascade;
use crate::scheme::Scheme;

// A byte sent passes the upper scheme first, a byte received the lower.
#[derive(Drop)]
pub struct Stack<A: Scheme, B: Scheme> {
    upper: A,
    lower: B,
}

impl<A: Scheme, B: Scheme> Stack<A, B> {
    pub fn new(upper: A, lower: B) -> Stack<A, B>
        ensures { (result.upper ≡ upper) × (result.lower ≡ lower) }
    {
        Stack { upper, lower }
    }
}

impl<A: Scheme, B: Scheme> Scheme for Stack<A, B> {
    type Sending = Cascade<A::Sending, B::Sending>;

    type Receiving = Cascade<B::Receiving, A::Receiving>;

    ghost sends = { λ s. series (A.Scheme.sends s.upper) (B.Scheme.sends s.lower) };

    ghost receives = { λ s. series (B.Scheme.receives s.lower) (A.Scheme.receives s.upper) };

    ghost spans = { λ s. A.Scheme.spans s.upper + B.Scheme.spans s.lower };

    ghost delays = { λ s. series_delays _ _ _ _ (A.Scheme.delays s.upper) (B.Scheme.delays s.lower) };

    ghost undoes = { λ s.
        let A' = A.Scheme in
        let B' = B.Scheme in
        series_undoes (A'.sends s.upper) (B'.sends s.lower) (A'.receives s.upper) (B'.receives s.lower) _ _
        (A.Scheme.undoes s.upper) (B.Scheme.undoes s.lower) };

    fn sending(&self) -> Cascade<A::Sending, B::Sending> {
        Cascade::new(self.upper.sending(), self.lower.sending())
    }

    fn receiving(&self) -> Cascade<B::Receiving, A::Receiving> {
        Cascade::new(self.lower.receiving(), self.upper.receiving())
    }
}
