// What a run came to. Each number stops at the largest that fits.
ghost use Rattle.std.specs.Prelude.{◌≡◌};
ghost use Rattle.transport.specs.Outcomes.{nothing, zero_count};

use std::fmt;
use std::num::Saturating;
use transport::Outcomes;

#[derive(Clone, Copy, Debug, PartialEq, Eq, Default)]
pub struct Account {
    // bytes read, and those of them that are no symbols
    pub symbols: Saturating<u64>,
    pub refused: Saturating<u64>,
    pub outcomes: Outcomes,
}

impl Account {
    pub fn new() -> Account
        ensures { result ≡ record { symbols = zero_count; refused = zero_count; outcomes = nothing } }
    {
        Account::default()
    }
}

impl fmt::Display for Account {
    fn fmt<W: fmt::Write>(&self, f: &mut fmt::Formatter<W>) -> fmt::Result {
        let Outcomes {
            packets,
            corrected,
            code_faults,
            sync_faults,
            group_faults,
            first,
        } = self.outcomes;
        writeln!(f, "symbols {}", self.symbols)?;
        writeln!(f, "refused {}", self.refused)?;
        writeln!(f, "packets {packets}")?;
        writeln!(f, "corrected {corrected}")?;
        writeln!(f, "fault11 {code_faults}")?;
        writeln!(f, "fault12 {sync_faults}")?;
        writeln!(f, "fault13 {group_faults}")?;
        match first {
            Some(frame) => write!(f, "first {frame}"),
            None => write!(f, "first none"),
        }
    }
}
