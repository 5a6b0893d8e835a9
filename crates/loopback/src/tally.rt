// What became of the packets of a stream. Each number stops at the largest that fits.
ghost use Rattle.std.specs.Prelude.{◌≡◌, nat_lt, if◌then◌else◌};
ghost use Rattle.transport.specs.Outcomes.{more, nothing, with_packet, zero_count};

use std::fmt;
use std::num::Saturating;
use transport::Outcomes;

#[derive(Clone, Copy, Debug, PartialEq, Eq, Default)]
pub struct Tally {
    pub loaded: Saturating<u64>,
    // up to the stream's last symbol
    pub outcomes: Outcomes,
    // packets whose outcome came only after that
    pub under_way: Saturating<u64>,
    // collected packets that are not the loaded ones
    pub different: Saturating<u64>,
}

impl Tally {
    pub fn new() -> Tally
        ensures { result ≡ record { loaded = zero_count; outcomes = nothing; under_way = zero_count; different = zero_count } }
    {
        Tally::default()
    }

    // A packet was collected, in whose word so many bytes were corrected; `same` says whether it is the loaded one.
    pub fn add_packet(&mut self, frame: u32, count: u8, same: bool)
        ensures { self.new ≡ record self.old { outcomes = with_packet frame count self.old.outcomes; different = (if same then self.old.different else more 1 self.old.different) } }
    {
        self.outcomes.add_packet(frame, count);
        if !same {
            self.different += 1;
        }
    }

    // An outcome after the stream's end: that of a loaded packet was under way.
    pub fn add_late(&mut self, frame: u32)
        ensures { self.new ≡ (if nat_lt frame self.old.loaded.0 then record self.old { under_way = more 1 self.old.under_way } else self.old) }
    {
        if u64::from(frame) < self.loaded.0 {
            self.under_way += 1;
        }
    }
}

// The columns of the page.
impl fmt::Display for Tally {
    fn fmt<W: fmt::Write>(&self, f: &mut fmt::Formatter<W>) -> fmt::Result {
        let Outcomes {
            packets,
            corrected,
            code_faults,
            sync_faults,
            group_faults,
            first,
        } = self.outcomes;
        write!(f, "{:>6} {packets:>9} {corrected:>8}", self.loaded)?;
        write!(
            f,
            " {code_faults:>7} {sync_faults:>7} {group_faults:>7} {:>9}",
            self.under_way
        )?;
        match first {
            Some(frame) => write!(f, " {frame:>5}")?,
            None => write!(f, " {:>5}", "none")?,
        }
        match self.different.0 {
            0 => write!(f, " same"),
            _ => write!(f, " DIFFERENT"),
        }
    }
}
