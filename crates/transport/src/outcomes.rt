// What became of the words of a stream. Each number stops at the largest that fits.
ghost use Rattle.std.specs.Prelude.{◌≡◌};
ghost use Rattle.transport.specs.Outcomes.{nothing, with_fault, with_packet};
ghost use Rattle.link_theory.specs.Refusals.{link_number};

use link_theory::LinkFault;
use std::num::Saturating;

#[derive(Clone, Copy, Debug, PartialEq, Eq, Default)]
pub struct Outcomes {
    pub packets: Saturating<u64>,
    // bytes of the packets' words that were corrected
    pub corrected: Saturating<u64>,
    // words that gave no packet, by what found their fault: the corrector, the word reader, the group
    pub code_faults: Saturating<u64>,
    pub sync_faults: Saturating<u64>,
    pub group_faults: Saturating<u64>,
    // the frame number of the first packet
    pub first: Option<u32>,
}

impl Outcomes {
    pub fn new() -> Outcomes
        ensures { result ≡ nothing }
    {
        Outcomes::default()
    }

    // A packet, in whose word so many bytes were corrected.
    pub fn add_packet(&mut self, frame: u32, count: u8)
        ensures { self.new ≡ with_packet frame count self.old }
    {
        self.packets += 1;
        self.corrected += u64::from(count);
        self.first = self.first.or(Some(frame));
    }

    // A word that gave no packet, by this fault. By number and not by case: a fault of the corrector is a record of numbers, a rule of the
    // project, and the promise counts by its number.
    pub fn add_fault(&mut self, fault: LinkFault)
        ensures { self.new ≡ with_fault (link_number fault) self.old }
    {
        match fault.number() {
            11 => self.code_faults += 1,
            12 => self.sync_faults += 1,
            13 => self.group_faults += 1,
            _ => {}
        }
    }
}
