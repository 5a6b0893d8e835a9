// The account: how many lines of each kind there were. Each number stops at the largest that fits.
ghost use Rattle.tester.specs.Accounts.{empty, lines_of, noted};
ghost use Rattle.std.specs.Prelude.{◌≡◌};

use crate::reply::Kind;
use std::fmt;
use std::num::Saturating;

#[derive(Clone, Copy, Debug, PartialEq, Eq, Default)]
pub struct Account {
    pub coded: Saturating<u64>,
    pub right: Saturating<u64>,
    pub wrong: Saturating<u64>,
    pub refused: Saturating<u64>,
    pub unreadable: Saturating<u64>,
    pub corrected_words: Saturating<u64>,
    pub corrected_bytes: Saturating<u64>,
    // those of `refused` that no code word was near
    pub refused_words: Saturating<u64>,
}

impl Account {
    pub fn new() -> Account
        ensures { result ≡ empty }
    {
        Account::default()
    }

    // One line more.
    pub fn note(&mut self, kind: Kind)
        ensures { self.new ≡ noted kind self.old }
    {
        match kind {
            Kind::Coded => self.coded += 1,
            Kind::Right => self.right += 1,
            Kind::Wrong => self.wrong += 1,
            Kind::Corrected(count) => {
                self.corrected_words += 1;
                self.corrected_bytes += u64::from(count);
            }
            Kind::Refused => self.refused += 1,
            Kind::Lost => {
                self.refused += 1;
                self.refused_words += 1;
            }
            Kind::Unreadable => self.unreadable += 1,
        }
    }

    // All lines together.
    pub fn lines(&self) -> u128
        ensures { result ≡ lines_of self.now }
    {
        self.coded.0 as u128
            + self.right.0 as u128
            + self.wrong.0 as u128
            + self.refused.0 as u128
            + self.unreadable.0 as u128
            + self.corrected_words.0 as u128
    }
}

impl fmt::Display for Account {
    fn fmt<W: fmt::Write>(&self, f: &mut fmt::Formatter<W>) -> fmt::Result {
        writeln!(f, "lines {}", self.lines())?;
        writeln!(f, "coded {}", self.coded)?;
        writeln!(f, "right {}", self.right)?;
        writeln!(f, "wrong {}", self.wrong)?;
        writeln!(f, "refused {}", self.refused)?;
        writeln!(f, "unreadable {}", self.unreadable)?;
        writeln!(f, "corrected_words {}", self.corrected_words)?;
        writeln!(f, "corrected_bytes {}", self.corrected_bytes)?;
        write!(f, "refused_words {}", self.refused_words)
    }
}
