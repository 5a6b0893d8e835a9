// One line: a verb, a space and hex digits.
ghost use Rattle.std.specs.Prelude.{◌≡◌, ◌≢◌, length, position, Ok, Err, MatchResult};
ghost use Rattle.tester.specs.Commands.{Flawed, Reads, digits_in, is_space, name_in, name_of, space_at};
ghost use Rattle.tester.specs.declared.command.Flaw.TheVariants.{UnknownVerb};
ghost use Rattle.tester.specs.declared.command.Verb.{Verb};

use crate::digits::first_bad_digit;
use thiserror::Error;

// What is asked for.
#[derive(Clone, Copy, Debug, PartialEq, Eq)]
pub enum Verb {
    // code a packet as it is
    Code,
    // tell whether a word is a code word
    Check,
    // correct a word
    Correct,
}

// Why a line is no command.
#[derive(Clone, Copy, Debug, PartialEq, Eq, Error)]
pub enum Flaw {
    #[error("empty line")]
    Empty,
    #[error("unknown verb")]
    UnknownVerb,
    // the column, from 1, of the first character that should be a digit and is none
    #[error("not a hex digit at column {0}")]
    NotADigit(usize),
    #[error("odd number of digits")]
    OddDigits,
}

// A verb and the digits behind it.
#[derive(Clone, Copy, Debug, PartialEq, Eq)]
pub struct Command<'a> {
    pub verb: Verb,
    pub digits: &'a [u8],
}

impl<'a> TryFrom<&'a [u8]> for Verb {
    type Error = Flaw;

    ghost try_from_gives = { λ name verb. MatchResult verb (λ v. name.now ≡ name_of v) (λ flaw. (flaw ≡ UnknownVerb) × ((v : Verb) → name.now ≢ name_of v)) };

    fn try_from(name: &'a [u8]) -> Result<Verb, Flaw> {
        match name {
            b"code" => Ok(Verb::Code),
            b"check" => Ok(Verb::Check),
            b"correct" => Ok(Verb::Correct),
            _ => Err(Flaw::UnknownVerb),
        }
    }
}

fn first_space(line: &[u8]) -> Option<usize>
    ensures { result ≡ position is_space line.now }
{
    line.iter().position(|c| *c == b' ')
}

// What stands before the first space, and what stands behind it.
fn parts(line: &[u8]) -> (&[u8], &[u8])
    ensures name { result.0.now ≡ name_in line.now }
    ensures digits { result.1.now ≡ digits_in line.now }
    ensures space { length result.0.now ≡ space_at line.now }
{
    match first_space(line) {
        Some(space) => (&line[..space], &line[space + 1..]),
        None => (line, &[]),
    }
}

// The command on a line, or why there is none.
pub fn read_command(line: &[u8]) -> Result<Command<'_>, Flaw>
    ensures { elim result [ Ok c ↦ Reads line.now c.verb c.digits.now | Err f ↦ Flawed line.now f ] }
{
    if line.is_empty() {
        return Err(Flaw::Empty);
    }
    let (name, digits) = parts(line);
    let verb = Verb::try_from(name)?;
    if let Some(k) = first_bad_digit(digits) {
        return Err(Flaw::NotADigit(name.len() + 2 + k));
    }
    if digits.len() % 2 != 0 {
        return Err(Flaw::OddDigits);
    }
    Ok(Command { verb, digits })
}
