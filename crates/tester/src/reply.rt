// What is answered to a command.
ghost use Rattle.tester.specs.Replies.{Answers, kind_of, lifted, number_of};
ghost use Rattle.std.specs.Prelude.{◌≡◌};

use crate::command::{Command, Verb};
use crate::digits::decode;
use reed_solomon::{BYTE_CODE, CodeRefusal, Table256, correct_bytes, encode_bytes, is_code_word};
use std::fmt;
use thiserror::Error;

#[derive(Clone, Copy, Debug, PartialEq, Eq)]
pub enum Reply {
    // the word of the packet
    Word([u8; 204]),
    // the word is a code word, or is none
    Right,
    Wrong,
    // the code word, and how many bytes differed
    Corrected(u8, [u8; 204]),
}

// Why a command is refused. The discriminants are the refusals' numbers.
#[derive(Clone, Copy, Debug, PartialEq, Eq, Error)]
pub enum Refusal {
    #[error("a packet has 188 bytes")]
    PacketLength = 3,
    #[error("no code word is within eight bytes")]
    NoCodeWord = 11,
    #[error("a word has 204 bytes")]
    WordLength = 14,
}

// What the account counts.
#[derive(Clone, Copy, Debug, PartialEq, Eq)]
pub enum Kind {
    Coded,
    Right,
    Wrong,
    // how many bytes were corrected
    Corrected(u8),
    // refused for its length
    Refused,
    // refused since no code word is near
    Lost,
    Unreadable,
}

// Bytes as lower-case hex digits.
#[derive(Clone, Copy, Debug, PartialEq, Eq)]
struct Hex<'a>(&'a [u8]);

impl fmt::Display for Hex<'_> {
    fn fmt<W: fmt::Write>(&self, f: &mut fmt::Formatter<W>) -> fmt::Result {
        for b in self.0 {
            write!(f, "{b:02x}")?;
        }
        Ok(())
    }
}

impl fmt::Display for Reply {
    fn fmt<W: fmt::Write>(&self, f: &mut fmt::Formatter<W>) -> fmt::Result {
        match self {
            Reply::Word(word) => write!(f, "word {}", Hex(word)),
            Reply::Right => write!(f, "right"),
            Reply::Wrong => write!(f, "wrong"),
            Reply::Corrected(count, word) => write!(f, "corrected {count} {}", Hex(word)),
        }
    }
}

impl Refusal {
    pub fn number(&self) -> u32
        ensures { result ≡ number_of self.now }
    {
        // a cast needs the enum's own type, so each enum of refusals casts itself
        *self as u32
    }
}

impl From<CodeRefusal> for Refusal {
    ghost from_gives = { λ x y. y ≡ lifted x };

    fn from(value: CodeRefusal) -> Refusal {
        match value {
            CodeRefusal::Length => Refusal::WordLength,
            CodeRefusal::Fault(_) => Refusal::NoCodeWord,
        }
    }
}

impl From<Result<Reply, Refusal>> for Kind {
    ghost from_gives = { λ x y. y ≡ kind_of x };

    fn from(value: Result<Reply, Refusal>) -> Kind {
        match value {
            Ok(Reply::Word(_)) => Kind::Coded,
            Ok(Reply::Right) => Kind::Right,
            Ok(Reply::Wrong) => Kind::Wrong,
            Ok(Reply::Corrected(count, _)) => Kind::Corrected(count),
            Err(Refusal::NoCodeWord) => Kind::Lost,
            Err(Refusal::PacketLength | Refusal::WordLength) => Kind::Refused,
        }
    }
}

fn code(digits: &[u8]) -> Result<Reply, Refusal>
    ensures { Answers Verb.Code digits.now result }
{
    let packet = decode(digits).ok_or(Refusal::PacketLength)?;
    Ok(Reply::Word(encode_bytes(&packet)))
}

fn check(digits: &[u8]) -> Result<Reply, Refusal>
    ensures { Answers Verb.Check digits.now result }
{
    let word: [u8; 204] = decode(digits).ok_or(Refusal::WordLength)?;
    if is_code_word::<Table256>(BYTE_CODE, &word) {
        Ok(Reply::Right)
    } else {
        Ok(Reply::Wrong)
    }
}

fn correct(digits: &[u8]) -> Result<Reply, Refusal>
    ensures { Answers Verb.Correct digits.now result }
{
    let mut word: [u8; 204] = decode(digits).ok_or(Refusal::WordLength)?;
    let count = correct_bytes(&mut word)?;
    Ok(Reply::Corrected(count, word))
}

// The reply to a command.
pub fn answer(command: Command<'_>) -> Result<Reply, Refusal>
    ensures { Answers command.entry.verb command.entry.digits.now result }
{
    match command.verb {
        Verb::Code => code(command.digits),
        Verb::Check => check(command.digits),
        Verb::Correct => correct(command.digits),
    }
}
