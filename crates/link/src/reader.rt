// Words to outcomes: each is read, and its packet restored at its position in the group of eight.
ghost use Rattle.std.specs.Prelude.{◌≡◌, ◌%◌, ◌<◌, [], ◌∷◌, take, None, IfOk, IfSome};
ghost use Rattle.framing.specs.Group.{expected_after};
ghost use Rattle.framing.specs.Mask.{restored};
ghost use Rattle.framing.specs.Mending.{mended};
ghost use Rattle.link_theory.specs.Receiver.{event_of, outcome_of, reader_after};
ghost use Rattle.link.specs.Placed.{placed_at};

use framing::{Event, Group, WordRefusal, derandomize, mend};
use link_theory::{LinkFault, Outcome};
use std::marker::Model;

// `frame` is the number of the next word.
#[derive(Drop)]
pub struct PacketReader {
    frame: u32,
    group: Group,
}

impl Model for PacketReader {
    ghost use Rattle.link_theory.specs.Receiver.{Reader};

    ghost Value = { Reader };

    ghost view = { λ r. record { frame = r.frame; expected = r.group } };
}

// What was met, by the word reader's answer and the first byte that it left.
fn event_of(answer: Result<u8, WordRefusal>, first: u8) -> Event
    ensures { result ≡ event_of (record { answer = answer; buffer = first ∷ [] }) }
{
    match answer {
        Ok(_) if first == 0xB8 => Event::GroupStart,
        Ok(_) => Event::Plain,
        Err(_) => Event::Lost,
    }
}

// The packet of a word at its position.
fn packet_of(word: &[u8; 204], position: u8) -> [u8; 188]
    ensures { result ≡ restored (position % 8) (take 188 word.now) }
{
    let mut bytes = [0u8; 188];
    bytes.copy_from_slice(&word[0..188]);
    derandomize(&mut bytes, position);
    bytes
}

impl PacketReader {
    // The first word has frame number 0, and no position is known.
    pub(crate) fn new() -> PacketReader
        ensures { result ≡ record { frame = 0; expected = None } }
    {
        PacketReader {
            frame: 0,
            group: Group::new(),
        }
    }

    // Mends a word, and answers its position and how many bytes were corrected.
    fn place(&mut self, word: &mut [u8; 204]) -> Result<(u8, u8), LinkFault>
        ensures placed { result ≡ placed_at self.old.expected (mended word.old) }
        ensures within { IfOk result (λ p. p.0 < 8) }
        ensures buffer { word.new ≡ (mended word.old).buffer }
        ensures reader { self.new ≡ record { frame = self.old.frame; expected = expected_after self.old.expected (event_of (mended word.old)) } }
        ensures known { IfSome self.new.expected (λ position. position < 8) }
    {
        let answer = mend(word);
        let position = self.group.meet(event_of(answer, word[0]));
        let count = answer?;
        let g = position.ok_or(LinkFault::Group)?;
        Ok((g, count))
    }

    // The outcome of a word.
    pub(crate) fn read(&mut self, mut word: [u8; 204]) -> Outcome
        ensures outcome { result ≡ outcome_of self.old (mended word) }
        ensures reader { self.new ≡ reader_after self.old (mended word) }
        ensures known { IfSome self.new.expected (λ position. position < 8) }
    {
        let frame = self.frame;
        self.frame = frame.wrapping_add(1);
        match self.place(&mut word) {
            Ok((position, count)) => Outcome::Packet {
                bytes: packet_of(&word, position),
                frame,
                count,
            },
            Err(fault) => Outcome::Fault { frame, fault },
        }
    }
}
