// A stream from a sender over a channel to a receiver.
use crate::damage::{Channel, Damage};
use crate::tally::Tally;
use anyhow::anyhow;
use delay_line::{DelayLine, Scheme};
use link::Link;
use link_theory::{CollectRefusal, LinkFault};
use symbols::Mapping;
use transport::PACKET;

// Null packets that follow the stream: more than any lag used here.
const AFTER: u32 = 16;

const NULL_HEADER: [u8; 4] = [0x47, 0x1F, 0xFF, 0x10];

// What became of a word: a packet, and how many bytes of the word were corrected, or its fault.
type Collected<'a> = Result<(&'a [u8], u8), LinkFault>;

// Whether this is the packet that was loaded with a frame number.
fn is_loaded(packet: &[u8], stream: &[u8], frame: u32) -> bool {
    stream.chunks_exact(PACKET).nth(frame as usize) == Some(packet)
}

// A link, and the channel between its ends.
#[derive(Drop)]
struct Path<A: DelayLine, B: DelayLine> {
    link: Link<A, B>,
    channel: Channel,
}

impl<A: DelayLine, B: DelayLine> Path<A, B> {
    // Brings the next symbol over, if there is one, and tells whether an outcome waits.
    fn step(&mut self) -> anyhow::Result<Option<bool>> {
        let Ok(symbol) = self.link.draw() else {
            return Ok(None);
        };
        self.link
            .take(self.channel.pass(symbol))
            .map(Some)
            .map_err(|_| anyhow!("a symbol was refused"))
    }

    // Hands the outcome that waits to `note`, with the frame number of its word.
    fn collect<F: FnMut(u32, Collected<'_>)>(&mut self, note: &mut F) -> anyhow::Result<()>
        requires { (state : F) (frame : _) (outcome : _) → F.pre state frame outcome }
    {
        let mut packet = [0u8; PACKET];
        match self.link.collect(&mut packet) {
            Ok((frame, count)) => note(frame, Ok((&packet, count))),
            Err(CollectRefusal::Fault { frame, fault }) => note(frame, Err(fault)),
            Err(CollectRefusal::Length | CollectRefusal::NothingWaits) => {
                return Err(anyhow!("nothing waits to be collected"));
            }
        }
        Ok(())
    }

    // Sends a packet, and hands each outcome that comes meanwhile to `note`.
    fn send<F: FnMut(u32, Collected<'_>)>(
        &mut self,
        packet: &[u8],
        mut note: F,
    ) -> anyhow::Result<()>
        requires { (state : F) (frame : _) (outcome : _) → F.pre state frame outcome }
    {
        let bits = self
            .link
            .load(packet)
            .map_err(|_| anyhow!("a packet was refused"))?;
        for _ in 0..bits {
            match self.step()? {
                Some(true) => self.collect(&mut note)?,
                Some(false) => {}
                None => break,
            }
        }
        Ok(())
    }

    fn send_all(&mut self, stream: &[u8], tally: &mut Tally) -> anyhow::Result<()> {
        for packet in stream.chunks_exact(PACKET) {
            tally.loaded += 1;
            self.send(packet, |frame, outcome| match outcome {
                Ok((packet, count)) => {
                    tally.add_packet(frame, count, is_loaded(packet, stream, frame))
                }
                Err(fault) => tally.outcomes.add_fault(fault),
            })?;
        }
        Ok(())
    }

    // Sends null packets after the stream, so that what is under way arrives.
    fn push_all(&mut self, tally: &mut Tally) -> anyhow::Result<()> {
        let mut null = [0u8; PACKET];
        null[..4].copy_from_slice(&NULL_HEADER);
        for _ in 0..AFTER {
            self.send(&null, |frame, _| tally.add_late(frame))?;
        }
        Ok(())
    }
}

// Sends a stream over a delay scheme and a damaged channel, from fresh ends.
pub fn loop_back<S: Scheme>(
    scheme: &S,
    mapping: Mapping,
    damage: Damage,
    stream: &[u8],
) -> anyhow::Result<Tally> {
    let mut path = Path {
        link: Link::new(mapping, scheme.sending(), scheme.receiving()),
        channel: Channel::new(mapping, damage),
    };
    let mut tally = Tally::new();
    path.send_all(stream, &mut tally)?;
    path.push_all(&mut tally)?;
    Ok(tally)
}
