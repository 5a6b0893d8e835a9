// Reads transport packets of 188 bytes from standard input, and writes their symbols, a byte each, to standard output: 64-QAM, or as many
// bits to a symbol as the argument says, over the interleaver. The account goes to standard error.
#![tactic(auto)]

use anyhow::anyhow;
use delay_line::{DelayLine, Interleaving, Scheme};
use link::Sender;
use std::io::{BufWriter, Read, Stdout, Write};
use std::num::Saturating;
use std::{env, fmt};
use transport::{PACKET, mapping_asked};

// Symbols are written in parts of at least this many, each after a whole packet.
const PART: usize = 65536;

// No packet gives as many symbols as this, so the buffer is written where it is flushed, and nowhere else.
const ROOM: usize = 512;

#[derive(Clone, Copy, Debug, PartialEq, Eq, Default)]
struct Account {
    packets: Saturating<u64>,
    refused: Saturating<u64>,
    symbols: Saturating<u64>,
}

impl fmt::Display for Account {
    fn fmt<W: fmt::Write>(&self, f: &mut fmt::Formatter<W>) -> fmt::Result {
        writeln!(f, "packets {}", self.packets)?;
        writeln!(f, "refused {}", self.refused)?;
        write!(f, "symbols {}", self.symbols)
    }
}

// A run over one stream: the sender, where its symbols go, and the account so far.
#[derive(Drop)]
struct Transmission<'a, D: DelayLine> {
    rt: &'a HostRuntime,
    sender: Sender<D>,
    out: BufWriter<Stdout>,
    account: Account,
}

impl<D: DelayLine> Transmission<'_, D> {
    // Draws and writes the symbols of at most so many bits.
    fn draw(&mut self, bits: u32) -> anyhow::Result<()> {
        let sender = &mut self.sender;
        let symbols: Vec<u8> = (0..bits)
            .map_while(|_| sender.draw().ok())
            .collect(self.rt.alloc())?;
        self.account.symbols += symbols.len() as u64;
        self.out.write_all(&symbols)?;
        Ok(())
    }

    fn send(&mut self, packet: &[u8]) -> anyhow::Result<()> {
        self.account.packets += 1;
        match self.sender.load(packet) {
            Ok(bits) => self.draw(bits)?,
            Err(refusal) => {
                self.account.refused += 1;
                eprintln!(self.rt;
                    "packet {}: refused {}: {refusal}",
                    self.account.packets,
                    refusal.number()
                )?;
            }
        }
        Ok(())
    }

    fn send_all(&mut self, stream: &[u8]) -> anyhow::Result<()> {
        for packet in stream.chunks_exact(PACKET) {
            self.send(packet)?;
            if self.out.buffer().len() >= PART {
                self.out.flush()?;
            }
        }
        self.out.flush()?;
        Ok(())
    }
}

// `receive` begins alike: `transport` takes the argument and not the runtime, so that a contract and a test can speak of it.
fn run(rt: &HostRuntime) -> anyhow::Result<()> {
    let argument = env::args(rt)?.nth(1);
    let mapping = mapping_asked(argument.as_deref()).map_err(|refusal| anyhow!(
        "refused {}: {refusal}",
        refusal.number()
    ))?;
    let mut stream = Vec::new(rt.alloc());
    rt.stdin().read_to_end(&mut stream)?;
    let mut transmission = Transmission {
        rt,
        sender: Sender::new(mapping, Interleaving.sending()),
        out: BufWriter::with_capacity(rt.alloc(), PART + ROOM, rt.stdout())?,
        account: Account::default(),
    };
    let sent = transmission.send_all(&stream);
    let Transmission { out, account, .. } = transmission;
    // what an error leaves in the buffer is not written
    let _unwritten = out.into_parts();
    sent?;
    eprintln!(rt; "{account}")?;
    let left = stream.len() % PACKET;
    if left > 0 {
        eprintln!(rt; "{left} bytes at the end are no whole packet and were not sent")?;
    }
    Ok(())
}

fn main(rt: HostRuntime) -> anyhow::Result<()> {
    run(&rt)
}
