// Reads symbols, a byte each, from standard input, and writes the transport packets that they carry to standard output: 64-QAM, or as many
// bits to a symbol as the argument says, over the interleaver. The account goes to standard error.
#![tactic(auto)]

mod account;

use crate::account::Account;
use anyhow::anyhow;
use delay_line::{DelayLine, Interleaving, Scheme};
use link::Receiver;
use link_theory::{CollectRefusal, TakeRefusal};
use std::env;
use std::io::{BufWriter, Read, Stdout, Write};
use transport::{PACKET, mapping_asked};

// Packets are written in parts of at least this many bytes.
const PART: usize = 65536;

// A run over one stream: the receiver, where its packets go, and the account so far.
#[derive(Drop)]
struct Reception<'a, D: DelayLine> {
    rt: &'a HostRuntime,
    receiver: Receiver<D>,
    out: BufWriter<Stdout>,
    account: Account,
}

impl<D: DelayLine> Reception<'_, D> {
    // Collects the outcome that waits: a packet is written, a fault is counted.
    fn collect(&mut self) -> anyhow::Result<()> {
        let mut packet = [0u8; PACKET];
        match self.receiver.collect(&mut packet) {
            Ok((frame, count)) => {
                self.account.outcomes.add_packet(frame, count);
                self.out.write_all(&packet)?;
            }
            Err(CollectRefusal::Fault { frame: _, fault }) => {
                self.account.outcomes.add_fault(fault)
            }
            Err(CollectRefusal::Length | CollectRefusal::NothingWaits) => {}
        }
        Ok(())
    }

    // Counts a refusal; the first is told, with the place of its byte from 1.
    fn refuse(&mut self, refusal: TakeRefusal) -> anyhow::Result<()> {
        self.account.refused += 1;
        if self.account.refused.0 == 1 {
            eprintln!(self.rt;
                "symbol {}: refused {}: {refusal}",
                self.account.symbols,
                refusal.number()
            )?;
        }
        Ok(())
    }

    fn take_all(&mut self, symbols: &[u8]) -> anyhow::Result<()> {
        for symbol in symbols {
            self.account.symbols += 1;
            match self.receiver.take(*symbol) {
                Ok(true) => self.collect()?,
                Ok(false) => {}
                Err(refusal) => self.refuse(refusal)?,
            }
            if self.out.buffer().len() >= PART {
                self.out.flush()?;
            }
        }
        self.out.flush()?;
        Ok(())
    }
}

// `send` begins alike: `transport` takes the argument and not the runtime, so that a contract and a test can speak of it.
fn run(rt: &HostRuntime) -> anyhow::Result<()> {
    let argument = env::args(rt)?.nth(1);
    let mapping = mapping_asked(argument.as_deref()).map_err(|refusal| anyhow!(
        "refused {}: {refusal}",
        refusal.number()
    ))?;
    let mut symbols = Vec::new(rt.alloc());
    rt.stdin().read_to_end(&mut symbols)?;
    let mut reception = Reception {
        rt,
        receiver: Receiver::new(mapping, Interleaving.receiving()),
        // with room for the packet that completes a part, so that it is written where it is flushed, and nowhere else
        out: BufWriter::with_capacity(rt.alloc(), PART + 2 * PACKET, rt.stdout())?,
        account: Account::new(),
    };
    let received = reception.take_all(&symbols);
    let Reception { out, account, .. } = reception;
    // what an error leaves in the buffer is not written
    let _unwritten = out.into_parts();
    received?;
    eprintln!(rt; "{account}")?;
    Ok(())
}

fn main(rt: HostRuntime) -> anyhow::Result<()> {
    run(&rt)
}
