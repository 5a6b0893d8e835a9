// Reads a command a line from standard input, and writes an answer a line and an account at the end.
#![tactic(auto)]

use std::io::Read;
use std::num::Saturating;
use tester::{Account, Kind, answer, read_command};

// Answers a line, and tells what the account counts it as.
fn handle(rt: &impl Print, number: Saturating<u64>, line: &[u8]) -> anyhow::Result<Kind> {
    let command = match read_command(line) {
        Ok(command) => command,
        Err(flaw) => {
            println!(rt; "line {number}: {flaw}")?;
            return Ok(Kind::Unreadable);
        }
    };
    let reply = answer(command);
    match reply {
        Ok(reply) => println!(rt; "{reply}")?,
        Err(refusal) => println!(rt; "refused {}", refusal.number())?,
    }
    Ok(reply.into())
}

// The whole input is read before the first answer: a caller may write all of it and only then read.
fn run(rt: &HostRuntime) -> anyhow::Result<()> {
    let mut text = Vec::new(rt.alloc());
    rt.stdin().read_to_end(&mut text)?;
    let mut account = Account::new();
    let mut number = Saturating(0u64);
    for line in text.split_inclusive(|byte| *byte == b'\n') {
        number += 1;
        let line = line.strip_suffix(b"\n").unwrap_or(line);
        let line = line.strip_suffix(b"\r").unwrap_or(line);
        account.note(handle(rt, number, line)?);
    }
    println!(rt; "\n{account}")?;
    Ok(())
}

fn main(rt: HostRuntime) -> anyhow::Result<()> {
    run(&rt)
}
