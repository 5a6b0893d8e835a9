// Sends a transport stream through sender and receiver over each mapping, some delay lines and some damage, and prints what became of its
// packets.
#![tactic(auto)]

mod damage;
mod path;
mod table;
mod tally;

use crate::table::Table;
use std::fs;
use symbols::Mapping;

fn run(rt: &HostRuntime) -> anyhow::Result<()> {
    let stream = fs::read(rt, "stream.ts")?;
    let table = Table {
        rt,
        stream: &stream,
    };
    table.print_heading()?;
    for bits in 4..=6 {
        table.print_mapping(Mapping::try_from(bits)?)?;
    }
    Ok(())
}

fn main(rt: HostRuntime) -> anyhow::Result<()> {
    run(&rt)
}
