// Sends numbered bytes through delay schemes and back, and prints what became of them; then compares the interleaver with recorded frames.
#![tactic(auto)]

mod packets;
mod probe;
mod table;
mod tally;

use crate::packets::print_recorded;
use crate::table::{print_boards, print_heading, print_refusal, print_row, print_stacks};
use delay_line::{Interleaving, NoDelay};

fn run(rt: &HostRuntime) -> anyhow::Result<()> {
    print_heading(rt)?;
    print_row(rt, "straight", &NoDelay)?;
    print_row(rt, "interleaver", &Interleaving)?;
    print_boards(rt)?;
    print_stacks(rt)?;
    println!(rt; "")?;
    print_refusal(rt, 203)?;
    print_refusal(rt, 204)?;
    print_recorded(rt)
}

fn main(rt: HostRuntime) -> anyhow::Result<()> {
    run(&rt)
}
