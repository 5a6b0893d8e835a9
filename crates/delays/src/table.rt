// The table of delay schemes.
use crate::probe::leaves_at;
use crate::tally::{PLACES, Tally, lag_of, there_and_back};
use delay_line::{BoardDelay, Interleaving, Scheme, Stack};

pub fn print_heading(rt: &impl Print) -> anyhow::Result<()> {
    println!(rt; "40 frames of numbered bytes there and back")?;
    println!(rt; "")?;
    println!(rt;
        "{:<40} {:>4} {:>7} {:>7} {:>7} {:>7} {:>7} {:>7}",
        "scheme", "lag", "slot 0", "slot 1", "slot 11", "slot 12", "back", "wrong"
    )?;
    Ok(())
}

fn print_place<S: Scheme>(rt: &impl Print, scheme: &S, slot: usize) -> anyhow::Result<()> {
    let mut room = [0u8; PLACES];
    match leaves_at(scheme, slot, &mut room) {
        Some(place) => print!(rt; " {place:>7}")?,
        None => print!(rt; "       -")?,
    }
    Ok(())
}

// A scheme's lag, the places at which slots 0, 1, 11 and 12 of frame 0 leave, and the bytes back in place and wrong.
pub fn print_row<S: Scheme>(rt: &impl Print, name: &str, scheme: &S) -> anyhow::Result<()> {
    let lag = lag_of(scheme);
    print!(rt; "{name:<40} {lag:>4}")?;
    for slot in [0, 1, 11, 12] {
        print_place(rt, scheme, slot)?;
    }
    let Tally { back, wrong } = there_and_back(scheme);
    println!(rt; " {back:>7} {wrong:>7}")?;
    Ok(())
}

pub fn print_boards(rt: &impl Print) -> anyhow::Result<()> {
    for (name, places) in [("board 0", 0), ("board 1", 1), ("board 203", 203)] {
        print_row(rt, name, &BoardDelay::try_from(places)?)?;
    }
    Ok(())
}

pub fn print_stacks(rt: &impl Print) -> anyhow::Result<()> {
    let one = BoardDelay::try_from(1)?;
    let most = BoardDelay::try_from(203)?;
    print_row(
        rt,
        "board 1 over interleaver",
        &Stack::new(one, Interleaving),
    )?;
    print_row(
        rt,
        "interleaver over board 1",
        &Stack::new(Interleaving, one),
    )?;
    let below = Stack::new(Interleaving, most);
    print_row(
        rt,
        "board 1 over interleaver over board 203",
        &Stack::new(one, below),
    )
}

pub fn print_refusal(rt: &impl Print, places: u32) -> anyhow::Result<()> {
    match BoardDelay::try_from(places) {
        Ok(_) => println!(rt; "board {places} accepted")?,
        Err(refusal) => {
            let number = refusal.number();
            println!(rt; "board {places} refused {number}")?
        }
    }
    Ok(())
}
