// The interleaver compared with recorded frames: coded words, and the line bytes that another coder made of them.
ghost use Rattle.std.specs.Prelude.{◌≡◌};
ghost use Rattle.delays.specs.Marks.{agreeing_places};

use crate::tally::agreeing;
use delay_line::{Interleaving, send};
use std::fs;
use tester::decode;
use thiserror::Error;

const FRAMES: usize = 24;

type Frame = [u8; 204];

// What is wrong with a file of frames, with the number of the line from 1.
#[derive(Clone, Copy, Debug, PartialEq, Eq, Error)]
enum Flaw {
    #[error("{file}: cannot be read")]
    Unreadable { file: &'static str },
    #[error("{file} line {line}: not a frame of 408 hex digits")]
    NotAFrame { file: &'static str, line: usize },
    #[error("{file} line {line}: more than 24 frames")]
    MoreLines { file: &'static str, line: usize },
}

// The frames of a text, each from a line.
fn frames_of(file: &'static str, text: &[u8]) -> Result<[Frame; FRAMES], Flaw> {
    let mut frames = [[0u8; 204]; FRAMES];
    let mut lines = text
        .strip_suffix(b"\n")
        .unwrap_or(text)
        .split(|byte| *byte == b'\n');
    for (n, frame) in frames.iter_mut().enumerate() {
        *frame = lines
            .next()
            .and_then(|line| decode(line))
            .ok_or(Flaw::NotAFrame { file, line: n + 1 })?;
    }
    if lines.next().is_some() {
        return Err(Flaw::MoreLines {
            file,
            line: FRAMES + 1,
        });
    }
    Ok(frames)
}

// The frames of a file.
fn read_frames(rt: &HostRuntime, file: &'static str) -> Result<[Frame; FRAMES], Flaw> {
    let text = fs::read(rt, file).map_err(|_| Flaw::Unreadable { file })?;
    frames_of(file, &text)
}

// How many frames are the same in both: `agreeing` at frames, apart from it so that a clause names the equality of frames.
fn same_frames(a: &[Frame], b: &[Frame]) -> usize
    ensures { result ≡ agreeing_places ⟦<Frame as PartialEq>⟧.eq a.now b.now }
{
    agreeing(a, b)
}

// Sends the recorded words, and answers how many frames agree with the recorded line.
fn recorded_agreeing(rt: &HostRuntime) -> Result<usize, Flaw> {
    let mut sent = read_frames(rt, "words.hex")?;
    let line = read_frames(rt, "line.hex")?;
    send(&Interleaving, sent.as_flattened_mut());
    Ok(same_frames(&sent, &line))
}

pub fn print_recorded(rt: &HostRuntime) -> anyhow::Result<()> {
    match recorded_agreeing(rt) {
        Ok(same) => println!(rt; "interleaved frames {FRAMES} agreeing {same}")?,
        Err(flaw) => println!(rt; "{flaw}")?,
    }
    Ok(())
}
