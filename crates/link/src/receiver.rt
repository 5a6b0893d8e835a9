// The receiver: symbols in, packets out.
ghost use Rattle.std.specs.Prelude.{◌<◌, IfSome};
ghost use Rattle.std.proofs.Props.{props};
ghost use Rattle.link.specs.Within.{WithinWord};
ghost use Rattle.symbols.specs.Models.{WithinByte};

use crate::cutter::WordCutter;
use crate::reader::PacketReader;
use delay_line::{DelayLine, Half};
use link_theory::Outcome;
use symbols::SymbolReader;

mod ops;

// Over the receiving half of any delay line. It has no `impl Model`, as a sender has none.
#[derive(Drop)]
pub struct Receiver<D: DelayLine> {
    symbols: SymbolReader,
    half: Half<D>,
    cutter: WordCutter,
    packets: PacketReader,
    waiting: Option<Outcome>,
    ghost few: { WithinByte symbols × WithinWord cutter },
    ghost known: { IfSome packets.expected (λ position. position < 8) } by { Prim.hlevel props },
}
