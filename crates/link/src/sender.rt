// The sender: packets in, symbols out.
ghost use Rattle.symbols.specs.Models.{WithinLine};

use delay_line::{DelayLine, Half};
use symbols::SymbolWriter;

mod ops;

// Over the sending half of any delay line. It has no `impl Model`: what a sender means has functions in it, and a model's value is data. `position` is that of the next packet in its group of eight.
#[derive(Drop)]
pub struct Sender<D: DelayLine> {
    half: Half<D>,
    position: u8,
    writer: SymbolWriter,
    ghost within: { WithinLine writer },
}
