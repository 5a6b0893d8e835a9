// Frames of the line to symbols.
ghost use Rattle.std.specs.Prelude.{◌≡◌, ◌+◌, ◌*◌, ◌≤◌, ◌∷◌, length, take, drop, slice_index};
ghost use Rattle.symbols.specs.Bits.{number, octets};
ghost use Rattle.symbols.specs.Models.{WithinLine};
ghost use Rattle.symbols.specs.Stages.{after_append, after_draw, append_answer, drawn, fresh_outgoing};

use crate::mapping::Mapping;
use crate::refusal::AppendRefusal;
use std::marker::Model;

// Bytes of a frame.
const FRAME: usize = 204;

// Bits of a frame.
const FRAME_BITS: usize = 8 * FRAME;

// Bytes of the line.
const LINE: usize = FRAME + 1;

// Bits of the line.
const LINE_BITS: usize = 8 * LINE;

// A frame is accepted behind fewer bits than this.
const BYTE: u32 = 8;

// A frame stands in the line at bytes 1 to 204, and the last byte of the frame before it at 0. `next` is the first
// undrawn bit, and `turn` that of the last symbol. Array and place stand in fixed memory: there is no heap here.
#[derive(Drop)]
pub struct SymbolWriter {
    mapping: Mapping,
    line: [u8; LINE],
    next: usize,
    turn: u8,
}

impl Model for SymbolWriter {
    ghost use Rattle.std.specs.Prelude.{◌≡◌, ◌<◌, ◌≤◌, length};
    ghost use Rattle.symbols.specs.Models.{Writer, outgoing_of};

    ghost Value = { Writer };

    ghost view = { λ w. record { mapping = w.mapping; outgoing = outgoing_of w.line w.next w.turn } };

    ghost invariant = { λ w. (length w.line ≡ 205) × (w.next ≤ 1640) × (w.turn < 4) };
}

// Byte k of the line, and 0 behind it.
fn byte_at(line: &[u8], k: usize) -> u8
    ensures { result ≡ slice_index line.now k }
{
    line.get(k).copied().unwrap_or(0)
}

// The number that a symbol's bits write, of those of the line from bit `start` on. They stand in two bytes.
fn window(line: &[u8; LINE], start: usize, mapping: Mapping) -> u8
    requires { start + mapping.bits ≤ 1640 }
    ensures { result ≡ number (take mapping.bits (drop start (octets line.now))) }
{
    let m = mapping.bits();
    let k = start / 8;
    let behind = 16 - (start % 8) as u32 - m;
    let pair = u32::from(u16::from_be_bytes([byte_at(line, k), byte_at(line, k + 1)]));
    ((pair >> behind) % (1 << m)) as u8
}

// The line's last byte goes to its front, and a frame behind that.
fn lay(line: &mut [u8; LINE], frame: &[u8; FRAME])
    ensures { line.new ≡ slice_index line.old 204 ∷ frame.now }
{
    line[0] = line[FRAME];
    line[1..].copy_from_slice(frame);
}

impl SymbolWriter {
    pub fn new(mapping: Mapping) -> SymbolWriter
        ensures { result ≡ record { mapping = mapping; outgoing = fresh_outgoing } }
    {
        SymbolWriter {
            mapping,
            line: [0; LINE],
            next: LINE_BITS,
            turn: 0,
        }
    }

    pub fn mapping(&self) -> Mapping
        ensures { result ≡ self.now.mapping }
    {
        self.mapping
    }

    // How many bits are still to be drawn: never more than the line has.
    pub fn undrawn_bits(&self) -> u32
        ensures value { result ≡ length self.now.outgoing.undrawn }
        ensures within { WithinLine self.now }
    {
        (LINE_BITS - self.next) as u32
    }

    // Puts a frame of 204 bytes behind the undrawn bits, where these are fewer than eight.
    pub fn append(&mut self, frame: &[u8]) -> Result<(), AppendRefusal>
        ensures answer { result ≡ append_answer frame.now self.old.outgoing }
        ensures writer { self.new ≡ record self.old { outgoing = after_append frame.now self.old.outgoing } }
    {
        let Ok(frame) = <&[u8; FRAME]>::try_from(frame) else {
            return Err(AppendRefusal::Length);
        };
        if self.undrawn_bits() >= BYTE {
            return Err(AppendRefusal::Undrawn);
        }
        lay(&mut self.line, frame);
        self.next -= FRAME_BITS;
        Ok(())
    }

    // The next symbol, where enough bits are undrawn.
    pub fn draw(&mut self) -> Option<u8>
        ensures symbol { result ≡ drawn self.old.mapping.bits self.old.outgoing }
        ensures writer { self.new ≡ record self.old { outgoing = after_draw self.old.mapping.bits self.old.outgoing } }
        ensures within { WithinLine self.new }
    {
        let mapping = self.mapping;
        let m = mapping.bits();
        if self.undrawn_bits() < m {
            return None;
        }
        let tuple = window(&self.line, self.next, mapping);
        self.next += m as usize;
        self.turn = (mapping.turn_at(tuple) + self.turn) % 4;
        Some(mapping.with_turn(self.turn, tuple))
    }
}
