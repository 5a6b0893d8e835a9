// One half of a delay line, counting the slots.
mod ops;

ghost use Rattle.delay_line.specs.Line.{Delays};

use crate::line::DelayLine;
use crate::slot::Slot;

// A delay line, and the slot that comes next. It has no `impl Model`: what a half means has functions in it, and a model's value is data.
#[derive(Drop)]
pub struct Half<D: DelayLine> {
    slot: Slot,
    line: D,
    // none is above the lag, and no two slots of a frame leave at one
    ghost delays: { Delays (D.DelayLine.delay line) (D.DelayLine.frames line) },
}
