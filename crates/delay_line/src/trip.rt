// Whole runs through fresh halves.
ghost use Rattle.std.specs.Prelude.{◌≡◌, ◌+◌, ◌*◌, min};
ghost use Rattle.delay_line.specs.Cells.{always};
ghost use Rattle.delay_line.specs.Laws.{DelayedBy};
ghost use Rattle.delay_line.specs.Line.{carried, fresh_line, series};

use crate::cascade::Cascade;
use crate::half::Half;
use crate::line::DelayLine;
use crate::scheme::Scheme;

// Replaces the bytes by what a fresh half of this line answers to them.
fn run<D: DelayLine + Drop>(line: D, bytes: &mut [u8])
    ensures answers { bytes.new ≡ carried (D.DelayLine.delay line) fresh_line bytes.old }
    ensures places { DelayedBy (D.DelayLine.delay line) bytes.old bytes.new }
{
    let mut half = Half::new(line);
    half.carry(bytes);
}

// Replaces the bytes by what a fresh sending half answers to them.
pub fn send<S: Scheme>(scheme: &S, bytes: &mut [u8])
    ensures answers { bytes.new ≡ carried (S.Scheme.sends scheme.now) fresh_line bytes.old }
    ensures places { DelayedBy (S.Scheme.sends scheme.now) bytes.old bytes.new }
{
    run(scheme.sending(), bytes);
}

// Replaces the bytes by what a fresh receiving half answers to them.
pub fn receive<S: Scheme>(scheme: &S, bytes: &mut [u8])
    ensures answers { bytes.new ≡ carried (S.Scheme.receives scheme.now) fresh_line bytes.old }
    ensures places { DelayedBy (S.Scheme.receives scheme.now) bytes.old bytes.new }
{
    run(scheme.receiving(), bytes);
}

// There and back: each byte comes out as many frames later as the scheme lags, whatever its slot.
pub fn round_trip<S: Scheme>(scheme: &S, bytes: &mut [u8])
    ensures { DelayedBy (always (204 * S.Scheme.spans scheme.now)) bytes.old bytes.new }
{
    send(scheme, bytes);
    receive(scheme, bytes);
}

// Replaces the bytes by what the two lines in series answer to them, both fresh, and answers the lag: they act as one line with the summed delays, and as one after the other.
pub fn carry_cascade<A: DelayLine + Drop, B: DelayLine + Drop>(
    first: A,
    second: B,
    bytes: &mut [u8],
) -> u16
    ensures one { bytes.new ≡ carried (series (A.DelayLine.delay first) (B.DelayLine.delay second)) fresh_line bytes.old }
    ensures lag { result ≡ min (A.DelayLine.frames first + B.DelayLine.frames second) 4095 }
    ensures two { bytes.new ≡ carried (B.DelayLine.delay second) fresh_line (carried (A.DelayLine.delay first) fresh_line bytes.old) }
{
    let both = Cascade::new(first, second);
    let lag = both.lag();
    run(both, bytes);
    lag
}
