// The tests of a call: the outline, the cell, the buffer.
ghost use Rattle.std.specs.Prelude.{◌≡◌};
ghost use Rattle.fill.specs.Answers.{fill_tested};

use accept::Refusal;
use accept::refusals::{box_fits, outline_tested, refuse_when};
use boundary::Bounds;

// The tests of a call with a buffer of `room` numbers.
pub fn fill_tested(v: &[f64], c: Bounds, room: usize) -> Result<(), Refusal>
    ensures { result ≡ fill_tested v.now c room }
{
    outline_tested(v)?;
    refuse_when(!box_fits(c), Refusal::BadBox)?;
    refuse_when(room / 8 < v.len() / 2, Refusal::ShortBuffer)
}
