// An outline as an XY record holds it: making's tests and what making writes, read from the stream by place.
#![tactic(auto)]

ghost use Rattle.std.specs.Prelude.{◌≡◌, ◌+◌, ◌*◌, ◌≤◌, length};
ghost use Rattle.lists.specs.Lists.{at_front};
ghost use Rattle.boundary.specs.Outline.{count, edges};
ghost use Rattle.accept.specs.Area.{area_of};
ghost use Rattle.accept.specs.Refusals.{all_passed, given, negative_area, shape_tested};
ghost use Rattle.geometry.specs.Making.{kept, made_of};
ghost use Rattle.xy.specs.Outlines.{makings_of, xy_tested, steps_from, numbers_from};

mod placed;

use accept::{Refusal, refusals};
use geometry::polygon;
use placed::Placed;

// What making finds of an outline: how many vertices it is made with, and whether its area is negative, so that
// it is reversed.
#[derive(Clone, Copy)]
pub struct Makings {
    pub vertices: u32,
    pub reversed: bool,
}

// Tests 1 and 3 to 8 of vertices none of which is beyond the reach, so that 5 and 6 pass.
fn shape_tested(p: Placed) -> Result<f64, Refusal>
    ensures { result ≡ given (shape_tested (numbers_from p.entry.s.now p.entry.from p.entry.n)) (Ok (area_of (edges (numbers_from p.entry.s.now p.entry.from p.entry.n)))) Err }
{
    refusals::size_tested(p.n)?;
    refusals::edges_tested(p)
}

// Making's tests of them.
fn making_tested(p: Placed) -> Result<Makings, Refusal>
    ensures { result ≡ given (shape_tested (kept (numbers_from p.entry.s.now p.entry.from p.entry.n))) (Ok (makings_of (steps_from p.entry.s.now p.entry.from p.entry.n))) Err }
{
    let kept = p.kept();
    let area = shape_tested(kept)?;
    Ok(Makings {
        vertices: kept.n as u32,
        reversed: area < 0.0,
    })
}

// The tests that follow an XY record of n vertices.
pub fn xy_tested(s: &[u8], from: usize, n: usize) -> Result<Makings, Refusal>
    requires { from + 8 * n ≤ length s.now }
    ensures { result ≡ given (xy_tested (steps_from s.now from n)) (Ok (makings_of (steps_from s.now from n))) Err }
{
    if stream::any_far(s, from, 2 * n) {
        return Err(Refusal::BeyondReach);
    }
    making_tested(Placed { s, from, n })
}

// Makes the outline of n vertices that pass the tests at the front of out, reversed where `back` says so: the
// number of its vertices.
pub fn write_made(s: &[u8], from: usize, n: usize, back: bool, out: &mut [f64]) -> u32
    requires { (from + 8 * n ≤ length s.now) × (xy_tested (steps_from s.now from n) ≡ all_passed) × (back ≡ negative_area (kept (numbers_from s.now from n))) × (length (made_of (numbers_from s.now from n)) ≤ length out.old) }
    ensures { (result ≡ count (kept (numbers_from s.now from n))) × (out.new ≡ at_front (made_of (numbers_from s.now from n)) out.old) }
{
    let kept = Placed { s, from, n }.kept();
    polygon::write(kept, back, out);
    kept.n as u32
}
