// The fill of a cell by an outline (boundary.rs, `fill`), in a lent buffer of two halves.
#![tactic(auto)]

pub mod cell;
pub mod lines;
pub mod tests;
pub mod within;

ghost use Rattle.std.specs.Prelude.{◌≡◌};
ghost use Rattle.fill.specs.Answers.{fill_outcome};

use accept::Refusal;
use boundary::Bounds;

// A line from a vertex to a later one: the number after the last edge that it stands for, and how many vertices
// between its ends lie beyond the high bound.
#[derive(Clone, Copy)]
pub struct Chord {
    pub to: usize,
    pub beyond: usize,
}

// How many chords are written, and how many vertices they leave out beyond the high bound.
#[derive(Clone, Copy)]
pub struct Written {
    pub n: usize,
    pub beyond: usize,
}

// The fill of the cell c, with w as working space.
pub fn fill(v: &[f64], c: Bounds, w: &mut [f64]) -> Result<f64, Refusal>
    ensures { record { answer = result; lent = w.new } ≡ fill_outcome v.now c w.old }
{
    tests::fill_tested(v, c, w.len())?;
    boundary::all_held(v);
    boundary::box_held(c);
    cell::fill_in(v, c, w)
}
