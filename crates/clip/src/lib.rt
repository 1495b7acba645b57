// A closed list of lines clipped to a half-plane (boundary.rs, `clip`): from one half of a lent list to
// the other, four numbers to a line.
#![tactic(auto)]

pub mod halves;
pub mod parts;
pub mod path;
pub mod scan;

use boundary::Point;

// The half-plane where the coordinate (y, or else x) is at least v (above) or at most v.
#[derive(Clone, Copy)]
pub struct HalfPlane {
    pub y: bool,
    pub above: bool,
    pub v: f64,
}

// Where a line is cut, if it is, and whether its first and its last part are inside.
#[derive(Clone, Copy)]
pub struct Marks {
    pub cut: Option<f64>,
    pub start_kept: bool,
    pub end_kept: bool,
}

// What the first pass finds: the number of the first line that comes in, where the path starts, and whether the end of
// the last line is kept; or that none comes in, since all parts are kept or none is.
#[derive(Clone, Copy)]
pub enum FirstPass {
    StartsAt { start: usize, kept: bool },
    AllKept,
    NoneKept,
}

// Where a path that has begun starts, and where it ends.
#[derive(Clone, Copy)]
pub struct PathEnds {
    pub start: Point,
    pub last: Point,
}

// A path, which may not have begun, and how many lines it has.
#[derive(Clone, Copy)]
pub struct State {
    pub ends: Option<PathEnds>,
    pub at: usize,
}

// Where a list stands: in the second half or the first, and how many lines it has. A list that is too long for a half
// has more than a half holds, and no flag beside it: refusal 14 asks for that number (`Stage`, `long_of`).
#[derive(Clone, Copy)]
pub struct Stored {
    pub second: bool,
    pub n: usize,
}
