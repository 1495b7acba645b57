// The first pass over a list of lines: whether its parts are kept, and where the path starts.
ghost use Rattle.std.specs.Prelude.{◌≡◌, cond, ◌+◌, ◌-◌, ◌*◌, ◌≤◌, length};
ghost use Rattle.clip.specs.Passes.{marks_of, comes_in, first_pass_of};
ghost use Rattle.clip.specs.Lent.{room_of, line_at, line_in, lines_from};

use crate::{FirstPass, HalfPlane, Marks, parts};
use boundary::{Edge, Point};

// The line that stands at o.
pub fn line_at(w: &[f64], o: usize) -> Edge
    requires { o + 4 ≤ length w.now }
    ensures { result ≡ line_at w.now o }
{
    Edge {
        a: Point {
            x: w[o],
            y: w[o + 1],
        },
        b: Point {
            x: w[o + 2],
            y: w[o + 3],
        },
    }
}

// The marks of the line that stands at o: only the coordinate that is bounded is read, y after x.
fn marks_at(w: &[f64], o: usize, s: HalfPlane) -> Marks
    requires { o + 4 ≤ length w.now }
    ensures { result ≡ marks_of s (line_at w.now o) }
{
    let k = usize::from(s.y);
    parts::between(s, w[o + k], w[o + 2 + k])
}

// Whether a line comes in: a part of it is kept, and the part before that one is not.
fn comes_in(before: bool, m: Marks) -> bool
    ensures { result ≡ comes_in before m }
{
    (m.start_kept & !before) | (m.end_kept & !m.start_kept)
}

// Looks at the lines; the last is the one before the first. Where no line
// comes in, all parts are marked as the last one is.
pub fn first_pass(lines: &[f64], s: HalfPlane) -> FirstPass
    requires { 1 ≤ room_of lines.now }
    ensures { result ≡ first_pass_of s (line_in lines.now 0 (room_of lines.now - 1)) (lines_from lines.now 0 0 (room_of lines.now)) }
{
    let n = lines.len() / 4;
    let last = marks_at(lines, 4 * (n - 1), s);
    let kept = last.end_kept;
    let mut before = kept;
    for i in 0..n {
        let m = marks_at(lines, 4 * i, s);
        if comes_in(before, m) {
            return FirstPass::StartsAt { start: i, kept };
        }
        before = m.end_kept;
    }
    if kept {
        FirstPass::AllKept
    } else {
        FirstPass::NoneKept
    }
}
