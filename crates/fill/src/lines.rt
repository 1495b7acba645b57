// The lines that are clipped: the outline's edges, but for those between vertices that stand outside one bound
// of x without a break, which are drawn as one line. The first two clips give the same of it.
ghost use Rattle.std.specs.Prelude.{◌≡◌, false, ℕ, ◌*◌, ◌<◌, ◌≤◌, drop};
ghost use Rattle.boundary.specs.Outline.{count, vertex_at, edges};
ghost use Rattle.clip.specs.Clip.{in_half_plane};
ghost use Rattle.clip.specs.Lent.{room_of, lines_from};
ghost use Rattle.clip.specs.Shortened.{Shortened, StripOf, Drawn};

use crate::{Chord, Written};
use boundary::{Edge, next, vertex_at};
use clip::HalfPlane;
use clip::parts::in_half_plane;

// The last of the vertices, from vertex i on, that stand outside s without a break; i where it is inside.
fn outside_end(v: &[f64], i: usize, s: HalfPlane) -> usize
    requires { i < count v.now }
    ensures { (i ≤ result) × (result < count v.now) × (i < result → (j : ℕ) → i ≤ j → j ≤ result → in_half_plane s (vertex_at v.now j) ≡ false) }
{
    if in_half_plane(s, vertex_at(v, i)) {
        return i;
    }
    let n = v.len() / 2;
    for j in i + 1..n {
        if in_half_plane(s, vertex_at(v, j)) {
            return j - 1;
        }
    }
    n - 1
}

// The chord from vertex i on: over vertices outside a bound, or else the edge. The two bounds stand one by one with
// the fact of both (`StripOf`): a type that keeps it would be made and read once a call, so it is no plainer.
fn chord(v: &[f64], i: usize, low: HalfPlane, high: HalfPlane) -> Chord
    requires { (i < count v.now) × StripOf low high v.now }
    ensures { Drawn low high v.now i result.to result.beyond }
{
    let l = outside_end(v, i, low);
    if i < l {
        return Chord { to: l, beyond: 0 };
    }
    let h = outside_end(v, i, high);
    if i < h {
        return Chord {
            to: h,
            beyond: h - i - 1,
        };
    }
    Chord {
        to: i + 1,
        beyond: 0,
    }
}

// Writes the chords to the front of a list, and nothing past the places of the outline's own lines. The loop is no
// `for`: a chord may go on by many vertices.
pub fn write_chords(v: &[f64], low: HalfPlane, high: HalfPlane, out: &mut [f64]) -> Written
    requires { (count v.now ≤ room_of out.old) × StripOf low high v.now }
    ensures { (result.n ≤ count v.now) × (result.beyond ≤ count v.now)
        × Shortened low high result.beyond (edges v.now) (lines_from out.new 0 0 result.n)
        × (drop (4 * count v.now) out.new ≡ drop (4 * count v.now) out.old) }
{
    let n = v.len() / 2;
    let front = &mut out[..4 * n];
    let mut at = 0;
    let mut beyond = 0;
    let mut i = 0;
    while i < n {
        let c = chord(v, i, low, high);
        let to = c.to;
        let e = Edge {
            a: vertex_at(v, i),
            b: vertex_at(v, next(to - 1, n)),
        };
        at = clip::path::emit(front, at, e, true);
        beyond += c.beyond;
        i = to;
    }
    Written { n: at, beyond }
}
