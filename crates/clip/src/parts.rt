// The parts of a line, and which of them are inside.
ghost use Rattle.std.specs.Prelude.{◌≡◌};
ghost use Rattle.clip.specs.Clip.{point_along, coord_of, in_half_plane};
ghost use Rattle.clip.specs.Passes.{coord_inside, cut_at, mark_at, uncut_of, marks_between, marks_of, first_part, last_part};

use crate::{HalfPlane, Marks};
use boundary::line::along;
use boundary::{Edge, Point};
use number::signs::pick;

// The coordinate that the half-plane bounds.
fn coord(s: HalfPlane, p: Point) -> f64
    ensures { result ≡ coord_of s p }
{
    pick(s.y, p.y, p.x)
}

// Whether a coordinate is inside; the bound itself is. It is between the bound and an infinity, so that no
// branch is taken.
fn is_inside(s: HalfPlane, c: f64) -> bool
    ensures { result ≡ coord_inside s c }
{
    let lo = pick(s.above, s.v, -1.0 / 0.0);
    let hi = pick(s.above, 1.0 / 0.0, s.v);
    (lo <= c) & (c <= hi)
}

// Whether a point is inside.
pub fn in_half_plane(s: HalfPlane, p: Point) -> bool
    ensures { result ≡ in_half_plane s p }
{
    is_inside(s, coord(s, p))
}

// Whether a line is cut: its coordinate, which grows by d, meets the bound at u, between its ends.
fn is_cut(d: f64, u: f64) -> bool
    ensures { result ≡ cut_at d u }
{
    (d != 0.0) & (u > 0.0) & (u < 1.0)
}

// Whether the point at u is inside, on a line whose coordinate goes from a to b.
fn mark(s: HalfPlane, a: f64, b: f64, u: f64) -> bool
    ensures { result ≡ mark_at s a b u }
{
    is_inside(s, along(a, b, u))
}

// The marks of a line that is not cut, whose coordinate goes from a to b: both are its midpoint's.
fn uncut(s: HalfPlane, a: f64, b: f64) -> Marks
    ensures { result ≡ uncut_of s a b }
{
    let whole = mark(s, a, b, 0.5);
    Marks {
        cut: None,
        start_kept: whole,
        end_kept: whole,
    }
}

// The marks of a line whose coordinate goes from a to b. From its start on, the bound is p away, and its end
// d. It is cut only where p lies between 0 and d; where p does not, there is nothing to divide.
pub fn between(s: HalfPlane, a: f64, b: f64) -> Marks
    ensures { result ≡ marks_between s a b }
{
    let p = s.v - a;
    let d = b - a;
    if (p > 0.0) != (p < d) {
        return uncut(s, a, b);
    }
    let u = p / d;
    if is_cut(d, u) {
        return Marks {
            cut: Some(u),
            start_kept: mark(s, a, b, 0.5 * (0.0 + u)),
            end_kept: mark(s, a, b, 0.5 * (u + 1.0)),
        };
    }
    uncut(s, a, b)
}

// The marks of a line.
pub fn marked(s: HalfPlane, e: Edge) -> Marks
    ensures { result ≡ marks_of s e }
{
    between(s, coord(s, e.a), coord(s, e.b))
}

// The point at u along a line.
fn point_at(e: Edge, u: f64) -> Point
    ensures { result ≡ point_along e u }
{
    Point {
        x: along(e.a.x, e.b.x, u),
        y: along(e.a.y, e.b.y, u),
    }
}

// The first part of a line; the line itself where it is not cut.
#[tactic(auto, unfolding(crate::specs::Passes::first_part))]
pub fn first(m: Marks, e: Edge) -> Edge
    ensures { result ≡ first_part m e }
{
    match m.cut {
        None => e,
        Some(u) => Edge {
            a: point_at(e, 0.0),
            b: point_at(e, u),
        },
    }
}

// The last part of a line; of one that is not cut, from its start.
#[tactic(auto, unfolding(crate::specs::Passes::last_part))]
pub fn second(m: Marks, e: Edge) -> Edge
    ensures { result ≡ last_part m e }
{
    let u = match m.cut {
        None => 0.0,
        Some(u) => u,
    };
    Edge {
        a: point_at(e, u),
        b: e.b,
    }
}
