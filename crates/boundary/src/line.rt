// The nearest point of a line.
ghost use Rattle.std.specs.Prelude.{◌≡◌};
ghost use Rattle.boundary.specs.Line.{way_of, squares_of, along_of, ahead_of, foot_of, normal_of, line_near};

use crate::{Edge, Near, Point};
use number::choices;
use number::root::{hypot, sqrt};
use number::signs::pick;

// From a to b.
fn way(e: Edge) -> Point
    ensures { result ≡ way_of e }
{
    Point {
        x: e.b.x - e.a.x,
        y: e.b.y - e.a.y,
    }
}

// The squared length.
fn squares(w: Point) -> f64
    ensures { result ≡ squares_of w }
{
    w.x * w.x + w.y * w.y
}

// The point at t between a and b, of one axis.
pub fn along(a: f64, b: f64, t: f64) -> f64
    ensures { result ≡ along_of a b t }
{
    pick(t == 1.0, b, a + t * (b - a))
}

// The point at t from the edge's start, as it works out.
fn ahead(e: Edge, t: f64) -> Point
    ensures { result ≡ record { x = ahead_of e.a.x e.b.x t; y = ahead_of e.a.y e.b.y t } }
{
    Point {
        x: e.a.x + t * (e.b.x - e.a.x),
        y: e.a.y + t * (e.b.y - e.a.y),
    }
}

// The point of the edge nearest to p. The cases are branches: where one is foreseen, an end is known before the
// quotient is.
pub fn foot(e: Edge, p: Point) -> Point
    ensures { result ≡ foot_of e p }
{
    let w = way(e);
    let l2 = squares(w);
    let t = ((p.x - e.a.x) * w.x + (p.y - e.a.y) * w.y) / l2;
    if l2 > 0.0 {
        if choices::clamps_to_one(t) {
            return e.b;
        }
        if choices::clamps_to_itself(t) {
            return ahead(e, t);
        }
    }
    ahead(e, 0.0)
}

// The edge's own normal, to the right of its way.
pub fn normal(e: Edge) -> Point
    ensures { result ≡ normal_of e }
{
    let w = way(e);
    let l = sqrt(squares(w));
    Point {
        x: pick(l > 0.0, w.y / l, 1.0),
        y: pick(l > 0.0, -w.x / l, 0.0),
    }
}

// The edge's point nearest to p, with its distance and the edge's own normal.
pub fn line_nearest(e: Edge, p: Point) -> Near
    ensures { result ≡ line_near e p }
{
    let q = foot(e, p);
    Near {
        d: hypot(p.x - q.x, p.y - q.y),
        q,
        n: normal(e),
    }
}
