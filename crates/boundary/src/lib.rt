// An outline's points and edges, and what boundary.rs works out from them.
#![tactic(auto)]

pub mod hulls;
pub mod line;
pub mod outline;

ghost use Rattle.std.specs.Prelude.{◌≡◌, ◌<◌, T};
ghost use Rattle.std.specs.Float.{binary64};
ghost use Rattle.std.specs.Float.Ieee.{fits};
ghost use Rattle.number.specs.Exact.{Doubles};
ghost use Rattle.boundary.specs.Boxes.{DoubleBox, lesser, greater, out_along};
ghost use Rattle.boundary.specs.Outline.{count, after, vertex_at, same_point, edge_at, edges};
ghost use Rattle.boundary.specs.Line.{middle};
ghost use Rattle.boundary.specs.Length.{edge_length, length_of};

// A point, in µm.
#[repr(C)]
#[derive(Clone, Copy, PartialEq)]
pub struct Point {
    pub x: f64,
    pub y: f64,
}

// The straight line from a to b.
#[derive(Clone, Copy)]
pub struct Edge {
    pub a: Point,
    pub b: Point,
}

// An axis-parallel box.
#[derive(Clone, Copy)]
pub struct Bounds {
    pub min: Point,
    pub max: Point,
}

// The point of a boundary that is nearest to another: its distance, the point, and the boundary's own
// normal there.
#[derive(Clone, Copy)]
pub struct Near {
    pub d: f64,
    pub q: Point,
    pub n: Point,
}

// A distance, and what goes with it: the normal of a signed distance, the nearest point of an ellipse.
#[derive(Clone, Copy)]
pub struct Distance {
    pub d: f64,
    pub v: Point,
}

// A number that is held is an `f64`.
fn held(x: f64)
    ensures { T (fits binary64 x) }
{}

// So every number of a list is. The loop does nothing else.
pub fn all_held(v: &[f64])
    ensures { Doubles v.now }
{
    for x in v {
        held(*x);
    }
}

// So the corners of a box are.
pub fn box_held(b: Bounds)
    ensures { DoubleBox b }
{
    held(b.min.x);
    held(b.min.y);
    held(b.max.x);
    held(b.max.y);
}

// Vertex i of an outline's numbers.
pub fn vertex_at(v: &[f64], i: usize) -> Point
    requires { i < count v.now }
    ensures { result ≡ vertex_at v.now i }
{
    Point {
        x: v[2 * i],
        y: v[2 * i + 1],
    }
}

// Whether two points are equal; zeros of either sign are.
pub fn same_point(p: Point, q: Point) -> bool
    ensures { result ≡ same_point p q }
{
    p == q
}

// The number of the vertex after vertex i of n.
pub fn next(i: usize, n: usize) -> usize
    requires { i < n }
    ensures { (result ≡ after n i) × (result < n) }
{
    let j = i + 1;
    if j == n { 0 } else { j }
}

// The edge that leaves vertex i.
pub fn edge_at(v: &[f64], i: usize) -> Edge
    requires { i < count v.now }
    ensures { result ≡ edge_at v.now i }
{
    let j = next(i, v.len() / 2);
    Edge {
        a: vertex_at(v, i),
        b: vertex_at(v, j),
    }
}

// The lesser of two, the first where they are equal; std's `min` leaves open which of two zeros it gives.
pub fn lesser_of(a: f64, b: f64) -> f64
    ensures { result ≡ lesser a b }
{
    number::signs::pick(b < a, b, a)
}

// The greater, in the same way.
pub fn greater_of(a: f64, b: f64) -> f64
    ensures { result ≡ greater a b }
{
    number::signs::pick(a < b, b, a)
}

// How far p is outside lo to hi, of one axis.
pub fn out_along(lo: f64, hi: f64, p: f64) -> f64
    ensures { result ≡ out_along lo hi p }
{
    greater_of(0.0, greater_of(lo - p, p - hi))
}

// Half the sum.
pub fn middle_of(s0: f64, s1: f64) -> f64
    ensures { result ≡ middle s0 s1 }
{
    0.5 * (s0 + s1)
}

// The length of one edge.
fn line_length(e: Edge) -> f64
    ensures { result ≡ edge_length e }
{
    number::root::hypot(e.b.x - e.a.x, e.b.y - e.a.y)
}

// The length of an outline's edges together.
pub fn length(v: &[f64]) -> f64
    ensures { result ≡ length_of (edges v.now) }
{
    let n = v.len() / 2;
    let mut sum = 0.0;
    for i in 0..n {
        sum += line_length(edge_at(v, i));
    }
    sum
}
