// `Polygon`: making, area, bounds, perimeter, containment, location and distance.
ghost use Rattle.std.specs.Prelude.{◌≡◌, cond, ◌-◌, ◌*◌, ◌<◌, ◌≤◌, length};
ghost use Rattle.lists.specs.Lists.{any, at_front};
ghost use Rattle.std.specs.Float.Ieee.{unlike, lt};
ghost use Rattle.boundary.specs.Outline.{count, vertex_at, vertices, edges};
ghost use Rattle.geometry.specs.Polygon.{crosses_of, contains_of, between_ends, cross_of, on_edge, locate_of, bounds_of, place};
ghost use Rattle.geometry.specs.Answers.{area_answer, perimeter_answer, bounds_answer, outline_query_tested, contains_answer, locate_answer, distance_answer};
ghost use Rattle.geometry.specs.Making.{closed, kept_count, turned, coordinates_of, make_outcome};

use crate::Location;
use accept::{Refusal, refusals};
use boundary::outline::Vertices;
use boundary::{Bounds, Distance, Edge, Point, greater_of, hulls, lesser_of};

// Whether an odd number of edges count for p once the edge from vertex j to vertex i is looked at, where `odd` tells
// it of those before, and `was` and `up` whether each vertex is above p.
fn turned_odd(v: &[f64], j: usize, i: usize, p: Point, was: bool, up: bool, odd: bool) -> bool
    requires { (j < count v.now) × (i < count v.now) × (was ≡ lt p.y (vertex_at v.now j).y) × (up ≡ lt p.y (vertex_at v.now i).y) }
    ensures { result ≡ unlike odd (crosses_of p (record { a = vertex_at v.now j; b = vertex_at v.now i })) }
{
    if up != was {
        let a = boundary::vertex_at(v, j);
        let b = boundary::vertex_at(v, i);
        return odd != (p.x < (a.x - b.x) * (p.y - b.y) / (a.y - b.y) + b.x);
    }
    odd
}

// Whether the outline contains p: whether an odd number of its edges count. Each vertex is looked at with the one
// before it, the first with the last.
pub fn holds(v: &[f64], p: Point) -> bool
    ensures { result ≡ contains_of (edges v.now) p }
{
    let n = v.len() / 2;
    let mut inside = false;
    if n == 0 {
        return inside;
    }
    let mut j = n - 1;
    let mut was = boundary::vertex_at(v, j).y > p.y;
    for i in 0..n {
        let up = boundary::vertex_at(v, i).y > p.y;
        inside = turned_odd(v, j, i, p, was, up, inside);
        was = up;
        j = i;
    }
    inside
}

fn is_between(a: f64, b: f64, q: f64) -> bool
    ensures { result ≡ between_ends a b q }
{
    (lesser_of(a, b) <= q) & (q <= greater_of(a, b))
}

// The cross product of the edge and the way from its start to p.
fn cross(e: Edge, p: Point) -> f64
    ensures { result ≡ cross_of e p }
{
    (e.b.x - e.a.x) * (p.y - e.a.y) - (e.b.y - e.a.y) * (p.x - e.a.x)
}

fn is_on(p: Point, e: Edge) -> bool
    ensures { result ≡ on_edge p e }
{
    (cross(e, p) == 0.0) & (is_between(e.a.x, e.b.x, p.x) & is_between(e.a.y, e.b.y, p.y))
}

// Whether p is on an edge. By place: a closure for `lists::any` would owe that the place is one of the list.
fn on_boundary(v: &[f64], p: Point) -> bool
    ensures { result ≡ any (on_edge p) (edges v.now) }
{
    let n = v.len() / 2;
    let mut found = false;
    for i in 0..n {
        found = found | is_on(p, boundary::edge_at(v, i));
    }
    found
}

// Where p is, the boundary tested first.
fn location(v: &[f64], p: Point) -> Location
    ensures { place result ≡ locate_of (edges v.now) p }
{
    if on_boundary(v, p) {
        return Location::Boundary;
    }
    if holds(v, p) {
        Location::Inside
    } else {
        Location::Outside
    }
}

// The box of the vertices.
pub fn box_of(v: &[f64]) -> Bounds
    ensures { result ≡ bounds_of (vertices v.now) }
{
    let n = v.len() / 2;
    let mut b = hulls::empty_box();
    for i in 0..n {
        b = hulls::stretch(b, boundary::vertex_at(v, i));
    }
    b
}

pub fn area(v: &[f64]) -> Result<f64, Refusal>
    ensures { result ≡ area_answer v.now }
{
    refusals::outline_verdict(v)
}

pub fn perimeter(v: &[f64]) -> Result<f64, Refusal>
    ensures { result ≡ perimeter_answer v.now }
{
    refusals::outline_tested(v)?;
    Ok(boundary::length(v))
}

pub fn bounds(v: &[f64]) -> Result<Bounds, Refusal>
    ensures { result ≡ bounds_answer v.now }
{
    refusals::outline_tested(v)?;
    Ok(box_of(v))
}

// The tests of a query at p.
fn query_tested(v: &[f64], p: Point) -> Result<(), Refusal>
    ensures { result ≡ outline_query_tested v.now p }
{
    refusals::outline_tested(v)?;
    refusals::refuse_when(!refusals::point_in_field(p), Refusal::BadPoint)
}

// 1 where the outline contains p, and else 0.
pub fn contains(v: &[f64], p: Point) -> Result<u32, Refusal>
    ensures { result ≡ contains_answer v.now p }
{
    query_tested(v, p)?;
    Ok(u32::from(holds(v, p)))
}

pub fn locate(v: &[f64], p: Point) -> Result<u32, Refusal>
    ensures { result ≡ locate_answer v.now p }
{
    query_tested(v, p)?;
    Ok(u32::from(location(v, p)))
}

// The signed distance of p, negative where the outline contains it, and the normal. Containment stands between the
// search and the root, since the root waits for the search and containment does not.
pub fn distance(v: &[f64], p: Point) -> Result<Distance, Refusal>
    ensures { result ≡ distance_answer v.now p }
{
    query_tested(v, p)?;
    let edge = distance::nearest::nearest_edge(v, p);
    let inside = holds(v, p);
    Ok(distance::nearest::distance(v, edge, p, inside))
}

// Whether the last vertex repeats the first.
pub fn is_closed<V: Vertices>(v: V) -> bool
    ensures { result ≡ closed (V.numbers v) }
{
    let n = v.vertex_count();
    if n <= 1 {
        return false;
    }
    boundary::same_point(v.vertex(0), v.vertex(n - 1))
}

// How many numbers are kept once a closing vertex is dropped.
fn kept_count(v: &[f64]) -> usize
    ensures { (result ≡ kept_count v.now) × (result ≤ length v.now) }
{
    if is_closed(v) {
        return v.len() - 2;
    }
    v.len()
}

// Which of n vertices is written at i: from the last to the first where `back` is set.
pub fn source(back: bool, n: usize, i: usize) -> usize
    requires { i < n }
    ensures { (result ≡ cond back (n - 1 - i) i) × (result < n) }
{
    if back { n - 1 - i } else { i }
}

// Writes the vertices of v to the front of out, turned where `back` is set.
pub fn write<V: Vertices>(v: V, back: bool, out: &mut [f64])
    requires { 2 * count (V.numbers v) ≤ length out.old }
    ensures { out.new ≡ at_front (coordinates_of (turned back (vertices (V.numbers v)))) out.old }
{
    let n = v.vertex_count();
    for i in 0..n {
        let p = v.vertex(source(back, n, i));
        out[2 * i] = p.x;
        out[2 * i + 1] = p.y;
    }
}

// Makes an outline in out: a closing vertex is dropped, the rest tested, and reversed where its area is
// negative. The answer is the number of vertices.
pub fn new(v: &[f64], out: &mut [f64]) -> Result<u32, Refusal>
    ensures { record { answer = result; lent = out.new } ≡ make_outcome v.now out.old }
{
    let m = kept_count(v);
    let kept = &v[..m];
    let area = refusals::shape_tested(kept)?;
    if out.len() < v.len() {
        return Err(Refusal::ShortBuffer);
    }
    write(kept, area < 0.0, out);
    Ok((m / 2) as u32)
}
