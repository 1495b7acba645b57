// The nearest edge of an outline, and the signed distance.
// That points and edges are of the field stands in clauses: types with that invariant would be a second `Point` and
// `Edge`, which each edge of a lent list would be turned into, and the public functions take a `Point`.
ghost use Rattle.std.specs.Prelude.{◌≡◌, true, false, not, cond, ◌<◌, eqb};
ghost use Rattle.std.specs.Float.{inf};
ghost use Rattle.std.specs.Float.Ieee.{lt};
ghost use Rattle.number.specs.Hypot.{clear_limit, Short};
ghost use Rattle.lists.specs.Lists.{any};
ghost use Rattle.boundary.specs.Outline.{count, edges};
ghost use Rattle.boundary.specs.Boxes.{is_in_field, point_in_field, edge_in_field, PointOf};
ghost use Rattle.boundary.specs.Line.{less_point, squares_of, foot_of, normal_of, line_near};
ghost use Rattle.distance.specs.Nearest.{nearest_of, rounding_of, flipped, signed_of};
ghost use Rattle.distance.specs.Search.{outside, gap_squares, length_to, found_of, edge_wins, NearestEdge};

use crate::{FoundEdge, Piece};
use boundary::{Distance, Edge, Point, edge_at, greater_of, lesser_of, line, out_along, vertex_at};
use number::root::{clear_limit, hypot, hypot_less};
use number::signs::{abs, max, pick};

// 16 units in the last place of 1.
const UNITS16: f64 = 0.0000000000000035527136788005009;

// 2^-20.
const MARGIN: f64 = 0.00000095367431640625;

// 2^-25: in the field no threshold is above it.
const CLEAR: f64 = 0.0000000298023223876953125;

fn outside_of(a: f64, b: f64, p: f64) -> f64
    ensures { result ≡ outside a b p }
{
    out_along(lesser_of(a, b) - MARGIN, greater_of(a, b) + MARGIN, p)
}

// The squared distance of p from the edge's widened box.
pub fn gap_squares(e: Edge, p: Point) -> f64
    ensures { result ≡ gap_squares e p }
{
    let x = outside_of(e.a.x, e.b.x, p.x);
    let y = outside_of(e.a.y, e.b.y, p.y);
    x * x + y * y
}

// The squared distance of a from p.
pub fn squares_to(a: Point, p: Point) -> f64
    ensures { result ≡ squares_of (less_point p a) }
{
    let x = p.x - a.x;
    let y = p.y - a.y;
    x * x + y * y
}

// Edge e, the i-th, with its point nearest to p.
fn found(e: Edge, i: usize, p: Point) -> FoundEdge
    requires { (edge_in_field e ≡ true) × (point_in_field p ≡ true) }
    ensures { (result ≡ found_of e i p) × PointOf Short (less_point p (foot_of e p)) × (lt (line_near e p).d (inf false) ≡ true) }
{
    let q = line::foot(e, p);
    FoundEdge {
        i,
        q,
        far: clear_limit(squares_to(q, p)),
    }
}

// Whether a is nearer to p than b.
fn is_nearer(p: Point, a: Point, b: Point) -> bool
    requires { PointOf Short (less_point p a) × PointOf Short (less_point p b) }
    ensures { result ≡ lt (length_to p a) (length_to p b) }
{
    hypot_less(p.x - a.x, p.y - a.y, p.x - b.x, p.y - b.y)
}

// a where c holds, and b where it does not.
fn either(c: bool, a: Point, b: Point) -> Point
    ensures { result ≡ cond c a b }
{
    if c { a } else { b }
}

// Whether a, of edge i, wins over b, of edge j.
fn is_better(p: Point, a: Point, i: usize, b: Point, j: usize) -> bool
    requires { PointOf Short (less_point p a) × PointOf Short (less_point p b) }
    ensures { result ≡ edge_wins i (length_to p a) j (length_to p b) }
{
    let first = i < j;
    is_nearer(p, either(first, b, a), either(first, a, b)) != first
}

// The winner of the best so far and edge e, the i-th: by its box, by the squared distances, and by the distances
// where those are close.
fn nearer_edge(best: FoundEdge, e: Edge, i: usize, p: Point) -> FoundEdge
    requires { (edge_in_field e ≡ true) × (point_in_field p ≡ true)
        × PointOf Short (less_point p best.q) × (best.far ≡ clear_limit (squares_of (less_point p best.q))) }
    ensures { (result ≡ cond (edge_wins i (line_near e p).d best.i (length_to p best.q)) (found_of e i p) best)
        × PointOf Short (less_point p result.q) × (lt (line_near e p).d (inf false) ≡ true) }
{
    if best.far < gap_squares(e, p) {
        return best;
    }
    let f = found(e, i, p);
    if best.far < squares_to(f.q, p) {
        return best;
    }
    if f.far < squares_to(best.q, p) {
        return f;
    }
    if is_better(p, f.q, i, best.q, best.i) {
        return f;
    }
    best
}

// A vertex near p, of some that are looked at. Nothing is claimed of it: the search starts with its edge, so
// that most edges are left out from the first turn on.
fn near_vertex(v: &[f64], p: Point) -> usize
    requires { 0 < count v.now }
    ensures { result < count v.now }
{
    let n = v.len() / 2;
    let stride = n / 64 + 8;
    let mut k = 0;
    let mut least = squares_to(vertex_at(v, 0), p);
    for i in (stride..n).step_by(stride) {
        let d = squares_to(vertex_at(v, i), p);
        if d < least {
            least = d;
            k = i;
        }
    }
    k
}

// Where the search starts: edge 0 need not be looked at again.
fn first_turn(k: usize) -> usize
    ensures { result ≡ cond (eqb k 0) 1 0 }
{
    if k == 0 { 1 } else { 0 }
}

// The edge that has the outline's nearest point to p, the first among equals.
pub fn nearest_edge(v: &[f64], p: Point) -> FoundEdge
    requires { (any (λ x. not (is_in_field x)) v.now ≡ false) × (point_in_field p ≡ true) × (0 < count v.now) }
    ensures { NearestEdge v.now p result }
{
    let n = v.len() / 2;
    let k = near_vertex(v, p);
    let mut best = found(edge_at(v, k), k, p);
    for i in first_turn(k)..n {
        best = nearer_edge(best, edge_at(v, i), i, p);
    }
    best
}

// The threshold that selects the normal.
fn rounding(q: Point, p: Point) -> f64
    ensures { result ≡ rounding_of q p }
{
    let m = max(max(abs(p.x), abs(p.y)), abs(q.x));
    UNITS16 * max(m, abs(q.y))
}

// Whether m is above the threshold, which is worked out only where m is small.
fn is_clear(q: Point, m: f64, p: Point) -> bool
    requires { PointOf Short q × (point_in_field p ≡ true) }
    ensures { result ≡ lt (rounding_of q p) m }
{
    if m > CLEAR {
        return true;
    }
    m > rounding(q, p)
}

// -x where the point is inside.
fn flip(inside: bool, x: f64) -> f64
    ensures { result ≡ flipped inside x }
{
    pick(inside, -x, x)
}

// The edge's own normal: that of the edge as a piece.
fn own_normal(e: Edge) -> Point
    ensures { result ≡ normal_of e }
{
    Piece::Line(e.a.x, e.a.y, e.b.x, e.b.y).normal()
}

// The distance m of p from the nearest point q of the edge e, signed, and the normal.
fn signed(e: Edge, q: Point, m: f64, p: Point, inside: bool) -> Distance
    requires { (edge_in_field e ≡ true) × (point_in_field p ≡ true) × (q ≡ foot_of e p) }
    ensures { result ≡ signed_of (record { d = m; q = q; n = normal_of e }) p inside }
{
    let d = flip(inside, m);
    if is_clear(q, m, p) {
        return Distance {
            d,
            v: Point {
                x: (p.x - q.x) / d,
                y: (p.y - q.y) / d,
            },
        };
    }
    let v = own_normal(e);
    if m > 0.0 {
        return Distance { d, v };
    }
    Distance { d: 0.0, v }
}

// The signed distance of p from the outline's edges, and the normal there, where f is the edge that has the
// nearest point.
pub fn distance(v: &[f64], f: FoundEdge, p: Point, inside: bool) -> Distance
    requires { (any (λ x. not (is_in_field x)) v.now ≡ false) × (point_in_field p ≡ true) × NearestEdge v.now p f }
    ensures { result ≡ signed_of (nearest_of (edges v.now) p) p inside }
{
    let q = f.q;
    let m = hypot(p.x - q.x, p.y - q.y);
    signed(edge_at(v, f.i), q, m, p, inside)
}
