// The tests of an outline in document 01's order, and a test after those before it. An outline's area, which
// the tests work out, is handed over with what they say.
ghost use Rattle.std.specs.Prelude.{◌≡◌, false, not, cond, List, Float};
ghost use Rattle.std.specs.Float.{binary64};
ghost use Rattle.std.specs.Float.Ieee.{add, div};
ghost use Rattle.std.specs.Float.Ieee.Scale.{finite};
ghost use Rattle.boundary.specs.Boxes.{is_in_field, point_in_field, box_fits};
ghost use Rattle.lists.specs.Lists.{any};
ghost use Rattle.boundary.specs.Outline.{same_point, edges};
ghost use Rattle.accept.specs.declared.Refusal.TheVariants.{NegativeArea};
ghost use Rattle.accept.specs.Area.{shoelace_term, two, area_of};
ghost use Rattle.accept.specs.Refusals.{Test, all_passed, ◌refusing◌when◌, given, number, negative_area, equal_neighbours, size_tested, values_tested, shape_tested, outline_tested};
ghost use Rattle.accept.specs.Verdicts.{edges_verdict, test_of};

use crate::Refusal;
use boundary::outline::Vertices;
use boundary::{Bounds, Edge, Point, same_point};

const LIMIT: f64 = 1048576.0;

// The paper's number of a refusal.
impl From<Refusal> for u32 {
    ghost from_gives = { λ r n. n ≡ number r };

    fn from(r: Refusal) -> u32 {
        match r {
            Refusal::OddCount => 1,
            Refusal::BadCounts => 2,
            Refusal::TooFew => 3,
            Refusal::TooMany => 4,
            Refusal::NotFinite => 5,
            Refusal::OutsideField => 6,
            Refusal::EqualNeighbours => 7,
            Refusal::ZeroArea => 8,
            Refusal::NegativeArea => 9,
            Refusal::BadPoint => 10,
            Refusal::BadBox => 11,
            Refusal::BadEllipse => 12,
            Refusal::ShortBuffer => 13,
            Refusal::LongList => 14,
            Refusal::BadPointCount => 15,
            Refusal::BadRecord => 16,
            Refusal::OtherUnit => 17,
            Refusal::BeyondReach => 18,
        }
    }
}

fn is_finite(x: f64) -> bool
    ensures { result ≡ finite x }
{
    let top = 1.0 / 0.0;
    (-top < x) & (x < top)
}

// Whether x is in the field.
pub fn in_field(x: f64) -> bool
    ensures { result ≡ is_in_field x }
{
    (-LIMIT <= x) & (x <= LIMIT)
}

pub fn point_in_field(p: Point) -> bool
    ensures { result ≡ point_in_field p }
{
    in_field(p.x) & in_field(p.y)
}

// Whether a box is in the field, and no minimum is above its maximum.
pub fn box_fits(b: Bounds) -> bool
    ensures { result ≡ box_fits b }
{
    let upper = in_field(b.max.x)
        & (in_field(b.max.y) & ((b.min.x <= b.max.x) & (b.min.y <= b.max.y)));
    in_field(b.min.x) & (in_field(b.min.y) & upper)
}

// An edge's term of the shoelace sum.
pub fn shoelace_term(e: Edge) -> f64
    ensures { result ≡ shoelace_term e }
{
    e.a.x * e.b.y - e.b.x * e.a.y
}

// Test 8.
pub fn area_tested(a: f64) -> Result<f64, Refusal>
    ensures { result ≡ edges_verdict false a }
{
    if a == 0.0 {
        return Err(Refusal::ZeroArea);
    }
    Ok(a)
}

// Tests 7 and 8 of the last edge, where the terms before it come to sum.
pub fn last_tested(sum: f64, e: Edge) -> Result<f64, Refusal>
    ensures { result ≡ edges_verdict (same_point e.a e.b) (div binary64 (add binary64 sum (shoelace_term e)) two) }
{
    if same_point(e.a, e.b) {
        return Err(Refusal::EqualNeighbours);
    }
    area_tested((sum + shoelace_term(e)) / 2.0)
}

// Tests 7 and 8, in one pass over the edges. Each vertex is read once: the end of one edge is the start of the next.
pub fn edges_tested<V: Vertices>(v: V) -> Result<f64, Refusal>
    ensures { result ≡ edges_verdict (equal_neighbours (V.numbers v)) (area_of (edges (V.numbers v))) }
{
    let n = v.vertex_count();
    let mut sum = 0.0;
    if n == 0 {
        return area_tested(sum / 2.0);
    }
    let first = v.vertex(0);
    let mut a = first;
    for i in 0..n - 1 {
        let b = v.vertex(i + 1);
        if same_point(a, b) {
            return Err(Refusal::EqualNeighbours);
        }
        sum = sum + shoelace_term(Edge { a, b });
        a = b;
    }
    last_tested(sum, Edge { a, b: first })
}

// Tests 5 to 8. What is not finite is outside the field too, so one pass tells that both pass.
pub fn values_tested(v: &[f64]) -> Result<f64, Refusal>
    ensures { result ≡ given (values_tested v.now) (Ok (area_of (edges v.now))) Err }
{
    if lists::any(v, |x| !in_field(x)) {
        if lists::any(v, |x| !is_finite(x)) {
            return Err(Refusal::NotFinite);
        }
        return Err(Refusal::OutsideField);
    }
    edges_tested(v)
}

// Tests 3 and 4 of n vertices.
pub fn size_tested(n: usize) -> Result<(), Refusal>
    ensures { result ≡ size_tested n }
{
    if n < 3 {
        return Err(Refusal::TooFew);
    }
    if 4096 < n {
        return Err(Refusal::TooMany);
    }
    Ok(())
}

// Tests 1 and 3 to 8.
pub fn shape_tested(v: &[f64]) -> Result<f64, Refusal>
    ensures { result ≡ given (shape_tested v.now) (Ok (area_of (edges v.now))) Err }
{
    if v.len() % 2 == 1 {
        return Err(Refusal::OddCount);
    }
    size_tested(v.len() / 2)?;
    values_tested(v)
}

// Test 9, after those that handed t over.
pub fn sign_tested(t: Result<f64, Refusal>) -> Result<f64, Refusal>
    ensures { (v : List Float) (s : Test) → t ≡ given s (Ok (area_of (edges v))) Err
        → result ≡ given (s refusing NegativeArea when negative_area v) (Ok (area_of (edges v))) Err }
{
    let area = t?;
    if area < 0.0 {
        return Err(Refusal::NegativeArea);
    }
    Ok(area)
}

// The tests of a query's outline, 1 to 9, with its area.
pub fn outline_verdict(v: &[f64]) -> Result<f64, Refusal>
    ensures { result ≡ given (outline_tested v.now) (Ok (area_of (edges v.now))) Err }
{
    sign_tested(shape_tested(v))
}

// What the tests say, without the area.
pub fn test_of(t: Result<f64, Refusal>) -> Result<(), Refusal>
    ensures { result ≡ test_of t }
{
    t?;
    Ok(())
}

// The tests of a query's outline, for a caller that does not need the area.
pub fn outline_tested(v: &[f64]) -> Result<(), Refusal>
    ensures { result ≡ outline_tested v.now }
{
    test_of(outline_verdict(v))
}

// A test: it refuses with r when `fails` holds.
pub fn refuse_when(fails: bool, r: Refusal) -> Result<(), Refusal>
    ensures { result ≡ (all_passed refusing r when fails) }
{
    if fails { Err(r) } else { Ok(()) }
}
