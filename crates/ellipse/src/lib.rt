// A whole ellipse: its tests and its nearest point, with the laws that it is finite and on the side of the query.
#![tactic(auto)]

ghost use Rattle.std.specs.Prelude.{◌≡◌};
ghost use Rattle.ellipse.specs.Ellipse.{axis_fits, offset_fits, ellipse_fits, ellipse_tested, ellipse_answer};

use accept::Refusal;
use accept::refusals::{point_in_field, refuse_when};
use boundary::{Distance, Point};
use distance::Piece;

// 2^-10 and 2^-20.
const LEAST_AXIS: f64 = 0.0009765625;

const LEAST_OFFSET: f64 = 0.00000095367431640625;

fn axis_fits(a: f64) -> bool
    ensures { result ≡ axis_fits a }
{
    (LEAST_AXIS <= a) & (a <= 1024.0)
}

// Whether p - c is zero or large enough.
fn offset_fits(c: f64, p: f64) -> bool
    ensures { result ≡ offset_fits c p }
{
    let d = p - c;
    (d == 0.0) | (LEAST_OFFSET <= number::signs::abs(d))
}

// Whether test 12 is passed.
fn ellipse_fits(c: Point, a: f64, b: f64, p: Point) -> bool
    ensures { result ≡ ellipse_fits c a b p }
{
    (axis_fits(a) & axis_fits(b)) & (offset_fits(c.x, p.x) & offset_fits(c.y, p.y))
}

// Test 10 of the point and of the centre, then test 12.
fn ellipse_tested(c: Point, a: f64, b: f64, p: Point) -> Result<(), Refusal>
    ensures { result ≡ ellipse_tested c a b p }
{
    refuse_when(!point_in_field(p), Refusal::BadPoint)?;
    refuse_when(!point_in_field(c), Refusal::BadPoint)?;
    refuse_when(!ellipse_fits(c, a, b, p), Refusal::BadEllipse)
}

// The point nearest to p of the ellipse with centre c and semi-axes a along x and b along y.
pub fn ellipse_nearest(c: Point, a: f64, b: f64, p: Point) -> Result<Distance, Refusal>
    ensures { result ≡ ellipse_answer c a b p }
{
    ellipse_tested(c, a, b, p)?;
    let near = Piece::Ellipse { c, a, b }.nearest(p);
    let v = near.q;
    Ok(Distance { d: near.d, v })
}
