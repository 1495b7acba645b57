// The nearest point of an ellipse whose axes lie along x and y, in the Rust's order of operations.
ghost use Rattle.std.specs.Prelude.{◌≡◌};
ghost use Rattle.distance.specs.Ellipse.{excess, curve_at, halved_of, upper_end, curve_of, root_in, foot_at, off_axes, on_axis, quadrant_nearest, long_nearest, ellipse_nearest, ellipse_foot, ellipse_near};

use crate::Curve;
use boundary::{Near, Point, middle_of};
use number::root::{hypot, sqrt};
use number::signs::{abs, copysign, max};

fn excess_of(x: f64, y: f64) -> f64
    ensures { result ≡ excess x y }
{
    x * x + y * y - 1.0
}

// G(s).
fn curve_at(c: Curve, s: f64) -> f64
    ensures { result ≡ curve_at c s }
{
    excess_of(c.n0 / (s + c.r0), c.z1 / (s + 1.0))
}

// The root of G from a to b.
fn halved(c: Curve, a: f64, b: f64) -> f64
    ensures { result ≡ halved_of c a b }
{
    let mut s0 = a;
    let mut s1 = b;
    let mut s = a;
    for _ in 0..1100u32 {
        s = middle_of(s0, s1);
        if (s == s0) | (s == s1) {
            return s;
        }
        let gs = curve_at(c, s);
        if gs > 0.0 {
            s0 = s;
        } else if gs < 0.0 {
            s1 = s;
        } else {
            return s;
        }
    }
    s
}

fn upper_end(g: f64, n0: f64, z1: f64) -> f64
    ensures { result ≡ upper_end g n0 z1 }
{
    if g < 0.0 {
        return 0.0;
    }
    hypot(n0, z1) - 1.0
}

fn curve_of(a: f64, b: f64, z0: f64, z1: f64) -> Curve
    ensures { result ≡ curve_of a b z0 z1 }
{
    let r0 = (a / b) * (a / b);
    Curve {
        n0: r0 * z0,
        r0,
        z1,
    }
}

fn root_in(c: Curve, g: f64) -> f64
    ensures { result ≡ root_in c g }
{
    halved(c, c.z1 - 1.0, upper_end(g, c.n0, c.z1))
}

// The point that a root s stands for.
fn foot_at(r0: f64, y0: f64, y1: f64, s: f64) -> Point
    ensures { result ≡ foot_at r0 y0 y1 s }
{
    Point {
        x: r0 * y0 / (s + r0),
        y: y1 / (s + 1.0),
    }
}

// The nearest point to one off both axes.
fn off_axes(a: f64, b: f64, y0: f64, y1: f64) -> Point
    ensures { result ≡ off_axes a b y0 y1 }
{
    let z0 = y0 / a;
    let z1 = y1 / b;
    let g = excess_of(z0, z1);
    if g == 0.0 {
        return Point { x: y0, y: y1 };
    }
    let c = curve_of(a, b, z0, z1);
    foot_at(c.r0, y0, y1, root_in(c, g))
}

// The nearest point to one on the longer axis.
fn on_axis(a: f64, b: f64, y0: f64) -> Point
    ensures { result ≡ on_axis a b y0 }
{
    let numer = a * y0;
    let denom = a * a - b * b;
    if numer < denom {
        let x = a * a * y0 / denom;
        let xa = x / a;
        return Point {
            x,
            y: b * sqrt(max(1.0 - xa * xa, 0.0)),
        };
    }
    Point { x: a, y: 0.0 }
}

fn quadrant_nearest(a: f64, b: f64, y0: f64, y1: f64) -> Point
    ensures { result ≡ quadrant_nearest a b y0 y1 }
{
    if y1 > 0.0 {
        if y0 > 0.0 {
            return off_axes(a, b, y0, y1);
        }
        return Point { x: 0.0, y: b };
    }
    on_axis(a, b, y0)
}

// Where a is b at least: the first quadrant, the signs restored.
fn long_nearest(a: f64, b: f64, p: Point) -> Point
    ensures { result ≡ long_nearest a b p }
{
    let q = quadrant_nearest(a, b, abs(p.x), abs(p.y));
    Point {
        x: copysign(q.x, p.x),
        y: copysign(q.y, p.y),
    }
}

// The point of the ellipse (x/a)² + (y/b)² = 1 nearest to p.
pub fn ellipse_nearest(a: f64, b: f64, p: Point) -> Point
    ensures { result ≡ ellipse_nearest a b p }
{
    if a < b {
        let q = ellipse_nearest(b, a, Point { x: p.y, y: p.x });
        return Point { x: q.y, y: q.x };
    }
    long_nearest(a, b, p)
}

fn ellipse_foot(c: Point, a: f64, b: f64, p: Point) -> Point
    ensures { result ≡ ellipse_foot c a b p }
{
    let d = Point {
        x: p.x - c.x,
        y: p.y - c.y,
    };
    let q = ellipse_nearest(a, b, d);
    Point {
        x: c.x + q.x,
        y: c.y + q.y,
    }
}

// The nearest point of the ellipse with centre c and semi-axes a and b, and its distance.
pub fn ellipse_near(c: Point, a: f64, b: f64, p: Point) -> Near
    ensures { result ≡ ellipse_near c a b p }
{
    let q = ellipse_foot(c, a, b, p);
    Near {
        d: hypot(p.x - q.x, p.y - q.y),
        q,
        n: Point { x: 1.0, y: 0.0 },
    }
}
