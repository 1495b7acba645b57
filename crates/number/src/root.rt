// The square root and the length of a vector, of `f64`s.
ghost use Rattle.std.specs.Prelude.{◌≡◌, ◌+◌, ◌-◌, ◌*◌, ◌^◌, ◌<◌, ◌≤◌, true, ◌&&◌, nat_lt};
ghost use Rattle.std.specs.Float.Ieee.{le, lt};
ghost use Rattle.number.specs.Root.{root_of, sqrt_of, NearestWhole};
ghost use Rattle.number.specs.Hypot.{hypot_of, square_least, square_end, clearly_less, clear_limit, Short};
ghost use Rattle.number.specs.Signs.{abs_of};

use crate::signs::{abs, pick};

// 2^-511 and 2^512.
const SQUARE_LEAST: f64 = 1.4916681462400413e-154;

const SQUARE_END: f64 = 1.3407807929942597e154;

// 1 + 2^-40 and 2^-900.
const SLACK: f64 = 1.0000000000009095;

const TINY: f64 = 1.1830521861667747e-271;

// A number of up to 106 bits: hi * 2^52 + lo.
#[derive(Clone, Copy)]
struct Wide {
    hi: u64,
    lo: u64,
}

// q * q, by halves of 26 bits.
fn square(q: u64) -> Wide
    requires { q < 2 ^ 53 }
    ensures { (result.hi * 2 ^ 52 + result.lo ≡ q * q) × (result.lo < 2 ^ 52) × (result.hi < 2 ^ 54) }
{
    let a = q / 0x400_0000;
    let b = q % 0x400_0000;
    let bb = b * b;
    let m = 2 * (a * b) + bb / 0x400_0000;
    let hi = a * a + m / 0x400_0000;
    let lo = m % 0x400_0000 * 0x400_0000 + bb % 0x400_0000;
    Wide { hi, lo }
}

// Whether q's square is below c * 2^52 + q: whether the root is above q - 1/2.
fn is_low(c: u64, q: u64) -> bool
    requires { (c < 2 ^ 54) × (q < 2 ^ 53) }
    ensures { result ≡ nat_lt (q * q) (c * 2 ^ 52 + q) }
{
    let s = square(q);
    s.hi + (s.lo + (0x20_0000_0000_0000 - q)) / 0x10_0000_0000_0000 < c + 2
}

// Whether q's square is within q of c * 2^52, so that q is the whole number nearest to the root. With a and b the
// upper 27 and the lower 26 bits of q, c * 2^52 - q * q is (c - a * a) * 2^52 - 2 * a * b * 2^26 - b * b; the first
// two differences have to be small, and the third is compared.
fn is_root(c: u64, q: u64) -> bool
    requires { (c < 2 ^ 54) × (q < 2 ^ 53) }
    ensures { result ≡ true → NearestWhole c q }
{
    let a = q / 0x400_0000;
    let b = q % 0x400_0000;
    let e = c.wrapping_sub(a * a);
    if e < 0x10_0000_0000 {
        let f = (e * 0x400_0000 + 0x4000_0000).wrapping_sub(2 * (a * b));
        if f < 0x8000_0000 {
            let m = f * 0x400_0000 + q;
            let n = b * b + 0x100_0000_0000_0000;
            return (n < m) & (m <= n + 2 * q);
        }
    }
    false
}

// The nearest root by bisection: 52 turns.
fn bisect(c: u64) -> u64
    requires { (2 ^ 52 ≤ c) × (c ≤ 2 ^ 54 - 2) }
    ensures { NearestWhole c result }
{
    let mut lo: u64 = 0x10_0000_0000_0000;
    let mut hi: u64 = 0x20_0000_0000_0000;
    while hi - lo > 1 {
        let mid = lo + (hi - lo) / 2;
        if is_low(c, mid) {
            lo = mid;
        } else {
            hi = mid;
        }
    }
    lo
}

// A guess at the root of the number z whose bits are i. The bit trick for 1 / √z and two steps of Newton's method
// give the root's upper 26 digits u, whose square is exact, and z - u * u the rest. Nothing is claimed of it.
fn guess(i: u64) -> f64
    requires { i ≤ 2047 * 2 ^ 52 }
{
    let z = f64::from_bits(i);
    let y0 = f64::from_bits(0x5fe6_ed21_02dc_bfda - i / 2);
    let h = z * 0.5;
    let y1 = 1.50087895511633457 * y0 - h * y0 * (y0 * y0);
    let y2 = 1.50000057967625766 * y1 - h * y1 * (y1 * y1);
    let s = z * y2;
    if s > 0.0 {
        let b = s.to_bits();
        let u = f64::from_bits(b - b % 0x800_0000);
        let k = 0.5 * y2;
        let d = z - u * u;
        return u + d * k * (2.0 - u * y2 - d * (k * k));
    }
    s
}

// The whole number nearest to the root of d * 2^52: q where a check proves it, or else a neighbour of q that it
// does, or else by bisection.
fn nearest_root(d: u64, q: u64) -> u64
    requires { (2 ^ 52 ≤ d) × (d ≤ 2 ^ 54 - 2) × (2 ^ 52 ≤ q) × (q < 2 ^ 53) }
    ensures { NearestWhole d result }
{
    if is_root(d, q) {
        return q;
    }
    if q < 0x1f_ffff_ffff_ffff {
        if is_root(d, q + 1) {
            return q + 1;
        }
    }
    if is_root(d, q - 1) {
        return q - 1;
    }
    bisect(d)
}

// The root of c * 2^(w + 52) / 2^1200, rounded once. Its digits are the guess q where a check proves them, or else those
// of the nearest root.
fn root_by_digits(c: u64, w: u64, q: u64) -> f64
    requires { (2 ^ 52 ≤ c) × (c < 2 ^ 53) × (2 ≤ w) × (w ≤ 2119) × (2 ^ 52 ≤ q) × (q < 2 ^ 53) }
    ensures { result ≡ root_of (c * 2 ^ (w + 52)) }
{
    let d = c * (1 + w % 2);
    f64::from_bits((w / 2 + 474) * 0x10_0000_0000_0000 + nearest_root(d, q))
}

// The same. The guess at the root of the number whose bits are i is the answer where it has the right exponent and a
// check proves its digits.
fn root_of(c: u64, w: u64, i: u64) -> f64
    requires { (2 ^ 52 ≤ c) × (c < 2 ^ 53) × (2 ≤ w) × (w ≤ 2119) × (i ≤ 2047 * 2 ^ 52) }
    ensures { result ≡ root_of (c * 2 ^ (w + 52)) }
{
    let d = c * (1 + w % 2);
    let g = guess(i);
    if g > 0.0 {
        let r = g.to_bits();
        let q = r % 0x10_0000_0000_0000 + 0x10_0000_0000_0000;
        if r / 0x10_0000_0000_0000 == w / 2 + 475 {
            if is_root(d, q) {
                return f64::from_bits(r);
            }
        }
        return root_by_digits(c, w, q);
    }
    root_by_digits(c, w, 0x10_0000_0000_0000)
}

// The double nearest to the exact root. (std's `sqrt` is the machine's own instruction: that it rounds rightly would
// be taken on trust, where this is proved.)
pub fn sqrt(x: f64) -> f64
    ensures { result ≡ sqrt_of x }
{
    if x > 0.0 {
        if x < f64::INFINITY {
            let b = x.to_bits();
            let e = b / 0x10_0000_0000_0000;
            let t = b % 0x10_0000_0000_0000;
            if e == 0 {
                let l = u64::from(t.leading_zeros() - 11);
                let c = t << l;
                let i = (1022 + l % 2) * 0x10_0000_0000_0000 + c;
                return root_of(c, 74 - l, i);
            }
            return root_of(t + 0x10_0000_0000_0000, e + 73, b);
        }
        return x;
    }
    pick(x == 0.0, x, f64::NAN)
}

// Whether the square of x neither underflows nor overflows.
fn squares(x: f64) -> bool
    ensures { result ≡ (le square_least (abs_of x) && lt (abs_of x) square_end) }
{
    let m = abs(x);
    (SQUARE_LEAST <= m) & (m < SQUARE_END)
}

// The length of (a, b). Along an axis it needs no root.
pub fn hypot(a: f64, b: f64) -> f64
    ensures { result ≡ hypot_of a b }
{
    if b == 0.0 && squares(a) {
        return abs(a);
    }
    if a == 0.0 && squares(b) {
        return abs(b);
    }
    sqrt(a * a + b * b)
}

// Whether s is so far below t that the lengths whose squares they are differ too.
pub fn clearly_less(s: f64, t: f64) -> bool
    ensures { result ≡ clearly_less s t }
{
    (TINY < t) & (SLACK * s < t)
}

// What is above this is so far above s.
pub fn clear_limit(s: f64) -> f64
    ensures { result ≡ clear_limit s }
{
    let u = SLACK * s;
    pick(TINY < u, u, TINY)
}

// Whether hypot(a, b) is below hypot(c, d): by the squares, and by the roots only where those are close
// and not of the same numbers.
pub fn hypot_less(a: f64, b: f64, c: f64, d: f64) -> bool
    requires { Short a × Short b × Short c × Short d }
    ensures { result ≡ lt (hypot_of a b) (hypot_of c d) }
{
    if (a == c) & (b == d) {
        return false;
    }
    let s = a * a + b * b;
    let t = c * c + d * d;
    if clearly_less(s, t) {
        return true;
    }
    if clearly_less(t, s) {
        return false;
    }
    hypot(a, b) < hypot(c, d)
}
