// Signs, magnitudes and choices between floats, by IEEE 754. Where std's methods of these names don't promise as
// much, the functions stand here.
ghost use Rattle.std.specs.Prelude.{◌≡◌, if◌then◌else◌, is_nan};
ghost use Rattle.number.specs.Signs.{sign_bit, abs_of, copysign_of, stands_before, min_of, max_of, clamp_of};

// a where c holds, and b where it does not.
pub fn pick(c: bool, a: f64, b: f64) -> f64
    ensures { result ≡ (if c then a else b) }
{
    if c { a } else { b }
}

// Whether x is a NaN.
pub fn is_nan(x: f64) -> bool
    ensures { result ≡ is_nan x }
{
    x.is_nan()
}

// Whether x has its sign bit set; a NaN counts as not, where std's `is_sign_negative` asks for none.
pub fn sign_bit(x: f64) -> bool
    ensures { result ≡ sign_bit x }
{
    if x.is_nan() {
        return false;
    }
    0x8000_0000_0000_0000 <= x.to_bits()
}

// The magnitude of x.
pub fn abs(x: f64) -> f64
    ensures { result ≡ abs_of x }
{
    x.abs()
}

// The magnitude of x with the sign of y, which may be a NaN: std's `copysign` asks for none.
pub fn copysign(x: f64, y: f64) -> f64
    ensures { result ≡ copysign_of x y }
{
    pick(sign_bit(x) != sign_bit(y), -x, x)
}

// Whether a is less than b, or equals it with the sign bit set.
fn is_before(a: f64, b: f64) -> bool
    ensures { result ≡ stands_before a b }
{
    (a < b) | ((a == b) & sign_bit(a))
}

// The lesser of two, -0 below +0, and a number before a NaN; std's `min` leaves open which of two zeros it gives.
pub fn min(a: f64, b: f64) -> f64
    ensures { result ≡ min_of a b }
{
    pick(a.is_nan(), b, pick(b.is_nan() | is_before(a, b), a, b))
}

// The greater of two, in the same way.
pub fn max(a: f64, b: f64) -> f64
    ensures { result ≡ max_of a b }
{
    pick(a.is_nan(), b, pick(b.is_nan() | is_before(b, a), a, b))
}

// x, or the bound that it is past; lo may be above hi, which std's `clamp` does not take.
pub fn clamp(x: f64, lo: f64, hi: f64) -> f64
    ensures { result ≡ clamp_of x lo hi }
{
    pick(x < lo, lo, pick(hi < x, hi, x))
}
