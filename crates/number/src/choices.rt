// The maximum and the clamp where it is known from where the numbers come, by comparisons alone.
ghost use Rattle.std.specs.Prelude.{◌≡◌, true, false, T};
ghost use Rattle.std.specs.Float.Ieee.{le, eq};
ghost use Rattle.number.specs.Signs.{abs_of, max_of, clamp_of};
ghost use Rattle.number.specs.Exact.{zeroᶠ, one};

use crate::signs::pick;

// The larger of s, which is 1 at least, and the magnitude of y. Where s is that large, the sign of a zero y does not show.
pub fn larger(s: f64, y: f64) -> f64
    requires { T (le one s) }
    ensures { (result ≡ max_of s (abs_of y)) × T (le one result) }
{
    let m = pick(y < 0.0, -y, y);
    pick(s < m, m, s)
}

// Whether t clamped to 0..1 is 1.
pub fn clamps_to_one(t: f64) -> bool
    ensures { result ≡ eq (clamp_of t zeroᶠ one) one }
{
    t >= 1.0
}

// Whether t, which is not clamped to 1, is itself when it is clamped to 0..1; else it is 0 then.
pub fn clamps_to_itself(t: f64) -> bool
    requires { eq (clamp_of t zeroᶠ one) one ≡ false }
    ensures { (result ≡ true → clamp_of t zeroᶠ one ≡ t) × (result ≡ false → clamp_of t zeroᶠ one ≡ zeroᶠ) }
{
    !(t < 0.0)
}
