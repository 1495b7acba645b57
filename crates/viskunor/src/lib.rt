// Every operation as a host calls it. The work stands in the crates below. The crate viskunor_c exports these
// functions to C; include/viskunor.h declares them and says what they do in plain words. Their parameters stand one by
// one, and yes and no are 1 and 0, as C has them.
#![tactic(auto)]

pub mod ellipses;
pub mod fills;
pub mod indexes;
pub mod outlines;
pub mod sets;
pub mod streams;

ghost use Rattle.std.specs.Prelude.{◌≡◌};
ghost use Rattle.number.specs.Root.{sqrt_of};
ghost use Rattle.number.specs.Hypot.{hypot_of};

// The double nearest to the exact square root.
pub fn vk_sqrt(x: f64) -> f64
    ensures { result ≡ sqrt_of x }
{
    number::root::sqrt(x)
}

// The square root of a * a + b * b, each operation rounded once.
pub fn vk_hypot(a: f64, b: f64) -> f64
    ensures { result ≡ hypot_of a b }
{
    number::root::hypot(a, b)
}
