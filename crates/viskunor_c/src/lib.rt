// The exports to C: each calls the function of the crate viskunor that has its name, and promises what that
// promises. include/viskunor.h declares them and says what they do in plain words.
#![tactic(auto)]

pub mod ellipses;
pub mod fills;
pub mod indexes;
pub mod outlines;
pub mod sets;
pub mod streams;

ghost use Rattle.std.specs.Prelude.{◌≡◌};
ghost use Rattle.number.specs.Root.{sqrt_of};
ghost use Rattle.number.specs.Hypot.{hypot_of};

// The double nearest to the exact square root.
#[unsafe(no_mangle)]
pub extern "C" fn vk_sqrt(x: f64) -> f64
    ensures { result ≡ sqrt_of x }
{
    viskunor::vk_sqrt(x)
}

// The square root of a * a + b * b, each operation rounded once.
#[unsafe(no_mangle)]
pub extern "C" fn vk_hypot(a: f64, b: f64) -> f64
    ensures { result ≡ hypot_of a b }
{
    viskunor::vk_hypot(a, b)
}
