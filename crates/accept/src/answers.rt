// What an answer puts into the fields of a call: a refusal gives its number, and
// zeros.
ghost use Rattle.std.specs.Prelude.{◌≡◌};
ghost use Rattle.number.specs.Exact.{zeroᶠ};
ghost use Rattle.boundary.specs.Boxes.{cell_of};
ghost use Rattle.accept.specs.Answers.{distance_of, fields_of};

use crate::Refusal;
use boundary::{Bounds, Distance, Point};

// What may be answered: it has zeros, which a refused call puts into its fields.
pub trait Zeros {
    ghost zeros: { Self };

    fn zeros() -> Self
        ensures { result ≡ zeros };
}

// A count or a location.
impl Zeros for u32 {
    ghost zeros = { 0 };

    fn zeros() -> u32 {
        0
    }
}

impl Zeros for f64 {
    ghost zeros = { zeroᶠ };

    fn zeros() -> f64 {
        0.0
    }
}

impl Zeros for Bounds {
    ghost zeros = { cell_of zeroᶠ zeroᶠ zeroᶠ zeroᶠ };

    fn zeros() -> Bounds {
        let origin = Point { x: 0.0, y: 0.0 };
        Bounds {
            min: origin,
            max: origin,
        }
    }
}

impl Zeros for Distance {
    ghost zeros = { distance_of zeroᶠ zeroᶠ zeroᶠ };

    fn zeros() -> Distance {
        Distance {
            d: 0.0,
            v: Point { x: 0.0, y: 0.0 },
        }
    }
}

// The fields of an answer: what the call returns, and what it puts into the fields that it is lent.
pub fn fields<T: Zeros>(answer: Result<T, Refusal>) -> (u32, T)
    ensures { record { number = result.0; value = result.1 } ≡ fields_of T.zeros answer }
{
    match answer {
        Ok(value) => (0, value),
        Err(r) => (u32::from(r), T::zeros()),
    }
}
