// Boxes around points and boxes.
ghost use Rattle.std.specs.Prelude.{◌≡◌};
ghost use Rattle.boundary.specs.Boxes.{hull, empty_box, stretched};

use crate::{Bounds, Point, greater_of, lesser_of};

// The box around two boxes.
pub fn around(a: Bounds, b: Bounds) -> Bounds
    ensures { result ≡ hull a b }
{
    Bounds {
        min: Point {
            x: lesser_of(a.min.x, b.min.x),
            y: lesser_of(a.min.y, b.min.y),
        },
        max: Point {
            x: greater_of(a.max.x, b.max.x),
            y: greater_of(a.max.y, b.max.y),
        },
    }
}

// The box with nothing in it.
pub fn empty_box() -> Bounds
    ensures { result ≡ empty_box }
{
    let top = 1.0 / 0.0;
    Bounds {
        min: Point { x: top, y: top },
        max: Point { x: -top, y: -top },
    }
}

// The box stretched to p.
pub fn stretch(b: Bounds, p: Point) -> Bounds
    ensures { result ≡ stretched b p }
{
    around(b, Bounds { min: p, max: p })
}
