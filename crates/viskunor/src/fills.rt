// The fill of a cell by an outline. The call gives its refusal's number, or 0, and the fill; a refused call
// puts zero there. The lent buffer is working space of two halves, which hold zeros afterwards; a refused
// call leaves it as it was, but for refusal 14.
ghost use Rattle.std.specs.Prelude.{◌≡◌};
ghost use Rattle.boundary.specs.Boxes.{cell_of};
ghost use Rattle.fill.specs.Answers.{fill_call};

use accept::answers::fields;
use boundary::{Bounds, Point};

pub fn vk_outline_fill(
    vertices: &[f64],
    min_x: f64,
    min_y: f64,
    max_x: f64,
    max_y: f64,
    work: &mut [f64],
    fill: &mut f64,
) -> u32
    ensures { record { answer = record { number = result; value = fill.new }; lent = work.new }
        ≡ fill_call vertices.now (cell_of min_x min_y max_x max_y) work.old }
{
    let cell = Bounds {
        min: Point { x: min_x, y: min_y },
        max: Point { x: max_x, y: max_y },
    };
    let (number, value) = fields(fill::fill(vertices, cell, work));
    *fill = value;
    number
}
