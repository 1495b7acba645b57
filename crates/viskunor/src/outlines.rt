// Outlines: making, area, perimeter, bounds, containment, location and distance. A call gives its
// refusal's number, or 0, and an answer in the fields that it is lent; a refused call puts zeros there.
ghost use Rattle.std.specs.Prelude.{◌≡◌};
ghost use Rattle.boundary.specs.Boxes.{cell_of};
ghost use Rattle.accept.specs.Answers.{count_fields, measure_fields, box_fields, distance_of, distance_fields};
ghost use Rattle.geometry.specs.Answers.{area_answer, perimeter_answer, bounds_answer, contains_answer, locate_answer, distance_answer};
ghost use Rattle.geometry.specs.Making.{make_call};

use accept::answers::fields;
use boundary::Point;

pub fn vk_outline_make(vertices: &[f64], made: &mut [f64], count: &mut u32) -> u32
    ensures { record { answer = record { number = result; value = count.new }; lent = made.new }
        ≡ make_call vertices.now made.old }
{
    let (number, value) = fields(geometry::polygon::new(vertices, made));
    *count = value;
    number
}

pub fn vk_outline_area(vertices: &[f64], area: &mut f64) -> u32
    ensures { record { number = result; value = area.new } ≡ measure_fields (area_answer vertices.now) }
{
    let (number, value) = fields(geometry::polygon::area(vertices));
    *area = value;
    number
}

pub fn vk_outline_perimeter(vertices: &[f64], perimeter: &mut f64) -> u32
    ensures { record { number = result; value = perimeter.new } ≡ measure_fields (perimeter_answer vertices.now) }
{
    let (number, value) = fields(geometry::polygon::perimeter(vertices));
    *perimeter = value;
    number
}

pub fn vk_outline_bounds(
    vertices: &[f64],
    min_x: &mut f64,
    min_y: &mut f64,
    max_x: &mut f64,
    max_y: &mut f64,
) -> u32
    ensures { record { number = result; value = cell_of min_x.new min_y.new max_x.new max_y.new }
        ≡ box_fields (bounds_answer vertices.now) }
{
    let (number, value) = fields(geometry::polygon::bounds(vertices));
    *min_x = value.min.x;
    *min_y = value.min.y;
    *max_x = value.max.x;
    *max_y = value.max.y;
    number
}

pub fn vk_outline_contains(vertices: &[f64], x: f64, y: f64, inside: &mut u32) -> u32
    ensures { record { number = result; value = inside.new } ≡ count_fields (contains_answer vertices.now (record { x = x; y = y })) }
{
    let (number, value) = fields(geometry::polygon::contains(vertices, Point { x, y }));
    *inside = value;
    number
}

pub fn vk_outline_locate(vertices: &[f64], x: f64, y: f64, location: &mut u32) -> u32
    ensures { record { number = result; value = location.new } ≡ count_fields (locate_answer vertices.now (record { x = x; y = y })) }
{
    let (number, value) = fields(geometry::polygon::locate(vertices, Point { x, y }));
    *location = value;
    number
}

pub fn vk_outline_distance(
    vertices: &[f64],
    x: f64,
    y: f64,
    distance: &mut f64,
    normal_x: &mut f64,
    normal_y: &mut f64,
) -> u32
    ensures { record { number = result; value = distance_of distance.new normal_x.new normal_y.new }
        ≡ distance_fields (distance_answer vertices.now (record { x = x; y = y })) }
{
    let (number, value) = fields(geometry::polygon::distance(vertices, Point { x, y }));
    *distance = value.d;
    *normal_x = value.v.x;
    *normal_y = value.v.y;
    number
}
