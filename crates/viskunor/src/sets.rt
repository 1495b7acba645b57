// Queries over a set of outlines. A call gives its refusal's number, or 0, and an answer in the fields
// that it is lent; a refused call puts zeros there and leaves the lent lists as they were.
ghost use Rattle.std.specs.Prelude.{◌≡◌};
ghost use Rattle.index.specs.Buffer.{buffer};
ghost use Rattle.any.specs.Answers.{any_call};
ghost use Rattle.nearest.specs.Answers.{nearest_call};
ghost use Rattle.many.specs.Answers.{lent_as, many_call};

use accept::answers::fields;
use boundary::Point;
use set::outlines::Set;

pub fn vk_set_any_at(
    vertices: &[f64],
    counts: &[u32],
    x: f64,
    y: f64,
    corners: &mut [f64],
    links: &mut [u32],
    items: &mut [u32],
    any: &mut u32,
) -> u32
    ensures { record { answer = record { number = result; value = any.new }; lent = buffer corners.new links.new items.new }
        ≡ any_call vertices.now counts.now (record { x = x; y = y }) (buffer corners.old links.old items.old) }
{
    let set = Set { vertices, counts };
    let answer = any::any_at(&set, Point { x, y }, corners, links, items);
    let (number, value) = fields(answer);
    *any = value;
    number
}

pub fn vk_set_nearest(
    vertices: &[f64],
    counts: &[u32],
    x: f64,
    y: f64,
    corners: &mut [f64],
    links: &mut [u32],
    items: &mut [u32],
    found: &mut u32,
    outline: &mut u32,
    distance: &mut f64,
) -> u32
    ensures { record { answer = record { number = result; found = found.new; outline = outline.new; distance = distance.new }; lent = buffer corners.new links.new items.new }
        ≡ nearest_call vertices.now counts.now (record { x = x; y = y }) (buffer corners.old links.old items.old) }
{
    let set = Set { vertices, counts };
    let answer = nearest::nearest_to(&set, Point { x, y }, corners, links, items);
    let told = nearest::answers::nearest_fields(answer);
    *found = told.found;
    *outline = told.outline;
    *distance = told.distance;
    told.number
}

pub fn vk_set_nearest_many(
    vertices: &[f64],
    counts: &[u32],
    points: &[f64],
    corners: &mut [f64],
    links: &mut [u32],
    items: &mut [u32],
    outlines: &mut [u32],
    distances: &mut [f64],
    found: &mut u32,
) -> u32
    ensures { record { answer = record { number = result; value = found.new }; lent = lent_as corners.new links.new items.new outlines.new distances.new }
        ≡ many_call vertices.now counts.now points.now (lent_as corners.old links.old items.old outlines.old distances.old) }
{
    let set = Set { vertices, counts };
    let answer = many::nearest_many(&set, points, corners, links, items, outlines, distances);
    let (number, value) = fields(answer);
    *found = value;
    number
}
