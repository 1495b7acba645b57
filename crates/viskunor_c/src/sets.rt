// Queries over a set of outlines. A call gives its refusal's number, or 0, and an answer in the fields
// that it is lent; a refused call puts zeros there and leaves the lent lists as they were.
ghost use Rattle.std.specs.Prelude.{◌≡◌};
ghost use Rattle.index.specs.Buffer.{buffer};
ghost use Rattle.any.specs.Answers.{any_call};
ghost use Rattle.nearest.specs.Answers.{nearest_call};
ghost use Rattle.many.specs.Answers.{lent_as, many_call};

#[unsafe(no_mangle)]
pub extern "C" fn vk_set_any_at(
    vertices: &[f64],
    counts: &[u32],
    x: f64,
    y: f64,
    corners: &mut [f64],
    links: &mut [u32],
    items: &mut [u32],
    any: &mut u32,
) -> u32
    ensures { record { answer = record { number = result; value = any.new }; lent = buffer corners.new links.new items.new }
        ≡ any_call vertices.now counts.now (record { x = x; y = y }) (buffer corners.old links.old items.old) }
{
    viskunor::sets::vk_set_any_at(vertices, counts, x, y, corners, links, items, any)
}

#[unsafe(no_mangle)]
pub extern "C" fn vk_set_nearest(
    vertices: &[f64],
    counts: &[u32],
    x: f64,
    y: f64,
    corners: &mut [f64],
    links: &mut [u32],
    items: &mut [u32],
    found: &mut u32,
    outline: &mut u32,
    distance: &mut f64,
) -> u32
    ensures { record { answer = record { number = result; found = found.new; outline = outline.new; distance = distance.new }; lent = buffer corners.new links.new items.new }
        ≡ nearest_call vertices.now counts.now (record { x = x; y = y }) (buffer corners.old links.old items.old) }
{
    viskunor::sets::vk_set_nearest(
        vertices, counts, x, y, corners, links, items, found, outline, distance,
    )
}

#[unsafe(no_mangle)]
pub extern "C" fn vk_set_nearest_many(
    vertices: &[f64],
    counts: &[u32],
    points: &[f64],
    corners: &mut [f64],
    links: &mut [u32],
    items: &mut [u32],
    outlines: &mut [u32],
    distances: &mut [f64],
    found: &mut u32,
) -> u32
    ensures { record { answer = record { number = result; value = found.new }; lent = lent_as corners.new links.new items.new outlines.new distances.new }
        ≡ many_call vertices.now counts.now points.now (lent_as corners.old links.old items.old outlines.old distances.old) }
{
    viskunor::sets::vk_set_nearest_many(
        vertices, counts, points, corners, links, items, outlines, distances, found,
    )
}
