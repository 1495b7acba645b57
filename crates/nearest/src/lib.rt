// `nearest` (index.rs) over a set of outlines.
// The lists of an index buffer that are written to stand one by one (see nodes::build).
#![tactic(auto)]

pub mod answers;

ghost use Rattle.std.specs.Prelude.{◌≡◌, true, ◌*◌, ◌<◌, ◌≤◌, length};
ghost use Rattle.boundary.specs.Boxes.{point_in_field};
ghost use Rattle.index.specs.Buffer.{buffer};
ghost use Rattle.set.specs.Set.{outlines_of};
ghost use Rattle.set.specs.Answers.{worked, Ready, SetSpace};
ghost use Rattle.search.specs.Least.{least_in};
ghost use Rattle.nearest.specs.Nearest.{nearest_in};
ghost use Rattle.nearest.specs.Answers.{nearest_outcome};

use accept::Refusal;
use boundary::Point;
use index::building;
use nodes::IndexView;
use search::{Best, SetView};
use set::frame;
use set::outlines::{self, Set};
use set::refusals::query_tested;

// What the query returns, and what it puts into its answer fields.
#[derive(Drop)]
pub struct NearestFields {
    pub number: u32,
    pub found: u32,
    pub outline: u32,
    pub distance: f64,
}

// The nearest of the outlines of a set that passed the tests: its index is built in the lent buffers, and
// cleared. The lists of starts and boxes are lent to work in.
fn found_in(
    set: &Set,
    p: Point,
    starts: &mut [u32],
    boxes: &mut [f64],
    corners: &mut [f64],
    links: &mut [u32],
    items: &mut [u32],
) -> Best
    requires { Ready set.now.vertices.now set.now.counts.now (buffer corners.old links.old items.old) × (point_in_field p ≡ true)
        × SetSpace set.now.counts.now starts.old boxes.old }
    ensures { record { answer = result; lent = buffer corners.new links.new items.new }
        ≡ worked (least_in (outlines_of set.now.vertices.now set.now.counts.now) p) (buffer corners.old links.old items.old) }
{
    boundary::all_held(set.vertices);
    outlines::put_starts(set.counts, starts);
    frame::index_in(set, boxes, corners, links, items);
    let view = SetView {
        set: *set,
        starts,
        boxes,
    };
    let index = IndexView {
        corners,
        links,
        items,
    };
    let best = search::search(&view, &index, p);
    building::clear(corners, links, items);
    best
}

// The same, with its own space for S starts and B numbers of the boxes.
fn found_within<const S: usize, const B: usize>(
    set: &Set,
    p: Point,
    corners: &mut [f64],
    links: &mut [u32],
    items: &mut [u32],
) -> Best
    requires { Ready set.now.vertices.now set.now.counts.now (buffer corners.old links.old items.old) × (point_in_field p ≡ true)
        × (0 < length set.now.counts.now) × (length set.now.counts.now ≤ S) × (4 * S ≡ B) × (B ≤ 4096) }
    ensures { record { answer = result; lent = buffer corners.new links.new items.new }
        ≡ worked (least_in (outlines_of set.now.vertices.now set.now.counts.now) p) (buffer corners.old links.old items.old) }
{
    let mut starts = [0; S];
    let mut boxes = [0.0; B];
    found_in(set, p, &mut starts, &mut boxes, corners, links, items)
}

// The same. The space is that of 32 outlines, where it is enough, since it is filled with zeros first.
fn found(set: &Set, p: Point, corners: &mut [f64], links: &mut [u32], items: &mut [u32]) -> Best
    requires { Ready set.now.vertices.now set.now.counts.now (buffer corners.old links.old items.old) × (point_in_field p ≡ true)
        × (0 < length set.now.counts.now) }
    ensures { record { answer = result; lent = buffer corners.new links.new items.new }
        ≡ worked (least_in (outlines_of set.now.vertices.now set.now.counts.now) p) (buffer corners.old links.old items.old) }
{
    if set.counts.len() <= 32 {
        return found_within::<32, 128>(set, p, corners, links, items);
    }
    found_within::<1024, 4096>(set, p, corners, links, items)
}

// The answer over a set that passed the tests: none where it is empty.
fn answered(
    set: &Set,
    p: Point,
    corners: &mut [f64],
    links: &mut [u32],
    items: &mut [u32],
) -> Option<Best>
    requires { Ready set.now.vertices.now set.now.counts.now (buffer corners.old links.old items.old) × (point_in_field p ≡ true) }
    ensures { record { answer = result; lent = buffer corners.new links.new items.new }
        ≡ worked (nearest_in (outlines_of set.now.vertices.now set.now.counts.now) p) (buffer corners.old links.old items.old) }
{
    if set.counts.len() == 0 {
        building::clear(corners, links, items);
        return None;
    }
    Some(found(set, p, corners, links, items))
}

// The outline of the set with the least magnitude of its distance from p, the lowest number among equals.
pub fn nearest_to(
    set: &Set,
    p: Point,
    corners: &mut [f64],
    links: &mut [u32],
    items: &mut [u32],
) -> Result<Option<Best>, Refusal>
    ensures { record { answer = result; lent = buffer corners.new links.new items.new }
        ≡ nearest_outcome set.now.vertices.now set.now.counts.now p (buffer corners.old links.old items.old) }
{
    query_tested(set, p, corners, links, items)?;
    Ok(answered(set, p, corners, links, items))
}
