// The nearest outline for each of many points: the set is tested once, its index built once.
// The lists of an index buffer that are written to stand one by one (see nodes::build).
#![tactic(auto)]

ghost use Rattle.std.specs.Prelude.{◌≡◌, ◌<◌, length};
ghost use Rattle.index.specs.Buffer.{buffer};
ghost use Rattle.set.specs.Set.{outlines_of};
ghost use Rattle.set.specs.Answers.{SetSpace};
ghost use Rattle.search.specs.Walk.{Searched};
ghost use Rattle.many.specs.Answers.{answer_lists, lent_as, bad_point_count, any_bad_point, many_tested, answers_of, with_answers, many_worked, many_outcome};
ghost use Rattle.many.specs.Work.{many_left, ManyReady, RoomFor, AllAsked};

use accept::Refusal;
use accept::refusals::{point_in_field, refuse_when};
use boundary::vertex_at;
use index::building;
use index::refusals::short_index;
use nodes::IndexView;
use search::heap::Waiting;
use search::{SetView, search_in};
use set::frame;
use set::outlines::{Set, put_starts};
use set::refusals::set_tested;

// Test 15.
fn bad_point_count(ps: &[f64]) -> bool
    ensures { result ≡ bad_point_count ps.now }
{
    (ps.len() % 2 == 1) | (256 < ps.len() / 2)
}

// Test 10, over all points. By place: a closure for `lists::any` would owe that the place is one of the list.
fn any_bad_point(ps: &[f64]) -> bool
    ensures { result ≡ any_bad_point ps.now }
{
    let n = ps.len() / 2;
    let mut found = false;
    for i in 0..n {
        found = found | !point_in_field(vertex_at(ps, i));
    }
    found
}

// The tests, 13 the last, of lists for the answers of so many places.
fn tested(
    set: &Set,
    ps: &[f64],
    corners: &[f64],
    links: &[u32],
    items: &[u32],
    near: &[u32],
    distances: &[f64],
) -> Result<(), Refusal>
    ensures { result ≡ many_tested set.now.vertices.now set.now.counts.now ps.now
        (lent_as corners.now links.now items.now near.now distances.now) }
{
    set_tested(set)?;
    refuse_when(bad_point_count(ps), Refusal::BadPointCount)?;
    refuse_when(any_bad_point(ps), Refusal::BadPoint)?;
    let short = short_index(corners.len(), links.len(), items.len());
    refuse_when(short, Refusal::ShortBuffer)?;
    let few = (near.len() < 256) | (distances.len() < 256);
    refuse_when(few, Refusal::ShortBuffer)
}

// Puts the number and the distance of each point's nearest outline at the point's place of the two lists, by
// searches of an index of the set, with a heap that is lent to each.
fn put_answers_in(
    view: &SetView,
    index: &IndexView,
    ps: &[f64],
    waiting: &mut Waiting<512>,
    near: &mut [u32],
    distances: &mut [f64],
)
    requires { AllAsked view.now.set.vertices.now view.now.set.counts.now view.now.starts.now view.now.boxes.now ps.now
        × Searched (outlines_of view.now.set.vertices.now view.now.set.counts.now) (buffer index.now.corners.now index.now.links.now index.now.items.now)
        × RoomFor ps.now (answer_lists near.old distances.old) }
    ensures { answer_lists near.new distances.new
        ≡ with_answers (answers_of (outlines_of view.now.set.vertices.now view.now.set.counts.now) ps.now) (answer_lists near.old distances.old) }
{
    let n = ps.len() / 2;
    for i in 0..n {
        let p = vertex_at(ps, i);
        let best = search_in(view, index, p, waiting);
        lists::put(near, i, best.outline);
        lists::put(distances, i, best.distance);
    }
}

// The same, with its own heap.
fn put_answers(
    view: &SetView,
    index: &IndexView,
    ps: &[f64],
    near: &mut [u32],
    distances: &mut [f64],
)
    requires { AllAsked view.now.set.vertices.now view.now.set.counts.now view.now.starts.now view.now.boxes.now ps.now
        × Searched (outlines_of view.now.set.vertices.now view.now.set.counts.now) (buffer index.now.corners.now index.now.links.now index.now.items.now)
        × RoomFor ps.now (answer_lists near.old distances.old) }
    ensures { answer_lists near.new distances.new
        ≡ with_answers (answers_of (outlines_of view.now.set.vertices.now view.now.set.counts.now) ps.now) (answer_lists near.old distances.old) }
{
    let mut waiting = Waiting::new();
    put_answers_in(view, index, ps, &mut waiting, near, distances);
}

// The answers over a set that has an outline and passed the tests: its index is built in the lent buffers, and
// cleared. The lists of starts and boxes are lent to work in.
fn answer_in(
    set: &Set,
    ps: &[f64],
    starts: &mut [u32],
    boxes: &mut [f64],
    corners: &mut [f64],
    links: &mut [u32],
    items: &mut [u32],
    near: &mut [u32],
    distances: &mut [f64],
)
    requires { ManyReady set.now.vertices.now set.now.counts.now ps.now (lent_as corners.old links.old items.old near.old distances.old) × SetSpace set.now.counts.now starts.old boxes.old }
    ensures { lent_as corners.new links.new items.new near.new distances.new
        ≡ many_left set.now.vertices.now set.now.counts.now ps.now
        (lent_as corners.old links.old items.old near.old distances.old) }
{
    boundary::all_held(set.vertices);
    put_starts(set.counts, starts);
    frame::index_in(set, boxes, corners, links, items);
    let view = SetView {
        set: *set,
        starts,
        boxes,
    };
    let index = IndexView {
        corners,
        links,
        items,
    };
    put_answers(&view, &index, ps, near, distances);
    building::clear(corners, links, items);
}

// The same, with its own space for the starts and the boxes.
fn answer(
    set: &Set,
    ps: &[f64],
    corners: &mut [f64],
    links: &mut [u32],
    items: &mut [u32],
    near: &mut [u32],
    distances: &mut [f64],
)
    requires { ManyReady set.now.vertices.now set.now.counts.now ps.now (lent_as corners.old links.old items.old near.old distances.old) × (0 < length set.now.counts.now) }
    ensures { lent_as corners.new links.new items.new near.new distances.new
        ≡ many_left set.now.vertices.now set.now.counts.now ps.now
        (lent_as corners.old links.old items.old near.old distances.old) }
{
    let mut starts = [0; 1024];
    let mut boxes = [0.0; 4096];
    answer_in(
        set,
        ps,
        &mut starts,
        &mut boxes,
        corners,
        links,
        items,
        near,
        distances,
    );
}

// The answers over a set that passed the tests: 1 where it has an outline, and 0, 'none', where it is empty.
fn answered(
    set: &Set,
    ps: &[f64],
    corners: &mut [f64],
    links: &mut [u32],
    items: &mut [u32],
    near: &mut [u32],
    distances: &mut [f64],
) -> u32
    requires { ManyReady set.now.vertices.now set.now.counts.now ps.now (lent_as corners.old links.old items.old near.old distances.old) }
    ensures { record { answer = Ok result; lent = lent_as corners.new links.new items.new near.new distances.new }
        ≡ many_worked set.now.vertices.now set.now.counts.now ps.now
        (lent_as corners.old links.old items.old near.old distances.old) }
{
    if set.counts.len() == 0 {
        building::clear(corners, links, items);
        return 0;
    }
    answer(set, ps, corners, links, items, near, distances);
    1
}

// For each point the outline of the set with the least magnitude of its distance, the lowest number among
// equals.
pub fn nearest_many(
    set: &Set,
    ps: &[f64],
    corners: &mut [f64],
    links: &mut [u32],
    items: &mut [u32],
    near: &mut [u32],
    distances: &mut [f64],
) -> Result<u32, Refusal>
    ensures { record { answer = result; lent = lent_as corners.new links.new items.new near.new distances.new }
        ≡ many_outcome set.now.vertices.now set.now.counts.now ps.now
        (lent_as corners.old links.old items.old near.old distances.old) }
{
    tested(set, ps, corners, links, items, near, distances)?;
    Ok(answered(set, ps, corners, links, items, near, distances))
}
