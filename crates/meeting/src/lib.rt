// `meeting` (index.rs): the items of the leaves that share a point with a cell. The lists of an
// index buffer that are written to stand one by one (see `nodes::build`).
#![tactic(auto)]

ghost use Rattle.std.specs.Prelude.{◌≡◌, not, ◌∷◌, [], ◌+◌, ◌≤◌, ◌<◌, ◌^◌, ltb, length};
ghost use Rattle.boundary.specs.Boxes.{box_fits};
ghost use Rattle.lists.specs.Lists.{run};
ghost use Rattle.accept.specs.declared.Refusal.TheVariants.{BadBox, ShortBuffer};
ghost use Rattle.accept.specs.Refusals.{all_passed, ◌refusing◌when◌};
ghost use Rattle.boxes.specs.BoxLists.{box_at};
ghost use Rattle.nodes.specs.Layout.{item_at};
ghost use Rattle.index.specs.Buffer.{buffer, short_sizes};
ghost use Rattle.index.specs.Answers.{boxes_tested, Accepted};
ghost use Rattle.meeting.specs.Meeting.{apart};
ghost use Rattle.meeting.specs.Walk.{hits, found, put_from};
ghost use Rattle.meeting.specs.Answers.{listing, meeting_outcome};

use accept::Refusal;
use accept::refusals::{box_fits, refuse_when};
use boundary::Bounds;
use index::building;
use index::refusals::{boxes_tested, short_index};
use nodes::IndexView;

// Stores x at k, where there is room, and gives the next place. A struct of the list and its next place would hold a
// `&mut`, and owe a clause for it in every function here.
fn push(list: &mut [u32], k: usize, x: u32) -> usize
    requires { k ≤ length list.old }
    ensures { record { answer = result; lent = list.new } ≡ put_from list.old k (x ∷ []) }
{
    lists::put(list, k, x);
    if k < list.len() { k + 1 } else { k }
}

// Stores a leaf's items from the place k on, and gives the next place.
fn copy(view: &IndexView, first: usize, count: usize, list: &mut [u32], k: usize) -> usize
    requires { (first + count < 2 ^ 40) × (k ≤ length list.old) }
    ensures { record { answer = result; lent = list.new } ≡ put_from list.old k (run (item_at view.now.items.now) first count) }
{
    let mut j = k;
    for i in first..first + count {
        j = push(list, j, view.item_at(i));
    }
    j
}

// Whether the box of the node n shares no point with the cell.
fn misses(view: &IndexView, n: usize, c: Bounds) -> bool
    requires { n ≤ 2 ^ 32 }
    ensures { result ≡ apart (box_at view.now.corners.now n) c }
{
    let b = view.box_at(n);
    (c.max.x < b.min.x) | ((b.max.x < c.min.x) | ((c.max.y < b.min.y) | (b.max.y < c.min.y)))
}

// Lists what the walk finds below the node n, at most `depth` levels deep, from the place k on, and gives
// the next place.
fn visit(view: &IndexView, depth: usize, n: usize, c: Bounds, list: &mut [u32], k: usize) -> usize
    requires { (n ≤ 2 ^ 32) × (k ≤ length list.old) }
    ensures { record { answer = result; lent = list.new }
        ≡ put_from list.old k (hits depth (buffer view.now.corners.now view.now.links.now view.now.items.now) c n) }
{
    if depth == 0 {
        return k;
    }
    if misses(view, n, c) {
        return k;
    }
    let first = view.first_at(n) as usize;
    let count = view.count_at(n) as usize;
    if count > 0 {
        return copy(view, first, count, list, k);
    }
    let j = visit(view, depth - 1, first, c, list, k);
    visit(view, depth - 1, first + 1, c, list, j)
}

// The walk from the root, at most `depth` levels deep, where there are boxes: n counts their numbers.
pub fn walk(n: usize, depth: usize, view: &IndexView, c: Bounds, list: &mut [u32]) -> usize
    ensures { record { answer = result; lent = list.new }
        ≡ put_from list.old 0 (found depth n (buffer view.now.corners.now view.now.links.now view.now.items.now) c) }
{
    if n == 0 {
        return 0;
    }
    visit(view, depth, 0, c, list, 0)
}

// Lists what meets the cell; the index is built in the lent buffers, and cleared.
fn listed(
    boxes: &[f64],
    c: Bounds,
    corners: &mut [f64],
    links: &mut [u32],
    items: &mut [u32],
    list: &mut [u32],
) -> usize
    requires { Accepted boxes.now (length corners.old) (length links.old) (length items.old)
        × (boxes_tested boxes.now ≡ all_passed) × (1024 ≤ length list.old) }
    ensures { record {
      answer = result;
      lent = record { buffer = buffer corners.new links.new items.new; list = list.new };
    }
        ≡ listing boxes.now c (buffer corners.old links.old items.old) list.old }
{
    building::grow_or_leaf(boxes, corners, links, items);
    let view = IndexView {
        corners,
        links,
        items,
    };
    let count = walk(boxes.len(), building::LEVELS, &view, c, list);
    building::clear(corners, links, items);
    count
}

// The tests of `meeting`, in lists of so many corner numbers, link numbers and items, and for so many
// items listed.
fn tested(
    boxes: &[f64],
    c: Bounds,
    corners: usize,
    links: usize,
    items: usize,
    list: usize,
) -> Result<(), Refusal>
    ensures { result ≡ (boxes_tested boxes.now refusing BadBox when not (box_fits c)
        refusing ShortBuffer when short_sizes corners links items refusing ShortBuffer when ltb list 1024) }
{
    boxes_tested(boxes)?;
    refuse_when(!box_fits(c), Refusal::BadBox)?;
    refuse_when(short_index(corners, links, items), Refusal::ShortBuffer)?;
    refuse_when(list < 1024, Refusal::ShortBuffer)
}

// The items of each leaf of the boxes' index whose box shares a point with the cell: how many there are.
pub fn meeting(
    boxes: &[f64],
    c: Bounds,
    corners: &mut [f64],
    links: &mut [u32],
    items: &mut [u32],
    list: &mut [u32],
) -> Result<u32, Refusal>
    ensures { record {
      answer = result;
      lent = record { buffer = buffer corners.new links.new items.new; list = list.new };
    }
        ≡ meeting_outcome boxes.now c (buffer corners.old links.old items.old) list.old }
{
    tested(
        boxes,
        c,
        corners.len(),
        links.len(),
        items.len(),
        list.len(),
    )?;
    Ok(listed(boxes, c, corners, links, items, list) as u32)
}
