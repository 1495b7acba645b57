// The search of a set's index for the nearest outline, with a waiting heap: the walk of `nearest` (index.rs).
#![tactic(auto)]

pub mod heap;

ghost use Rattle.std.specs.Prelude.{◌≡◌, ℕ, ◌+◌, ◌<◌, ◌^◌, length};
ghost use Rattle.lists.specs.Lists.{run, In};
ghost use Rattle.distance.specs.Search.{gap_squares};
ghost use Rattle.search.specs.Order.{NumberGap};
ghost use Rattle.search.specs.Heap.{entry_at, Heaped};
ghost use Rattle.boxes.specs.BoxLists.{box_at};
ghost use Rattle.nodes.specs.Layout.{item_at};
ghost use Rattle.index.specs.Buffer.{buffer};
ghost use Rattle.set.specs.Set.{outlines_of};
ghost use Rattle.set.specs.Answers.{Boxed};
ghost use Rattle.search.specs.Least.{magnitude_at, least_in};
ghost use Rattle.search.specs.Walk.{improved, kept_with, none_kept, Clear, best_of, Asked, Searched, Opened, entry_for, diagonal_of};

use crate::heap::Waiting;
use boundary::{Edge, Point, out_along};
use distance::nearest::{gap_squares, nearest_edge, squares_to};
use nodes::IndexView;
use number::root::hypot;
use set::outlines::Set;

// A node that waits, with its gap: its squared distance from the point.
#[derive(Clone, Copy)]
pub struct Entry {
    pub gap: f64,
    pub node: u32,
}

// A set that passed the tests, how many vertices stand before each outline, and the outlines' boxes.
#[derive(Clone, Copy)]
pub struct SetView<'a> {
    pub set: Set<'a>,
    pub starts: &'a [u32],
    pub boxes: &'a [f64],
}

// An outline's number, and the magnitude of its distance.
#[derive(Clone, Copy)]
pub struct Best {
    pub outline: u32,
    pub distance: f64,
}

// The best so far, and a squared distance above which everything is farther.
#[derive(Clone, Copy)]
pub struct Kept {
    pub best: Best,
    pub far: f64,
}

// The entry of a node: its gap is how far p is outside its box, squared.
fn entry_for(index: &IndexView, node: u32, p: Point) -> Entry
    ensures { result ≡ entry_for index.now.corners.now p node }
{
    let b = index.box_at(node as usize);
    let x = out_along(b.min.x, b.max.x, p.x);
    let y = out_along(b.min.y, b.max.y, p.y);
    let gap = x * x + y * y;
    Entry { gap, node }
}

// Before the first look: the outline past the last of n, infinitely far.
fn none_kept(n: u32) -> Kept
    ensures { result ≡ none_kept n }
{
    Kept {
        best: Best {
            outline: n,
            distance: f64::INFINITY,
        },
        far: f64::INFINITY,
    }
}

// The better of what is kept and outline k, at the distance d.
fn improve(kept: Kept, k: u32, d: f64, far: f64) -> Kept
    ensures { result ≡ kept_with kept k d far }
{
    let best = kept.best;
    let tie = (d == best.distance) & (k < best.outline);
    if (d < best.distance) | tie {
        return Kept {
            best: Best {
                outline: k,
                distance: d,
            },
            far,
        };
    }
    kept
}

// How far p is outside outline k's box, widened, squared.
fn box_squares(boxes: &[f64], k: u32, p: Point) -> f64
    ensures { result ≡ gap_squares (diagonal_of (box_at boxes.now k)) p }
{
    let b = boxes::box_at(boxes, k as usize);
    gap_squares(Edge { a: b.min, b: b.max }, p)
}

// The better of what is kept and outline k: its edges are looked at where its box is not clearly farther, and
// its distance is worked out where its nearest point is not.
fn look_at(view: &SetView, k: u32, p: Point, kept: Kept) -> Kept
    requires { Asked view.now.set.vertices.now view.now.set.counts.now view.now.starts.now p × Boxed (outlines_of view.now.set.vertices.now view.now.set.counts.now) view.now.boxes.now
        × (k < length (outlines_of view.now.set.vertices.now view.now.set.counts.now)) × Clear p kept }
    ensures { (result.best ≡ improved kept.best k (magnitude_at (outlines_of view.now.set.vertices.now view.now.set.counts.now) p k)) × Clear p result }
{
    if kept.far < box_squares(view.boxes, k, p) {
        return kept;
    }
    let outline = view.set.outline_at(view.starts, k as usize);
    let f = nearest_edge(outline, p);
    let q = f.q;
    if kept.far < squares_to(q, p) {
        return kept;
    }
    improve(kept, k, hypot(p.x - q.x, p.y - q.y), f.far)
}

// The best of what is kept and a leaf's outlines.
fn look(view: &SetView, index: &IndexView, first: u32, count: u32, p: Point, start: Kept) -> Kept
    requires { Asked view.now.set.vertices.now view.now.set.counts.now view.now.starts.now p × Boxed (outlines_of view.now.set.vertices.now view.now.set.counts.now) view.now.boxes.now
        × ((i : ℕ) → In i (run (item_at index.now.items.now) first count) → i < length (outlines_of view.now.set.vertices.now view.now.set.counts.now)) × Clear p start }
    ensures { (result.best ≡ best_of (magnitude_at (outlines_of view.now.set.vertices.now view.now.set.counts.now) p) start.best (run (item_at index.now.items.now) first count)) × Clear p result }
{
    let mut kept = start;
    for i in 0..count {
        let k = index.item_at(first as usize + i as usize);
        kept = look_at(view, k, p, kept);
    }
    kept
}

// The nodes first and first + 1 wait.
fn wait_both(index: &IndexView, p: Point, first: u32, waiting: &mut Waiting<512>)
    requires { (waiting.old.len + 1 < 512) × (first + 1 < 2 ^ 32) × (NumberGap (entry_for index.now.corners.now p first) × NumberGap (entry_for index.now.corners.now p (first + 1))) }
    ensures len { waiting.new.len ≡ waiting.old.len + 2 }
    ensures opened { Opened (entry_at waiting.old.nodes waiting.old.gaps) waiting.old.len (entry_for index.now.corners.now p first) (entry_for index.now.corners.now p (first + 1)) (entry_at waiting.new.nodes waiting.new.gaps) }
{
    waiting.push(entry_for(index, first, p));
    waiting.push(entry_for(index, first + 1, p));
}

// The nearest of the set's outlines, by a search of an index of it: the nodes that wait are in a heap, lent for
// the search, and the search ends where the least gap is clearly above the best distance.
pub fn search_in(view: &SetView, index: &IndexView, p: Point, waiting: &mut Waiting<512>) -> Best
    requires { Asked view.now.set.vertices.now view.now.set.counts.now view.now.starts.now p × Boxed (outlines_of view.now.set.vertices.now view.now.set.counts.now) view.now.boxes.now
        × Searched (outlines_of view.now.set.vertices.now view.now.set.counts.now) (buffer index.now.corners.now index.now.links.now index.now.items.now) × (0 < length view.now.set.counts.now) }
    ensures { result ≡ least_in (outlines_of view.now.set.vertices.now view.now.set.counts.now) p }
{
    waiting.clear();
    waiting.push(entry_for(index, 0, p));
    let mut kept = none_kept(view.set.counts.len() as u32);
    while let Some(e) = waiting.pop() {
        if kept.far < e.gap {
            return kept.best;
        }
        let first = index.first_at(e.node as usize);
        let count = index.count_at(e.node as usize);
        if count > 0 {
            kept = look(view, index, first, count, p, kept);
        } else {
            wait_both(index, p, first, waiting);
        }
    }
    kept.best
}

// The same, with its own space for the heap.
pub fn search(view: &SetView, index: &IndexView, p: Point) -> Best
    requires { Asked view.now.set.vertices.now view.now.set.counts.now view.now.starts.now p × Boxed (outlines_of view.now.set.vertices.now view.now.set.counts.now) view.now.boxes.now
        × Searched (outlines_of view.now.set.vertices.now view.now.set.counts.now) (buffer index.now.corners.now index.now.links.now index.now.items.now) × (0 < length view.now.set.counts.now) }
    ensures { result ≡ least_in (outlines_of view.now.set.vertices.now view.now.set.counts.now) p }
{
    search_in(view, index, p, &mut Waiting::new())
}
