// `any_at` (index.rs) over a set of outlines.
// The lists of an index buffer that are written to stand one by one (see nodes::build).
#![tactic(auto)]

ghost use Rattle.std.specs.Prelude.{◌≡◌, ◌*◌, ◌≤◌, length};
ghost use Rattle.lists.specs.Lists.{any};
ghost use Rattle.index.specs.Buffer.{buffer};
ghost use Rattle.set.specs.Set.{start_of, outlines_of, Fit, Fitting};
ghost use Rattle.set.specs.Answers.{worked, Ready, Starts, Indexed};
ghost use Rattle.any.specs.Answers.{contains_in, any_at, any_outcome};

use accept::Refusal;
use boundary::{Bounds, Point};
use geometry::polygon;
use index::building;
use nodes::IndexView;
use set::outlines::{self, Set};
use set::{frame, refusals};

// Whether outline k contains p: past the last outline there is none.
fn holds_at(set: &Set, starts: &[u32], k: usize, p: Point) -> bool
    requires { (2 * start_of set.now.counts.now (length set.now.counts.now) ≤ length set.now.vertices.now) × Starts set.now.counts.now starts.now }
    ensures { result ≡ contains_in (outlines_of set.now.vertices.now set.now.counts.now) p k }
{
    polygon::holds(set.outline_at(starts, k), p)
}

// Whether one of the outlines of the list does.
fn any_holds(set: &Set, starts: &[u32], list: &[u32], p: Point) -> bool
    requires { (2 * start_of set.now.counts.now (length set.now.counts.now) ≤ length set.now.vertices.now) × Starts set.now.counts.now starts.now }
    ensures { result ≡ any (contains_in (outlines_of set.now.vertices.now set.now.counts.now) p) list.now }
{
    for k in list {
        if holds_at(set, starts, *k as usize, p) {
            return true;
        }
    }
    false
}

// Whether an outline that the walk of the set's index lists for p, as a cell, contains p.
fn any_found(set: &Set, starts: &[u32], p: Point, view: &IndexView) -> bool
    requires { Fit set.now.vertices.now set.now.counts.now × Fitting (outlines_of set.now.vertices.now set.now.counts.now) × Starts set.now.counts.now starts.now
        × Indexed (outlines_of set.now.vertices.now set.now.counts.now) (buffer view.now.corners.now view.now.links.now view.now.items.now) }
    ensures { result ≡ any_at (outlines_of set.now.vertices.now set.now.counts.now) p }
{
    let n = 4 * set.counts.len();
    let cell = Bounds { min: p, max: p };
    let mut list = [0; 1024];
    let count = meeting::walk(n, building::LEVELS, view, cell, &mut list);
    let l = &list[..];
    any_holds(set, starts, &l[0..count], p)
}

// The same of a set that passed the tests: its index is built in the lent buffers, and cleared. The first
// list is lent for the starts.
fn any_in(
    set: &Set,
    p: Point,
    starts: &mut [u32],
    corners: &mut [f64],
    links: &mut [u32],
    items: &mut [u32],
) -> bool
    requires { Ready set.now.vertices.now set.now.counts.now (buffer corners.old links.old items.old) × (length set.now.counts.now ≤ length starts.old) }
    ensures { record { answer = result; lent = buffer corners.new links.new items.new }
        ≡ worked (any_at (outlines_of set.now.vertices.now set.now.counts.now) p) (buffer corners.old links.old items.old) }
{
    outlines::put_starts(set.counts, starts);
    frame::index_set(set, corners, links, items);
    let view = IndexView {
        corners,
        links,
        items,
    };
    let found = any_found(set, starts, p, &view);
    building::clear(corners, links, items);
    found
}

// The same, with its own space for N starts.
fn any_within<const N: usize>(
    set: &Set,
    p: Point,
    corners: &mut [f64],
    links: &mut [u32],
    items: &mut [u32],
) -> bool
    requires { Ready set.now.vertices.now set.now.counts.now (buffer corners.old links.old items.old) × (length set.now.counts.now ≤ N) × (N ≤ 1024) }
    ensures { record { answer = result; lent = buffer corners.new links.new items.new }
        ≡ worked (any_at (outlines_of set.now.vertices.now set.now.counts.now) p) (buffer corners.old links.old items.old) }
{
    let mut starts = [0; N];
    any_in(set, p, &mut starts, corners, links, items)
}

// The same. The space for the starts is that of 32 outlines, where it is enough, since it is filled with zeros first.
fn any_of(set: &Set, p: Point, corners: &mut [f64], links: &mut [u32], items: &mut [u32]) -> bool
    requires { Ready set.now.vertices.now set.now.counts.now (buffer corners.old links.old items.old) }
    ensures { record { answer = result; lent = buffer corners.new links.new items.new }
        ≡ worked (any_at (outlines_of set.now.vertices.now set.now.counts.now) p) (buffer corners.old links.old items.old) }
{
    if set.counts.len() <= 32 {
        return any_within::<32>(set, p, corners, links, items);
    }
    any_within::<1024>(set, p, corners, links, items)
}

// Whether an outline of the set that `meeting` lists for p, as a cell, contains p: 1, or 0.
pub fn any_at(
    set: &Set,
    p: Point,
    corners: &mut [f64],
    links: &mut [u32],
    items: &mut [u32],
) -> Result<u32, Refusal>
    ensures { record { answer = result; lent = buffer corners.new links.new items.new }
        ≡ any_outcome set.now.vertices.now set.now.counts.now p (buffer corners.old links.old items.old) }
{
    refusals::query_tested(set, p, corners, links, items)?;
    let found = any_of(set, p, corners, links, items);
    Ok(u32::from(found))
}
