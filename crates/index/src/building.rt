// The index of a whole list of boxes, with the space that the build needs. The lists of an index buffer that are
// written to stand one by one (see `nodes::build`).
ghost use Rattle.std.specs.Prelude.{◌≡◌, ◌≤◌, length};
ghost use Rattle.lists.specs.Lists.{run};
ghost use Rattle.boxes.specs.BoxLists.{box_count, wide_at};
ghost use Rattle.tree.specs.Tree.{hull_of, index_of};
ghost use Rattle.index.specs.Answers.{Accepted};
ghost use Rattle.index.specs.Buffer.{buffer, grown, cleared};

use boundary::{Bounds, hulls};
use boxes::Entries;
use nodes::Place;

// The index of a list of boxes that passes the tests has at most so many levels (`index_levels` in
// proofs/Theorems.antt).
pub const LEVELS: usize = 9;

// The box around the widened boxes of a list.
fn hull_wide(boxes: &[f64]) -> Bounds
    requires { box_count boxes.now ≤ 1024 }
    ensures { result ≡ hull_of (wide_at boxes.now) (run (λ i. i) 0 (box_count boxes.now)) }
{
    let mut b = hulls::empty_box();
    for i in 0..boxes.len() / 4 {
        b = hulls::around(b, boxes::widened(boxes::box_at(boxes, i)));
    }
    b
}

// The index of a list of at most 4 boxes, which is one leaf, in buffers of index size.
fn grow_leaf(boxes: &[f64], corners: &mut [f64], links: &mut [u32], items: &mut [u32]) -> usize
    requires { Accepted boxes.now (length corners.old) (length links.old) (length items.old) × (box_count boxes.now ≤ 4) }
    ensures { record { answer = result; lent = buffer corners.new links.new items.new }
        ≡ grown (index_of boxes.now) (buffer corners.old links.old items.old) }
{
    let n = boxes.len() / 4;
    boxes::put_box(corners, 0, hull_wide(boxes));
    nodes::put_links(links, 0, 0, n as u32);
    boxes::count_up(&mut items[..n]);
    1
}

// The index of a list of at most N boxes, in buffers of index size, with space for their widened boxes, their
// centres and their numbers. The space is filled with zeros first, so it is as large as is needed.
fn grow_within<const N: usize>(
    boxes: &[f64],
    corners: &mut [f64],
    links: &mut [u32],
    items: &mut [u32],
) -> usize
    requires { Accepted boxes.now (length corners.old) (length links.old) (length items.old)
        × (box_count boxes.now ≤ N) × (N ≤ 1024) }
    ensures { record { answer = result; lent = buffer corners.new links.new items.new }
        ≡ grown (index_of boxes.now) (buffer corners.old links.old items.old) }
{
    let n = boxes.len() / 4;
    let mut numbers = [[0.0; 4]; N];
    let wide = numbers.as_flattened_mut();
    let mut xs = [0.0; N];
    let mut ys = [0.0; N];
    let mut work = [0; N];
    boxes::widen(boxes, wide, &mut xs, &mut ys);
    boxes::count_up(&mut items[..n]);
    let entries = Entries {
        wide: &wide[..4 * n],
        xs: &xs[..n],
        ys: &ys[..n],
    };
    let root = Place {
        at: 0,
        node: 0,
        next: 1,
    };
    nodes::build(entries, &mut items[..n], &mut work, corners, links, root)
}

// The index of a list of boxes, in buffers of index size. Gives the number of its nodes.
pub fn grow(boxes: &[f64], corners: &mut [f64], links: &mut [u32], items: &mut [u32]) -> usize
    requires { Accepted boxes.now (length corners.old) (length links.old) (length items.old) }
    ensures { record { answer = result; lent = buffer corners.new links.new items.new }
        ≡ grown (index_of boxes.now) (buffer corners.old links.old items.old) }
{
    let n = boxes.len() / 4;
    if n <= 4 {
        return grow_leaf(boxes, corners, links, items);
    }
    if n <= 16 {
        return grow_within::<16>(boxes, corners, links, items);
    }
    if n <= 128 {
        return grow_within::<128>(boxes, corners, links, items);
    }
    grow_within::<1024>(boxes, corners, links, items)
}

// The same, where a single leaf is put without the stack that `grow` takes for all its space.
pub fn grow_or_leaf(
    boxes: &[f64],
    corners: &mut [f64],
    links: &mut [u32],
    items: &mut [u32],
) -> usize
    requires { Accepted boxes.now (length corners.old) (length links.old) (length items.old) }
    ensures { record { answer = result; lent = buffer corners.new links.new items.new }
        ≡ grown (index_of boxes.now) (buffer corners.old links.old items.old) }
{
    if boxes.len() / 4 <= 4 {
        return grow_leaf(boxes, corners, links, items);
    }
    grow(boxes, corners, links, items)
}

// Zeros in the nodes and items of an index buffer that was used for work.
pub fn clear(corners: &mut [f64], links: &mut [u32], items: &mut [u32])
    requires { (2044 ≤ length corners.old) × (1022 ≤ length links.old) × (1024 ≤ length items.old) }
    ensures { buffer corners.new links.new items.new
        ≡ cleared (buffer corners.old links.old items.old) }
{
    lists::clear(corners, 2044, 0.0);
    lists::clear(links, 1022, 0);
    lists::clear(items, 1024, 0);
}
