// The index of a set's outlines, built in a lent index buffer: every query of a set begins so.
// The lists of an index buffer that are written to stand one by one (see nodes::build).
ghost use Rattle.std.specs.Prelude.{◌≡◌, ◌*◌, ◌≤◌, length};
ghost use Rattle.tree.specs.Tree.{index_of};
ghost use Rattle.index.specs.Buffer.{buffer, holding};
ghost use Rattle.set.specs.Set.{outlines_of, set_boxes};
ghost use Rattle.set.specs.Answers.{Ready, Boxed};

use crate::outlines::Set;

// Builds it with lent space for the boxes, which stand there then.
pub fn index_in(
    set: &Set,
    boxes: &mut [f64],
    corners: &mut [f64],
    links: &mut [u32],
    items: &mut [u32],
)
    requires { Ready set.now.vertices.now set.now.counts.now (buffer corners.old links.old items.old) × (4 * length set.now.counts.now ≤ length boxes.old) }
    ensures { (buffer corners.new links.new items.new
        ≡ holding (index_of (set_boxes (outlines_of set.now.vertices.now set.now.counts.now))) (buffer corners.old links.old items.old))
        × Boxed (outlines_of set.now.vertices.now set.now.counts.now) boxes.new }
{
    let n = 4 * set.counts.len();
    set.put_boxes(boxes);
    index::building::grow_or_leaf(&boxes[..n], corners, links, items);
}

// The same, with its own space for N numbers of the boxes.
fn index_within<const N: usize>(
    set: &Set,
    corners: &mut [f64],
    links: &mut [u32],
    items: &mut [u32],
)
    requires { Ready set.now.vertices.now set.now.counts.now (buffer corners.old links.old items.old) × (4 * length set.now.counts.now ≤ N) × (N ≤ 4096) }
    ensures { buffer corners.new links.new items.new
        ≡ holding (index_of (set_boxes (outlines_of set.now.vertices.now set.now.counts.now))) (buffer corners.old links.old items.old) }
{
    let mut boxes = [0.0; N];
    index_in(set, &mut boxes, corners, links, items);
}

// The index of the set's outlines, in the lent index buffer. The space for the boxes is as large as is needed, since
// it is filled with zeros first.
pub fn index_set(set: &Set, corners: &mut [f64], links: &mut [u32], items: &mut [u32])
    requires { Ready set.now.vertices.now set.now.counts.now (buffer corners.old links.old items.old) }
    ensures { buffer corners.new links.new items.new
        ≡ holding (index_of (set_boxes (outlines_of set.now.vertices.now set.now.counts.now))) (buffer corners.old links.old items.old) }
{
    if set.counts.len() <= 32 {
        index_within::<128>(set, corners, links, items);
    } else {
        index_within::<4096>(set, corners, links, items);
    }
}
