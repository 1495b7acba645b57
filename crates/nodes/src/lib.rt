// The build, which calls itself on both halves, and puts the nodes where the Rust numbers them.
#![tactic(auto)]

ghost use Rattle.std.specs.Prelude.{◌≡◌, [], ◌∷◌, ◌*◌, ◌<◌, ◌≤◌, ◌^◌, leb, length};
ghost use Rattle.std.proofs.lemmas.List.Edits.{sets};
ghost use Rattle.sorts.specs.Sort.{Sorted};
ghost use Rattle.boxes.specs.BoxLists.{box_at, point_in};
ghost use Rattle.tree.specs.Tree.{arranged, tree_in};
ghost use Rattle.nodes.specs.Layout.{item_at, first_at, count_at, Room, Settled, Grown};

use boundary::{Bounds, Point};
use boxes::Entries;

// A node: its box, and either its two children, the nodes first and first + 1 (count is 0), or a leaf's
// items, count of them from first on.
#[repr(C)]
#[derive(Clone, Copy)]
pub struct Node {
    pub lo: Point,
    pub hi: Point,
    pub first: u32,
    pub count: u32,
}

// Stores the links of the node n.
pub fn put_links(links: &mut [u32], n: usize, first: u32, count: u32)
    requires { n < 2 ^ 32 }
    ensures { links.new ≡ sets links.old (2 * n) (first ∷ count ∷ []) }
{
    let k = 2 * n;
    lists::put(links, k, first);
    lists::put(links, k + 1, count);
}

// Where a tree goes: where its items begin, the number of its node, and the first number for the nodes below.
#[derive(Clone, Copy)]
pub struct Place {
    pub at: usize,
    pub node: usize,
    pub next: usize,
}

// Puts the node of the tree over list, which ascends, and splits it, unless it is a leaf's.
fn settle(
    entries: Entries,
    list: &mut [u32],
    work: &mut [u32],
    corners: &mut [f64],
    links: &mut [u32],
    place: Place,
)
    requires { Sorted leb list.old × Room (length list.old) (length work.old) place.at place.node place.next }
    ensures { Settled (tree_in entries.entry.wide.now entries.entry.xs.now entries.entry.ys.now list.old) place.at place.node place.next
        corners.old links.old corners.new links.new
        × (list.new ≡ arranged (point_in entries.entry.xs.now entries.entry.ys.now) list.old) }
{
    let n = list.len();
    if n <= 4 {
        boxes::put_box(corners, place.node, tree::hull_of(entries, list));
        put_links(links, place.node, place.at as u32, n as u32);
    } else {
        let spans = tree::spans_of(entries, list);
        boxes::put_box(corners, place.node, spans.hull);
        put_links(links, place.node, place.next as u32, 0);
        tree::split(entries, spans.spread, list, work);
    }
}

// The tree over the items of list, which ascend, and end in the order of their leaves. Gives the first number not used.
// The lists that are written to stand one by one: a struct of `&mut` would owe a clause for each in every function.
pub fn build(
    entries: Entries,
    list: &mut [u32],
    work: &mut [u32],
    corners: &mut [f64],
    links: &mut [u32],
    place: Place,
) -> usize
    requires { Sorted leb list.old × Room (length list.old) (length work.old) place.at place.node place.next }
    ensures { Grown (tree_in entries.entry.wide.now entries.entry.xs.now entries.entry.ys.now list.old) place.at place.node place.next
        corners.old links.old result list.new corners.new links.new }
{
    let n = list.len();
    settle(entries, list, work, corners, links, place);
    if n <= 4 {
        return place.next;
    }
    let m = n / 2;
    let first = Place {
        at: place.at,
        node: place.next,
        next: place.next + 2,
    };
    let free = build(entries, &mut list[..m], work, corners, links, first);
    let second = Place {
        at: place.at + m,
        node: place.next + 1,
        next: free,
    };
    build(entries, &mut list[m..], work, corners, links, second)
}

// The lists of an index buffer, to be read; the C interface gives the nodes' corners and their links apart.
#[derive(Clone, Copy)]
pub struct IndexView<'a> {
    pub corners: &'a [f64],
    pub links: &'a [u32],
    pub items: &'a [u32],
}

impl<'a> IndexView<'a> {
    // The box of the node n.
    pub fn box_at(&self, n: usize) -> Bounds
        requires { n ≤ 2 ^ 32 }
        ensures { result ≡ box_at self.now.corners.now n }
    {
        boxes::box_at(self.corners, n)
    }

    // Its first child, or where a leaf's items begin.
    pub fn first_at(&self, n: usize) -> u32
        requires { n ≤ 2 ^ 32 }
        ensures { result ≡ first_at self.now.links.now n }
    {
        lists::at(self.links, 2 * n, 0)
    }

    // How many items a leaf has; 0 where it is none.
    pub fn count_at(&self, n: usize) -> u32
        requires { n ≤ 2 ^ 32 }
        ensures { result ≡ count_at self.now.links.now n }
    {
        lists::at(self.links, 2 * n + 1, 0)
    }

    // The k-th item.
    pub fn item_at(&self, k: usize) -> u32
        ensures { result ≡ item_at self.now.items.now k }
    {
        lists::at(self.items, k, 0)
    }
}
