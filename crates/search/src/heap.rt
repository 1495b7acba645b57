// The waiting heap of `nearest`: node numbers and gaps in two arrays; the least entry is first.
ghost use Rattle.std.specs.Prelude.{◌≡◌, ◌+◌, ◌-◌, ◌<◌, ◌≤◌, length, IsNone, IfSome, ◌↔◌};
ghost use Rattle.search.specs.Order.{NumberGap, entry_before};
ghost use Rattle.search.specs.Heap.{entry_at, Heaped, Pushed, Popped};
ghost use Rattle.search.specs.Sifts.{exchanged_in, rises, earlier_of, least_child, Rising, Sinking, Sifted};

use crate::Entry;

// The nodes that wait, with their gaps: the first `len` entries, a heap. Two arrays, as document 01 has them; one of
// entries took longer, since an entry is then written in parts and read as one.
#[derive(Drop)]
pub struct Waiting<const N: usize> {
    nodes: [u32; N],
    gaps: [f64; N],
    len: usize,
    ghost within: { len ≤ N },
    ghost heaped: { Heaped (entry_at nodes gaps) len },
}

// The order of the entries, by gap and then by number. It stands in the heap's inner loops and has no branch, as a
// derived order would.
fn is_before(a: Entry, b: Entry) -> bool
    ensures { result ≡ entry_before a b }
{
    (a.gap < b.gap) | ((a.gap == b.gap) & (a.node < b.node))
}

fn entry_at(nodes: &[u32], gaps: &[f64], i: usize) -> Entry
    requires { (i < length nodes.now) × (i < length gaps.now) }
    ensures { result ≡ entry_at nodes.now gaps.now i }
{
    Entry {
        gap: gaps[i],
        node: nodes[i],
    }
}

// Exchanges the entries at i and j. The `swap` of slices tests which of its two places comes first.
fn exchange(nodes: &mut [u32], gaps: &mut [f64], i: usize, j: usize)
    requires { ((i < length nodes.old) × (i < length gaps.old)) × ((j < length nodes.old) × (j < length gaps.old)) }
    ensures { record { nodes = nodes.new; gaps = gaps.new } ≡ exchanged_in nodes.old gaps.old i j }
{
    let node = nodes[i];
    nodes[i] = nodes[j];
    nodes[j] = node;
    let gap = gaps[i];
    gaps[i] = gaps[j];
    gaps[j] = gap;
}

// Whether the entry at i is before its parent.
fn is_rising(nodes: &[u32], gaps: &[f64], i: usize) -> bool
    requires { (i < length nodes.now) × (i < length gaps.now) }
    ensures { result ≡ rises (entry_at nodes.now gaps.now) i }
{
    if i == 0 {
        return false;
    }
    is_before(entry_at(nodes, gaps, i), entry_at(nodes, gaps, (i - 1) / 2))
}

// Moves the entry at `last`, the last of the heap, up to its place.
fn rise(nodes: &mut [u32], gaps: &mut [f64], last: usize)
    requires { ((last < length nodes.old) × (last < length gaps.old)) × Rising (entry_at nodes.old gaps.old) (last + 1) last }
    ensures { Sifted (entry_at nodes.old gaps.old) (last + 1) (entry_at nodes.new gaps.new) }
{
    let mut i = last;
    while is_rising(nodes, gaps, i) {
        let p = (i - 1) / 2;
        exchange(nodes, gaps, i, p);
        i = p;
    }
}

// b where it is among the first n and its entry is before that at a, else a.
fn first_of(nodes: &[u32], gaps: &[f64], n: usize, a: usize, b: usize) -> usize
    requires { ((n ≤ length nodes.now) × (n ≤ length gaps.now)) × ((a < length nodes.now) × (a < length gaps.now)) }
    ensures { result ≡ earlier_of (entry_at nodes.now gaps.now) n a b }
{
    if b < n {
        if is_before(entry_at(nodes, gaps, b), entry_at(nodes, gaps, a)) {
            return b;
        }
    }
    a
}

// The least of i and its children among the first n.
fn least_of(nodes: &[u32], gaps: &[f64], n: usize, i: usize) -> usize
    requires { ((n ≤ length nodes.now) × (n ≤ length gaps.now)) × ((i < length nodes.now) × (i < length gaps.now)) }
    ensures { result ≡ least_child (entry_at nodes.now gaps.now) n i }
{
    if n / 2 <= i {
        return i;
    }
    let c = 2 * i + 1;
    first_of(nodes, gaps, n, first_of(nodes, gaps, n, i, c), c + 1)
}

// Moves the entry at 0 down to its place among the first n.
fn sink(nodes: &mut [u32], gaps: &mut [f64], n: usize)
    requires { ((n < length nodes.old) × (n < length gaps.old)) × Sinking (entry_at nodes.old gaps.old) n 0 }
    ensures { Sifted (entry_at nodes.old gaps.old) n (entry_at nodes.new gaps.new) }
{
    let mut i = 0;
    let mut c = least_of(nodes, gaps, n, i);
    while c != i {
        exchange(nodes, gaps, i, c);
        i = c;
        c = least_of(nodes, gaps, n, i);
    }
}

impl<const N: usize> Waiting<N> {
    // No node.
    pub fn new() -> Self
        ensures { result.len ≡ 0 }
    {
        Waiting {
            nodes: [0; N],
            gaps: [0.0; N],
            len: 0,
        }
    }

    // Leaves no node.
    pub fn clear(&mut self)
        ensures { self.new.len ≡ 0 }
    {
        self.len = 0;
    }

    // One node more.
    pub fn push(&mut self, entry: Entry)
        requires { (self.old.len < N) × NumberGap entry }
        ensures len { self.new.len ≡ self.old.len + 1 }
        ensures pushed { Pushed (entry_at self.old.nodes self.old.gaps) self.old.len entry (entry_at self.new.nodes self.new.gaps) }
    {
        let last = self.len;
        self.nodes[last] = entry.node;
        self.gaps[last] = entry.gap;
        rise(&mut self.nodes, &mut self.gaps, last);
        self.len = last + 1;
    }

    // Takes the least entry, where there is one.
    pub fn pop(&mut self) -> Option<Entry>
        ensures none { IsNone result ↔ (self.old.len ≡ 0) }
        ensures len { self.new.len ≡ self.old.len - 1 }
        ensures popped { IfSome result (λ top. Popped (entry_at self.old.nodes self.old.gaps) self.old.len top (entry_at self.new.nodes self.new.gaps)) }
    {
        if self.len == 0 {
            return None;
        }
        let last = self.len - 1;
        let top = entry_at(&self.nodes, &self.gaps, 0);
        exchange(&mut self.nodes, &mut self.gaps, 0, last);
        sink(&mut self.nodes, &mut self.gaps, last);
        self.len = last;
        Some(top)
    }
}
