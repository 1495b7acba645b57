// What the build does with a node's items: the box around theirs, that of their centres, and the split.
#![tactic(auto)]

ghost use Rattle.std.specs.Prelude.{◌≡◌, ◌/◌, ◌≤◌, ◌^◌, leb, length};
ghost use Rattle.boundary.specs.Boxes.{hull, stretched};
ghost use Rattle.sorts.specs.Sort.{Sorted, halves};
ghost use Rattle.sorts.specs.Keys.{precedes, key_in};
ghost use Rattle.boxes.specs.BoxLists.{box_at, point_in};
ghost use Rattle.tree.specs.Tree.{hull_of, spread_of, along_y, centre_along};

use boundary::{Bounds, hulls};
use boxes::Entries;
use pivot::KeyRange;

// The box around the items' boxes, where the items ascend.
pub fn hull_of(entries: Entries, list: &[u32]) -> Bounds
    requires { Sorted leb list.now }
    ensures { result ≡ hull_of (box_at entries.entry.wide.now) list.now }
{
    let mut b = hulls::empty_box();
    for k in list {
        b = hulls::around(b, entries.box_at(*k as usize));
    }
    b
}

// The box around the items' boxes, and the box of their centres.
#[derive(Clone, Copy)]
pub struct Spans {
    pub hull: Bounds,
    pub spread: Bounds,
}

// Both, with item k.
fn spanned(s: Spans, entries: Entries, k: usize) -> Spans
    requires { k ≤ 2 ^ 32 }
    ensures { result ≡ record { hull = hull s.hull (box_at entries.entry.wide.now k); spread = stretched s.spread (point_in entries.entry.xs.now entries.entry.ys.now k) } }
{
    let hull = hulls::around(s.hull, entries.box_at(k));
    let spread = hulls::stretch(s.spread, entries.centre_at(k));
    Spans { hull, spread }
}

// Both, where the items ascend.
pub fn spans_of(entries: Entries, list: &[u32]) -> Spans
    requires { Sorted leb list.now }
    ensures { (result.hull ≡ hull_of (box_at entries.entry.wide.now) list.now)
        × (result.spread ≡ spread_of (point_in entries.entry.xs.now entries.entry.ys.now) list.now) }
{
    let none = hulls::empty_box();
    let mut s = Spans {
        hull: none,
        spread: none,
    };
    for k in list {
        s = spanned(s, entries, *k as usize);
    }
    s
}

// The first m items in the order of the keys, ascending by number, then the others, ascending.
fn halve_sorted(keys: &[f64], list: &mut [u32], m: usize)
    requires { m ≤ length list.old }
    ensures { list.new ≡ halves (precedes (key_in keys.now)) m list.old }
{
    sorts::sorted(keys, list);
    list[..m].sort_unstable();
    list[m..].sort_unstable();
}

// The same at half the count, where the items ascend by number and their keys lie in the range. A pivot that
// parts them so is guessed; where it does not, they are sorted.
fn halve(keys: &[f64], range: KeyRange, list: &mut [u32], work: &mut [u32])
    requires { Sorted leb list.old × (length list.old ≤ length work.old) }
    ensures { list.new ≡ halves (precedes (key_in keys.now)) (length list.old / 2) list.old }
{
    let m = list.len() / 2;
    let p = pivot::guess(keys, range, list, work);
    let k = sorts::parted(keys, p, list, work);
    if k == m {
        return;
    }
    halve_sorted(keys, list, m);
}

// The items split along the axis on which their centres, whose box is b, spread wider.
pub fn split(entries: Entries, b: Bounds, list: &mut [u32], work: &mut [u32])
    requires { Sorted leb list.old × (length list.old ≤ length work.old) × (b ≡ spread_of (point_in entries.xs.now entries.ys.now) list.old) }
    ensures { list.new ≡ halves (precedes (centre_along (along_y (point_in entries.entry.xs.now entries.entry.ys.now) list.old) (point_in entries.entry.xs.now entries.entry.ys.now))) (length list.old / 2) list.old }
{
    if b.max.x - b.min.x < b.max.y - b.min.y {
        let range = KeyRange {
            low: b.min.y,
            high: b.max.y,
        };
        halve(entries.ys, range, list, work);
    } else {
        let range = KeyRange {
            low: b.min.x,
            high: b.max.x,
        };
        halve(entries.xs, range, list, work);
    }
}
