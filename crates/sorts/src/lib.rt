// Item numbers sorted by a key, and parted by a pivot.
#![tactic(auto)]

ghost use Rattle.std.specs.Prelude.{◌≡◌, ◌++◌, not, ◌≤◌, length, drop};
ghost use Rattle.std.specs.Ordering.{is_lt};
ghost use Rattle.sorts.specs.Sort.{sort, parted_by, Dealt};
ghost use Rattle.sorts.specs.Keys.{total_less, precedes_by, precedes, ahead, key_in};

use std::cmp::Ordering;

// The key of item i, NaN past the end.
pub fn key(keys: &[f64], i: u32) -> f64
    ensures { result ≡ key_in keys.now i }
{
    lists::number_at(keys, i as usize)
}

// Whether x comes before y, as `total_cmp` has it; that of std takes no NaN, and a NaN may be a key here.
fn total_less(x: f64, y: f64) -> bool
    ensures { result ≡ total_less x y }
{
    let level = (x == y) & (number::signs::sign_bit(x) & !number::signs::sign_bit(y));
    (x < y) | (level | (!number::signs::is_nan(x) & number::signs::is_nan(y)))
}

// Whether a goes before b, or is b, where neither key is below the other.
fn tied(x: f64, y: f64, a: u32, b: u32) -> bool
    ensures { result ≡ precedes_by x y a b }
{
    if total_less(x, y) {
        return true;
    }
    if total_less(y, x) {
        return false;
    }
    a <= b
}

// Whether a goes before b, or is b: by key, then by number.
fn before(keys: &[f64], a: u32, b: u32) -> bool
    ensures { result ≡ precedes (key_in keys.now) a b }
{
    let x = key(keys, a);
    let y = key(keys, b);
    if x < y {
        return true;
    }
    if y < x {
        return false;
    }
    tied(x, y, a, b)
}

// How a stands to b: by key, then by number.
fn compared(keys: &[f64], a: u32, b: u32) -> Ordering
    ensures { is_lt result ≡ not (precedes (key_in keys.now) b a) }
{
    if !before(keys, b, a) {
        return Ordering::Less;
    }
    if a == b {
        Ordering::Equal
    } else {
        Ordering::Greater
    }
}

// s in order.
pub fn sorted(keys: &[f64], s: &mut [u32])
    ensures { s.new ≡ sort (precedes (key_in keys.now)) s.old }
{
    s.sort_unstable_by(|a, b| compared(keys, *a, *b));
}

// A place in the order by key, then by number: what goes before it, and what does not, parts a list.
#[derive(Clone, Copy)]
pub struct Pivot {
    pub key: f64,
    pub number: u32,
}

// Whether the number x, whose key is k, goes before the pivot. Before the number 0 with a key other than zero go
// just those with lesser keys, so that this test, which does not depend on x, leaves one comparison.
fn is_ahead(k: f64, x: u32, pivot: Pivot) -> bool
    ensures { result ≡ not (precedes_by pivot.key k pivot.number x) }
{
    let v = pivot.key;
    if (pivot.number == 0) & ((v < 0.0) | (0.0 < v)) {
        return k < v;
    }
    if (k < v) | (v < k) {
        return k < v;
    }
    !tied(v, k, pivot.number, x)
}

// Puts the members of s that go before the pivot at its front, and the others at the front of t; gives how many
// go before.
fn dealt(keys: &[f64], pivot: Pivot, s: &mut [u32], t: &mut [u32]) -> usize
    requires { length s.old ≤ length t.old }
    ensures { Dealt (ahead (key_in keys.now) pivot.key pivot.number) s.old t.old s.new t.new result (length s.old) }
{
    let mut a = 0;
    for i in 0..s.len() {
        let y = s[i];
        s[a] = y;
        t[i - a] = y;
        a += usize::from(is_ahead(key(keys, y), y, pivot));
    }
    a
}

// The first members of t become s. (std's `copy_from_slice` calls `memmove`, a name that each host of the archive would
// then have to give.)
fn copied(s: &[u32], t: &mut [u32])
    requires { length s.now ≤ length t.old }
    ensures { t.new ≡ s.now ++ drop (length s.now) t.old }
{
    for i in 0..s.len() {
        t[i] = s[i];
    }
}

// s becomes its members that go before the pivot, then the others, all in the order in which they stood; gives
// how many go before. t is working space, at least as long.
pub fn parted(keys: &[f64], pivot: Pivot, s: &mut [u32], t: &mut [u32]) -> usize
    requires { length s.old ≤ length t.old }
    ensures { record { count = result; list = s.new } ≡ parted_by (ahead (key_in keys.now) pivot.key pivot.number) s.old }
{
    let n = s.len();
    let a = dealt(keys, pivot, s, t);
    copied(&t[..n - a], &mut s[a..]);
    a
}
