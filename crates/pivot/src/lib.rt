// A guess at the middle of items by their keys: about as many keys are taken below it as go before the
// middle item. Whoever uses the guess tests it, so nothing is promised of it. Parting by it keeps the items in
// ascending order; std's selection and sorts do not: with sorts alone the index of 1,024 boxes took 7 times as long.
#![tactic(auto)]

ghost use Rattle.std.specs.Prelude.{◌≤◌, length};

use boundary::{greater_of, lesser_of};
use sorts::{Pivot, key};

// In so many rounds at most an item is looked for.
const ROUNDS: usize = 21;

// The keys from low to high.
#[derive(Clone, Copy)]
pub struct KeyRange {
    pub low: f64,
    pub high: f64,
}

impl KeyRange {
    // Halfway.
    fn middle(self) -> f64 {
        0.5 * (self.low + self.high)
    }

    // A key as far on as r is of n.
    fn key_at(self, r: usize, n: usize) -> f64 {
        self.low + (self.high - self.low) * ((float_of(r) + 0.5) / float_of(n))
    }

    // From the middle both ways, by so large a part of the range.
    fn about_middle(self, part: f64) -> KeyRange {
        let v = self.middle();
        let d = (self.high - self.low) * part;
        KeyRange {
            low: v - d,
            high: v + d,
        }
    }

    fn below(self, v: f64) -> KeyRange {
        KeyRange {
            low: self.low,
            high: v,
        }
    }

    fn above(self, v: f64) -> KeyRange {
        KeyRange {
            low: v,
            high: self.high,
        }
    }
}

// n as a float; 1 where it is too large to be one.
fn float_of(n: usize) -> f64 {
    if n < 9007199254740992 { n as f64 } else { 1.0 }
}

// A key, and how many of the items with this key go before the middle.
#[derive(Clone, Copy)]
struct Found {
    key: f64,
    ties: usize,
}

// Puts the items with keys below v at the front of work, and the others at its back; gives how many are below.
fn parted_out(keys: &[f64], v: f64, list: &[u32], work: &mut [u32]) -> usize
    ensures { result ≤ length list.now }
{
    let n = list.len();
    let mut a = 0;
    for (i, x) in list.iter().enumerate() {
        lists::put(work, a, *x);
        lists::put(work, n - 1 - (i - a), *x);
        a += usize::from(key(keys, *x) < v);
    }
    a
}

// Puts the items with keys below v before the others; gives how many are below. The `swap` of slices tests which of
// its two places comes first.
fn parted_in(keys: &[f64], v: f64, part: &mut [u32]) -> usize
    ensures { result ≤ length part.old }
{
    let mut a = 0;
    for i in 0..part.len() {
        let x = part[i];
        part[i] = part[a];
        part[a] = x;
        a += usize::from(key(keys, x) < v);
    }
    a
}

// Four keys.
#[derive(Clone, Copy)]
struct FourKeys {
    a: f64,
    b: f64,
    c: f64,
    d: f64,
}

// The lesser ones of those that stand two apart, then the greater ones.
fn crossed(s: FourKeys) -> FourKeys {
    FourKeys {
        a: lesser_of(s.a, s.c),
        b: lesser_of(s.b, s.d),
        c: greater_of(s.a, s.c),
        d: greater_of(s.b, s.d),
    }
}

// Both pairs in order.
fn paired(s: FourKeys) -> FourKeys {
    FourKeys {
        a: lesser_of(s.a, s.b),
        b: greater_of(s.a, s.b),
        c: lesser_of(s.c, s.d),
        d: greater_of(s.c, s.d),
    }
}

// Four keys that rise and then fall, or fall and then rise, in order.
fn straight(s: FourKeys) -> FourKeys {
    paired(crossed(s))
}

// Four keys in order.
fn ordered(s: FourKeys) -> FourKeys {
    straight(FourKeys {
        a: lesser_of(s.a, s.b),
        b: greater_of(s.a, s.b),
        c: greater_of(s.c, s.d),
        d: lesser_of(s.c, s.d),
    })
}

// One key of each pair, the first of s with the last of t and so on, where `of` gives one of two. Of two fours in order
// these are the four lesser keys, which rise and then fall, or the four greater ones, which fall and then rise.
fn one_of_each<F: Fn(f64, f64) -> f64>(of: F, s: FourKeys, t: FourKeys) -> FourKeys
    requires { F.IsAlwaysCallable of }
{
    FourKeys {
        a: of(s.a, t.d),
        b: of(s.b, t.c),
        c: of(s.c, t.b),
        d: of(s.d, t.a),
    }
}

fn lower(s: FourKeys, t: FourKeys) -> FourKeys {
    one_of_each(lesser_of, s, t)
}

fn upper(s: FourKeys, t: FourKeys) -> FourKeys {
    one_of_each(greater_of, s, t)
}

// One of all four.
fn one_of_all<F: Fn(f64, f64) -> f64>(of: F, s: FourKeys) -> f64
    requires { F.IsAlwaysCallable of }
{
    of(of(s.a, s.b), of(s.c, s.d))
}

fn least(s: FourKeys) -> f64 {
    one_of_all(lesser_of, s)
}

fn most(s: FourKeys) -> f64 {
    one_of_all(greater_of, s)
}

// Items, and the keys of all numbers.
#[derive(Clone, Copy)]
struct Items<'k, 'l> {
    keys: &'k [f64],
    list: &'l [u32],
}

impl<'k, 'l> Items<'k, 'l> {
    // The key of the item at i, `none` past the end.
    fn key_or(self, i: usize, none: f64) -> f64 {
        match self.list.get(i) {
            Some(x) => key(self.keys, *x),
            None => none,
        }
    }

    // How many items have a key that passes the test.
    fn count<F: Fn(f64) -> bool>(self, test: F) -> usize
        requires { F.IsAlwaysCallable test }
    {
        let mut a = 0;
        for x in self.list {
            a += usize::from(test(key(self.keys, *x)));
        }
        a
    }

    // The keys of four items, from i on, in order.
    fn four_from(self, i: usize, none: f64) -> FourKeys
        requires { i ≤ 4 }
    {
        ordered(FourKeys {
            a: self.key_or(i, none),
            b: self.key_or(i + 1, none),
            c: self.key_or(i + 2, none),
            d: self.key_or(i + 3, none),
        })
    }

    // The first r items, and the others.
    fn cut(self, r: usize) -> (Items<'k, 'l>, Items<'k, 'l>)
        requires { r ≤ length self.list.now }
    {
        let (list, rest) = self.list.split_at(r);
        let keys = self.keys;
        (Items { keys, list }, Items { keys, list: rest })
    }

    // The item of rank r, which has the key v, where the greatest key before it is g.
    fn with_ties(self, r: usize, v: f64, g: f64) -> Found {
        if g < v {
            return Found { key: v, ties: 0 };
        }
        let c = self.count(|k| k < v);
        if c < r {
            return Found {
                key: v,
                ties: r - c,
            };
        }
        Found { key: v, ties: 0 }
    }

    // The item of rank r, where at most 4 go before it, and at most 4 from it on. Filled up to eight by keys below all
    // and above all, it is the least of the greater four.
    fn of_eight(self, r: usize) -> Found
        requires { r ≤ length self.list.now }
    {
        let top = 1.0 / 0.0;
        let (front, back) = self.cut(r);
        let s = front.four_from(0, -top);
        let t = back.four_from(0, top);
        self.with_ties(r, least(upper(s, t)), most(lower(s, t)))
    }

    // The same with 8 for 4: a and c are the first eight in order, and d and b the second. It merges fours once more,
    // so that no size makes one function of both.
    fn of_sixteen(self, r: usize) -> Found
        requires { r ≤ length self.list.now }
    {
        let top = 1.0 / 0.0;
        let (front, back) = self.cut(r);
        let w = front.four_from(0, -top);
        let x = front.four_from(4, -top);
        let y = back.four_from(0, top);
        let z = back.four_from(4, top);
        let a = straight(lower(w, x));
        let b = straight(upper(y, z));
        let c = straight(upper(w, x));
        let d = straight(lower(y, z));
        let v = lesser_of(least(upper(a, b)), least(upper(c, d)));
        let g = greater_of(most(lower(a, b)), most(lower(c, d)));
        self.with_ties(r, v, g)
    }

    // The item of rank r of few.
    fn of_few(self, r: usize) -> Found {
        let n = self.list.len();
        if n <= r {
            return Found { key: 0.0, ties: 0 };
        }
        if (r <= 4) & (n - r <= 4) {
            return self.of_eight(r);
        }
        self.of_sixteen(r)
    }

    // The key of the item in the middle, where it is its turn, else one of the range.
    fn tried(self, range: KeyRange, r: usize, own: bool) -> f64 {
        let n = self.list.len();
        if own {
            return self.key_or(n / 2, 0.0 / 0.0);
        }
        range.key_at(r, n)
    }

    // Whether the item of rank r has the key v, below which there are k keys. Where v is no item's own key, only its
    // place between two items counts.
    fn reached(self, v: f64, k: usize, r: usize, own: bool) -> bool {
        if r <= k {
            return r == k;
        }
        own && r < self.count(|k| k <= v)
    }

    // The number of the item that has r items with the key v before it.
    fn tied(self, v: f64, r: usize) -> u32 {
        let mut t = 0;
        let mut c = 0;
        for x in self.list {
            let e = key(self.keys, *x) == v;
            t = if e & (c == r) { *x } else { t };
            c += usize::from(e);
        }
        t
    }
}

// Whether the item of rank r of n has at most 8 before it, and at most 8 from it on.
fn few(n: usize, r: usize) -> bool {
    r <= 8 && n <= r + 8
}

// The item of rank r of those in part, whose keys lie in the range, in so many rounds at most.
fn seek(keys: &[f64], range: KeyRange, part: &mut [u32], r: usize, rounds: usize) -> Found {
    if few(part.len(), r) {
        return Items { keys, list: part }.of_few(r);
    }
    if rounds < 1 {
        return Found {
            key: range.low,
            ties: 0,
        };
    }
    let own = rounds % 2 == 0;
    let v = Items { keys, list: part }.tried(range, r, own);
    let k = parted_in(keys, v, part);
    if r < k {
        return seek(keys, range.below(v), &mut part[..k], r, rounds - 1);
    }
    if (Items { keys, list: part }).reached(v, k, r, own) {
        return Found {
            key: v,
            ties: r - k,
        };
    }
    seek(keys, range.above(v), &mut part[k..], r - k, rounds - 1)
}

// The item in the middle of list, whose keys lie in the range.
fn middle(keys: &[f64], range: KeyRange, list: &[u32], work: &mut [u32]) -> Found
    requires { length list.now ≤ length work.old }
{
    let n = list.len();
    let m = n / 2;
    let v = range.middle();
    let k = parted_out(keys, v, list, work);
    if m < k {
        return seek(keys, range.below(v), &mut work[..k], m, ROUNDS);
    }
    if k == m {
        return Found { key: v, ties: 0 };
    }
    seek(keys, range.above(v), &mut work[k..n], m - k, ROUNDS)
}

// How many keys are below a range, and how many are in it.
#[derive(Clone, Copy)]
struct Bracket {
    below: usize,
    inside: usize,
}

// Puts the items with keys in the range, its end left out, at the front of work.
fn window(keys: &[f64], range: KeyRange, list: &[u32], work: &mut [u32]) -> Bracket
    requires { length list.now ≤ length work.old }
    ensures { result.inside ≤ length list.now }
{
    let mut below = 0;
    let mut inside = 0;
    for x in list {
        let k = key(keys, *x);
        work[inside] = *x;
        below += usize::from(k < range.low);
        inside += usize::from((range.low <= k) & (k < range.high));
    }
    Bracket { below, inside }
}

// How far from the middle of the keys' range the middle item is looked for first, in parts of the range.
fn margin(n: usize) -> f64 {
    number::signs::pick(n <= 32, 0.2, number::signs::pick(n <= 256, 0.1, 0.05))
}

// The item in the middle of many: first near the middle of the keys' range.
fn middle_of_many(keys: &[f64], range: KeyRange, list: &[u32], work: &mut [u32]) -> Found
    requires { length list.now ≤ length work.old }
{
    let n = list.len();
    let m = n / 2;
    let near = range.about_middle(margin(n));
    let w = window(keys, near, list, work);
    if w.below <= m {
        let r = m - w.below;
        if r < w.inside {
            return seek(keys, near, &mut work[..w.inside], r, ROUNDS);
        }
    }
    middle(keys, range, list, work)
}

fn middle_item(keys: &[f64], range: KeyRange, list: &[u32], work: &mut [u32]) -> Found
    requires { length list.now ≤ length work.old }
{
    if list.len() <= 16 {
        return Items { keys, list }.of_few(list.len() / 2);
    }
    middle_of_many(keys, range, list, work)
}

// The pivot that parts the items of list, whose keys lie in the range, in the middle, or one near it.
pub fn guess(keys: &[f64], range: KeyRange, list: &[u32], work: &mut [u32]) -> Pivot
    requires { length list.now ≤ length work.old }
{
    let f = middle_item(keys, range, list, work);
    let number = if 0 < f.ties {
        Items { keys, list }.tied(f.key, f.ties)
    } else {
        0
    };
    Pivot { key: f.key, number }
}
