// `clip` from one half of a lent list to the other.
ghost use Rattle.std.specs.Prelude.{◌≡◌, ◌-◌, ◌*◌, ◌<◌, ◌≤◌, length, drop, not};
ghost use Rattle.clip.specs.Lent.{half_in, place_of, lines_from, Holds, Clipped};
ghost use Rattle.clip.specs.Passes.{traced};

use crate::{FirstPass, HalfPlane, Stored, path, scan};

// Where a half starts.
pub fn place(half: usize, second: bool) -> usize
    requires { 8 * half < 18446744073709551616 }
    ensures { result ≡ place_of half second }
{
    if second { 4 * half } else { 0 }
}

// The path of a list's lines, from line `start` on and going round, written to the other half; how many lines it
// has.
fn retrace(w: &mut [f64], c: Stored, s: HalfPlane, start: usize) -> usize
    requires { (c.n ≤ half_in w.old) × (start < c.n) }
    ensures { let half = half_in w.old in (drop (8 * half) w.new ≡ drop (8 * half) w.old)
        × Holds (place_of half (not c.second)) half w.new result (traced s (lines_from w.old (place_of half c.second) start (c.n - start)) (lines_from w.old (place_of half c.second) 0 start)) }
{
    let half = w.len() / 8;
    let (first, rest) = w.split_at_mut(4 * half);
    let (second, _) = rest.split_at_mut(4 * half);
    if c.second {
        path::trace(&second[..4 * c.n], s, first, start)
    } else {
        path::trace(&first[..4 * c.n], s, second, start)
    }
}

// A list of at least one line, and of no more than a half holds, clipped. Where every part is inside it stays where it
// is, and nothing is written.
fn clip_some(w: &mut [f64], c: Stored, s: HalfPlane) -> Stored
    requires { (1 ≤ c.n) × (c.n ≤ half_in w.old) }
    ensures { Clipped (half_in w.old) s w.old w.new c result }
{
    let n = c.n;
    let second = c.second;
    let from = place(w.len() / 8, second);
    match scan::first_pass(&w[from..from + 4 * n], s) {
        FirstPass::AllKept => c,
        FirstPass::NoneKept => Stored { second, n: 0 },
        FirstPass::StartsAt { start, .. } => Stored {
            second: !second,
            n: retrace(w, c, s, start),
        },
    }
}

// A list, clipped; one that is too long for a half stays so.
pub fn clip(w: &mut [f64], c: Stored, s: HalfPlane) -> Stored
    ensures { Clipped (half_in w.old) s w.old w.new c result }
{
    let n = c.n;
    if w.len() / 8 < n {
        return c;
    }
    if n == 0 {
        return c;
    }
    clip_some(w, c, s)
}
