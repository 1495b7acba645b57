// The fill of a cell: the four clips, the sum, and the halves cleared.
ghost use Rattle.std.specs.Prelude.{◌≡◌, Bool, ◌||◌, cond, List, ℕ, ◌+◌, ◌*◌, ◌<◌, ◌≤◌, ltb, length, drop, Float};
ghost use Rattle.boundary.specs.declared.Edge.{Edge};
ghost use Rattle.lists.specs.Lists.{total};
ghost use Rattle.boundary.specs.Outline.{count, edges};
ghost use Rattle.accept.specs.declared.Refusal.TheVariants.{LongList};
ghost use Rattle.clip.specs.Clip.{clip_of};
ghost use Rattle.clip.specs.Lent.{half_in, room_of, lines_from, Stage};
ghost use Rattle.clip.specs.Shortened.{Shortened, StripOf};
ghost use Rattle.fill.specs.Fill.{side_of, low_x_of, high_x_of, low_y_of, high_y_of, clip1, clip2, longer, xdy_of};
ghost use Rattle.number.specs.Exact.{Doubles};
ghost use Rattle.boundary.specs.Boxes.{DoubleBox};
ghost use Rattle.accept.specs.Refusals.{all_passed};
ghost use Rattle.fill.specs.Answers.{fill_tested, filled, filled_outcome};

use crate::{lines, within};
use accept::Refusal;
use boundary::{Bounds, Edge};
use clip::{HalfPlane, Stored};
use number::signs::pick;

// The half-plane of one side of the cell: of y or else of x, above the low bound or else below the high one.
fn side(c: Bounds, y: bool, above: bool) -> HalfPlane
    ensures { result ≡ side_of y above c }
{
    let p = if above { c.min } else { c.max };
    HalfPlane {
        y,
        above,
        v: pick(y, p.y, p.x),
    }
}

// Where the list stands that the first clip gave, once `beyond` more lines are counted in it: too long, if a half
// does not hold as many.
fn counted(half: usize, c: Stored, beyond: usize) -> Stored
    requires { (half < 9223372036854775808) × (beyond ≤ half) }
    ensures { (w : List Float) (es : List Edge) (m : ℕ) → m ≡ beyond + length es → Stage half w c (ltb half (length es)) es → Stage half w result (ltb half m) es }
{
    let n = c.n;
    let second = c.second;
    if half - beyond < n {
        return Stored {
            second,
            n: half + 1,
        };
    }
    c
}

// The clips at low x and high x of the n lines in the first half, which stand for an outline's edges but for
// `beyond` of them. An empty list stays so.
fn clip_x(w: &mut [f64], n: usize, beyond: usize, c: Bounds) -> Stored
    requires { (n ≤ half_in w.old) × (beyond ≤ half_in w.old) }
    ensures { let half = half_in w.old in (length w.new ≡ length w.old) × (drop (8 * half) w.new ≡ drop (8 * half) w.old)
        × ((es : List Edge) → Shortened (low_x_of c) (high_x_of c) beyond es (lines_from w.old 0 0 n) → Stage half w.new result (longer half (clip1 es c) || longer half (clip2 es c)) (clip2 es c)) }
{
    let first = clip::halves::clip(w, Stored { second: false, n }, side(c, false, true));
    let a = counted(w.len() / 8, first, beyond);
    if a.n == 0 {
        return a;
    }
    clip::halves::clip(w, a, side(c, false, false))
}

// Those at low y and high y.
fn clip_y(w: &mut [f64], b: Stored, c: Bounds) -> Stored
    ensures { let half = half_in w.old in (length w.new ≡ length w.old) × (drop (8 * half) w.new ≡ drop (8 * half) w.old)
        × ((long : Bool) (es : List Edge) → Stage half w.old b long es
        → Stage half w.new result ((long || longer half (clip_of (low_y_of c) es)) || longer half (clip_of (high_y_of c) (clip_of (low_y_of c) es))) (clip_of (high_y_of c) (clip_of (low_y_of c) es))) }
{
    if b.n == 0 {
        return b;
    }
    let d = clip::halves::clip(w, b, side(c, true, true));
    clip::halves::clip(w, d, side(c, true, false))
}

// The integral of x dy along a line.
fn x_dy(e: Edge) -> f64
    ensures { result ≡ xdy_of e }
{
    (e.a.x + e.b.x) / 2.0 * (e.b.y - e.a.y)
}

// The sum of x dy over lines.
fn sum(lines: &[f64]) -> f64
    ensures { result ≡ total xdy_of (lines_from lines.now 0 0 (room_of lines.now)) }
{
    let mut sum = 0.0;
    for i in 0..lines.len() / 4 {
        sum += x_dy(clip::scan::line_at(lines, 4 * i));
    }
    sum
}

// The same over the outline's edges. Each vertex is read once: the end of one edge is the start of the next.
fn sum_own(v: &[f64]) -> f64
    requires { 1 ≤ count v.now }
    ensures { result ≡ total xdy_of (edges v.now) }
{
    let n = v.len() / 2;
    let first = boundary::vertex_at(v, 0);
    let mut area = 0.0;
    let mut a = first;
    for i in 1..n {
        let b = boundary::vertex_at(v, i);
        area += x_dy(Edge { a, b });
        a = b;
    }
    area + x_dy(Edge { a, b: first })
}

// What the four clips have left: the fill, or refusal 14.
fn summed(w: &[f64], c: Stored) -> Result<f64, Refusal>
    ensures { (long : Bool) (es : List Edge) → Stage (half_in w.now) w.now c long es → result ≡ cond long (Err LongList) (Ok (total xdy_of es)) }
{
    let n = c.n;
    let half = w.len() / 8;
    if half < n {
        return Err(Refusal::LongList);
    }
    let from = clip::halves::place(half, c.second);
    Ok(sum(&w[from..from + 4 * n]))
}

// The fill by the four clips, in the halves of a list.
fn clipped(v: &[f64], c: Bounds, w: &mut [f64]) -> Result<f64, Refusal>
    requires { (count v.now ≤ half_in w.old) × StripOf (low_x_of c) (high_x_of c) v.now }
    ensures { let half = half_in w.old in (result ≡ filled half (edges v.now) c) × (length w.new ≡ length w.old)
        × (drop (8 * half) w.new ≡ drop (8 * half) w.old) }
{
    let half = w.len() / 8;
    let low = side(c, false, true);
    let k = lines::write_chords(v, low, side(c, false, false), &mut w[..4 * half]);
    let b = clip_x(w, k.n, k.beyond, c);
    let last = clip_y(w, b, c);
    summed(w, last)
}

// The fill. An outline wholly inside the cell is summed as it is: no clip would change it, and nothing is
// written to the halves.
fn fill_by(v: &[f64], c: Bounds, w: &mut [f64]) -> Result<f64, Refusal>
    requires { (fill_tested v.now c (length w.old) ≡ all_passed) × Doubles v.now × DoubleBox c }
    ensures { let half = half_in w.old in (result ≡ filled half (edges v.now) c) × (length w.new ≡ length w.old)
        × (drop (8 * half) w.new ≡ drop (8 * half) w.old) }
{
    if within::is_within(v, c) {
        return Ok(sum_own(v));
    }
    clipped(v, c, w)
}

// The fill, in a buffer that is long enough.
pub fn fill_in(v: &[f64], c: Bounds, w: &mut [f64]) -> Result<f64, Refusal>
    requires { (fill_tested v.now c (length w.old) ≡ all_passed) × Doubles v.now × DoubleBox c }
    ensures { record { answer = result; lent = w.new } ≡ filled_outcome v.now c w.old }
{
    let half = w.len() / 8;
    let answer = fill_by(v, c, w);
    lists::clear(w, 8 * half, 0.0);
    answer
}
