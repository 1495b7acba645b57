// The second pass: the kept parts, written as one path to the front of a list, four numbers to a line. Lines past
// its end are counted and not written.
ghost use Rattle.std.specs.Prelude.{◌≡◌, cond, List, ◌++◌, ◌+◌, ◌-◌, ◌*◌, ◌/◌, ◌<◌, ◌≤◌, length};
ghost use Rattle.boundary.specs.declared.Edge.{Edge};
ghost use Rattle.lists.specs.Lists.{fold};
ghost use Rattle.clip.specs.Passes.{Path, if_on, joint_to, moved_of, followed, step_of, closed_path, traced};
ghost use Rattle.clip.specs.Lent.{room_of, lines_from, put_at, RestKept, Holds, Tracks};

use crate::{HalfPlane, PathEnds, State, parts, scan};
use boundary::{Edge, Point, same_point};

fn put(w: &mut [f64], o: usize, e: Edge)
    requires { o + 4 ≤ length w.old }
    ensures { w.new ≡ put_at w.old o e }
{
    w[o] = e.a.x;
    w[o + 1] = e.a.y;
    w[o + 2] = e.b.x;
    w[o + 3] = e.b.y;
}

// Writes e as line `at`, where `on` is set and there is room; counts it all the same.
pub fn emit(out: &mut [f64], at: usize, e: Edge, on: bool) -> usize
    requires { at < 9223372036854775808 }
    ensures { (result ≡ at + cond on 1 0) × RestKept out.old out.new
        × ((es : List Edge) → Holds 0 (room_of out.old) out.old at es → Holds 0 (room_of out.old) out.new result (es ++ if_on on e)) }
{
    if !on {
        return at;
    }
    if at < out.len() / 4 {
        put(out, 4 * at, e);
        return at + 1;
    }
    at + 1
}

// Writes the joint from the path's end to q, where one is needed; how many lines the path has then.
fn join(out: &mut [f64], s: State, q: Point) -> usize
    requires { s.at < 9223372036854775808 }
    ensures { (result ≤ s.at + 1) × RestKept out.old out.new
        × ((es : List Edge) → Holds 0 (room_of out.old) out.old s.at es → Holds 0 (room_of out.old) out.new result (es ++ joint_to s.ends q)) }
{
    match s.ends {
        None => s.at,
        Some(p) => emit(out, s.at, Edge { a: p.last, b: q }, !same_point(p.last, q)),
    }
}

// The path's ends once e is written.
fn moved(ends: Option<PathEnds>, e: Edge) -> PathEnds
    ensures { result ≡ moved_of ends e }
{
    let start = match ends {
        None => e.a,
        Some(p) => p.start,
    };
    PathEnds { start, last: e.b }
}

// Writes a part that is kept, after the joint to it.
fn follow(out: &mut [f64], s: State, e: Edge, kept: bool) -> State
    requires { s.at < 6917529027641081856 }
    ensures { (result.at ≤ s.at + 2) × RestKept out.old out.new
        × ((t : Path) → Tracks 0 (room_of out.old) out.old s t → Tracks 0 (room_of out.old) out.new result (followed t e kept)) }
{
    if !kept {
        return s;
    }
    let at = join(out, s, e.a);
    let next = emit(out, at, e, true);
    State {
        ends: Some(moved(s.ends, e)),
        at: next,
    }
}

// Writes the parts of a line.
fn step(out: &mut [f64], side: HalfPlane, e: Edge, s: State) -> State
    requires { s.at < 4611686018427387904 }
    ensures { (result.at ≤ s.at + 4) × RestKept out.old out.new
        × ((t : Path) → Tracks 0 (room_of out.old) out.old s t → Tracks 0 (room_of out.old) out.new result (step_of side t e)) }
{
    let m = parts::marked(side, e);
    match m.cut {
        None => follow(out, s, e, m.start_kept),
        Some(_) => {
            let a = follow(out, s, parts::first(m, e), m.start_kept);
            follow(out, a, parts::second(m, e), m.end_kept)
        }
    }
}

// Writes the parts of the lines, from line `start` on and going round.
fn run(lines: &[f64], side: HalfPlane, out: &mut [f64], start: usize, s: State) -> State
    requires { (start < room_of lines.now) × (s.at ≤ 4 * room_of lines.now) }
    ensures { (result.at ≤ s.at + 4 * room_of lines.now) × RestKept out.old out.new
        × ((t : Path) → Tracks 0 (room_of out.old) out.old s t → Tracks 0 (room_of out.old) out.new result (fold (step_of side) (fold (step_of side) t (lines_from lines.now 0 start (room_of lines.now - start))) (lines_from lines.now 0 0 start))) }
{
    let n = lines.len() / 4;
    let mut now = s;
    let mut i = start;
    for _ in 0..n {
        now = step(out, side, scan::line_at(lines, 4 * i), now);
        i = boundary::next(i, n);
    }
    now
}

fn empty() -> State
    ensures { result ≡ record { ends = None; at = 0 } }
{
    State { ends: None, at: 0 }
}

// Writes the joint from the path's end to its start, where one is needed; how many lines the path has.
fn close(out: &mut [f64], s: State) -> usize
    requires { s.at < 9223372036854775808 }
    ensures { RestKept out.old out.new × ((t : Path) → Tracks 0 (room_of out.old) out.old s t → Holds 0 (room_of out.old) out.new result (closed_path t)) }
{
    match s.ends {
        None => s.at,
        Some(p) => join(out, s, p.start),
    }
}

// Writes the path of the lines, from line `start` on and going round; how many lines it has.
pub fn trace(lines: &[f64], side: HalfPlane, out: &mut [f64], start: usize) -> usize
    requires { start < room_of lines.now }
    ensures { RestKept out.old out.new
        × Holds 0 (room_of out.old) out.new result (traced side (lines_from lines.now 0 start (room_of lines.now - start)) (lines_from lines.now 0 0 start)) }
{
    let b = run(lines, side, out, start, empty());
    close(out, b)
}
