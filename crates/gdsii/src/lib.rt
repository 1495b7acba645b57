// Reading a GDSII stream: it is read twice, first to judge and measure it, then to write the set that it holds.
#![tactic(auto)]

ghost use Rattle.std.specs.Prelude.{◌≡◌, true, ◌&&◌, ◌+◌, ◌*◌, ◌≤◌, eqb, length, drop, set};
ghost use Rattle.stream.specs.Format.{UNITS};
ghost use Rattle.stream.specs.Records.{other_unit};
ghost use Rattle.xy.specs.Outlines.{steps_from};
ghost use Rattle.gdsii.specs.declared.Size.{Size};
ghost use Rattle.gdsii.specs.Reading.{record_tested, reading};
ghost use Rattle.gdsii.specs.Answers.{no_set, measured, set_lent, read_outcome};
ghost use Rattle.gdsii.specs.Work.{AtRecord, Joins, RoomForSet, Wrote, SignsOf, sign_of, with_record_sign, size_with, grown_by, outline_read, record_read, written_at};

use accept::Refusal;
use accept::answers::Zeros;
use accept::refusals::refuse_when;
use stream::Awaited;

// How many outlines and vertices a set has.
#[derive(Clone, Copy)]
pub struct Size {
    pub outlines: u32,
    pub vertices: u32,
}

impl Zeros for Size {
    ghost zeros = { no_set };

    fn zeros() -> Size {
        Size {
            outlines: 0,
            vertices: 0,
        }
    }
}

// Whether a record of type t with data from a place on is a UNITS of another unit.
fn is_other_unit(s: &[u8], from: usize, t: usize) -> bool
    requires { eqb t UNITS ≡ true → from + 8 ≤ length s.now }
    ensures { result ≡ (eqb t UNITS && other_unit (drop from s.now)) }
{
    if t == 0x0305 {
        return stream::other_unit(s, from);
    }
    false
}

// What tests 16 and 17 say of the record at a place, where `then` is asked for after its type t.
fn record_tested(s: &[u8], at: usize, then: Awaited, t: usize, size: usize) -> Result<(), Refusal>
    requires { AtRecord s.now at t size }
    ensures { result ≡ record_tested then (drop at s.now) }
{
    if (size < 4) | (s.len() - at < size) {
        return Err(Refusal::BadRecord);
    }
    if stream::is_astray(then) | stream::misfits(t, size - 4) {
        return Err(Refusal::BadRecord);
    }
    let other = is_other_unit(s, at + 4, t);
    refuse_when(other, Refusal::OtherUnit)
}

// The size of a set with one outline more, of n vertices.
fn grown(done: Size, n: u32) -> Result<Size, Refusal>
    requires { (done.outlines ≤ 1024) × (done.vertices ≤ 65536) × (n ≤ 4096) }
    ensures { result ≡ grown_by done n }
{
    let outlines = done.outlines + 1;
    let vertices = done.vertices + n;
    if (1024 < outlines) | (65536 < vertices) {
        return Err(Refusal::TooMany);
    }
    Ok(Size { outlines, vertices })
}

// The size of a set with the outline of n vertices from a place on. Whether the outline is to be reversed is put
// to the signs.
fn outline_read(
    s: &[u8],
    from: usize,
    n: usize,
    done: Size,
    signs: &mut [bool],
) -> Result<Size, Refusal>
    requires { (from + 8 * n ≤ length s.now) × (done.outlines ≤ 1024) × (done.vertices ≤ 65536) }
    ensures value { result ≡ outline_read done (steps_from s.now from n) }
    ensures signs_after { (z : Size) → result ≡ Ok z → signs.new ≡ set signs.old done.outlines (sign_of (steps_from s.now from n)) }
{
    let makings = xy::xy_tested(s, from, n)?;
    lists::put(signs, done.outlines as usize, makings.reversed);
    grown(done, makings.vertices)
}

// The size of the set after the record at a place, and its sign where it is an outline.
fn record_read(
    s: &[u8],
    at: usize,
    then: Awaited,
    t: usize,
    size: usize,
    done: Size,
    signs: &mut [bool],
) -> Result<Size, Refusal>
    requires { AtRecord s.now at t size × (done.outlines ≤ 1024) × (done.vertices ≤ 65536) }
    ensures value { result ≡ record_read then done (drop at s.now) }
    ensures signs_after { (z : Size) → result ≡ Ok z → signs.new ≡ with_record_sign done (drop at s.now) signs.old }
{
    record_tested(s, at, then, t, size)?;
    if t == 0x1003 {
        return outline_read(s, at + 4, (size - 4) / 8, done, signs);
    }
    Ok(done)
}

// The size of the set that a stream holds, or why it is turned away; and the signs of its outlines. The loop goes on by
// records, and not by one.
fn measure(s: &[u8], signs: &mut [bool]) -> Result<Size, Refusal>
    requires { length signs.old ≡ 1024 }
    ensures { (result ≡ measured (reading s.now)) × SignsOf (reading s.now) signs.new }
{
    let mut asked = Awaited::Header;
    let mut at: usize = 0;
    let mut done = Size {
        outlines: 0,
        vertices: 0,
    };
    while !stream::is_at_end(asked) {
        if s.len() - at < 4 {
            return Err(Refusal::BadRecord);
        }
        let size = stream::pair_at(s, at);
        let t = stream::pair_at(s, at + 2);
        let then = stream::asked_after(asked, t);
        done = record_read(s, at, then, t, size, done, signs)?;
        asked = then;
        at += size;
    }
    Ok(done)
}

// Writes the outline of n vertices from a place on where the set so far ends, and its vertex count: the size
// of the set with it.
fn write_outline(
    s: &[u8],
    from: usize,
    n: usize,
    done: Size,
    signs: &[bool],
    vertices: &mut [f64],
    counts: &mut [u32],
) -> Size
    requires { Joins s.now from n done signs.now (set_lent vertices.old counts.old) }
    ensures value { result ≡ size_with done (steps_from s.now from n) }
    ensures set_after { set_lent vertices.new counts.new ≡ written_at done (steps_from s.now from n) (set_lent vertices.old counts.old) }
{
    let at = 2 * (done.vertices as usize);
    let back = lists::at(signs, done.outlines as usize, false);
    let m = xy::write_made(s, from, n, back, &mut vertices[at..]);
    lists::put(counts, done.outlines as usize, m);
    Size {
        outlines: done.outlines + 1,
        vertices: done.vertices + m,
    }
}

// Writes the set of an accepted stream, so many outlines: no test is made again. The loop goes on by records, and not by
// one.
fn write(s: &[u8], outlines: u32, signs: &[bool], vertices: &mut [f64], counts: &mut [u32])
    requires { RoomForSet s.now outlines signs.now (set_lent vertices.old counts.old) }
    ensures { Wrote s.now (set_lent vertices.old counts.old) (set_lent vertices.new counts.new) }
{
    let mut at: usize = 0;
    let mut done = Size {
        outlines: 0,
        vertices: 0,
    };
    while done.outlines < outlines {
        let size = stream::pair_at(s, at);
        let t = stream::pair_at(s, at + 2);
        if t == 0x1003 {
            done = write_outline(s, at + 4, (size - 4) / 8, done, signs, vertices, counts);
        }
        at += size;
    }
}

// Reads a stream into two lent lists, with space for the signs of its outlines: nothing is written to the lists
// unless all of it is accepted.
fn read_in(
    s: &[u8],
    signs: &mut [bool],
    vertices: &mut [f64],
    counts: &mut [u32],
) -> Result<Size, Refusal>
    requires { length signs.old ≡ 1024 }
    ensures { record { answer = result; lent = set_lent vertices.new counts.new }
        ≡ read_outcome s.now (set_lent vertices.old counts.old) }
{
    let size = measure(s, signs)?;
    let short = vertices.len() < 2 * (size.vertices as usize);
    if short | (counts.len() < (size.outlines as usize)) {
        return Err(Refusal::ShortBuffer);
    }
    write(s, size.outlines, signs, vertices, counts);
    Ok(size)
}

// The same, with its own space for the signs.
pub fn read(s: &[u8], vertices: &mut [f64], counts: &mut [u32]) -> Result<Size, Refusal>
    ensures { record { answer = result; lent = set_lent vertices.new counts.new }
        ≡ read_outcome s.now (set_lent vertices.old counts.old) }
{
    let mut signs = [false; 1024];
    read_in(s, &mut signs, vertices, counts)
}
