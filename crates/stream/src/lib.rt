// GDSII streams: numbers as bytes, records, and the order they come in.
#![tactic(auto)]

ghost use Rattle.std.specs.Prelude.{◌≡◌, ◌+◌, ◌*◌, ◌<◌, ◌≤◌, length, take, drop, get_or, nat_abs};
ghost use Rattle.stream.specs.Bytes.{pair_at, step_at, steps_in};
ghost use Rattle.stream.specs.Records.{asked_for, asked_after, at_end, astray, misfit, other_unit, far_step, any_far, SameStep};

// The records' types. They stay numbers: the clauses of asked_after and misfits hold of every number that may
// stand in a stream, so an enum would have a variant for the rest and be turned back for each of them.
const HEADER: usize = 0x0002;

const BGNLIB: usize = 0x0102;

const LIBNAME: usize = 0x0206;

const UNITS: usize = 0x0305;

const ENDLIB: usize = 0x0400;

const BGNSTR: usize = 0x0502;

const STRNAME: usize = 0x0606;

const ENDSTR: usize = 0x0700;

const BOUNDARY: usize = 0x0800;

const LAYER: usize = 0x0D02;

const DATATYPE: usize = 0x0E02;

const XY: usize = 0x1003;

const ENDEL: usize = 0x1100;

// The record that is asked for next. Nothing and Astray are states of the order like the others: the
// definitions asked_after, at_end and astray speak of them so.
#[derive(Clone, Copy, PartialEq, Eq)]
pub enum Awaited {
    Header,
    Bgnlib,
    Libname,
    Units,
    Bgnstr,
    Strname,
    Element,
    Layer,
    Datatype,
    Xy,
    Endel,
    Endlib,
    Nothing,
    Astray,
}

// The number that two bytes write, the high one first.
pub fn pair_at(s: &[u8], at: usize) -> usize
    requires { at + 2 ≤ length s.now }
    ensures { (result ≡ pair_at s.now at) × (result < 65536) }
{
    usize::from(u16::from_be_bytes([s[at], s[at + 1]]))
}

// The signed number k of those that four bytes each write from a place on. The clause lets a number beyond the
// reach be another that is.
pub fn step_at(s: &[u8], from: usize, k: usize) -> i64
    requires { from + 4 * k + 4 ≤ length s.now }
    ensures { SameStep (step_at s.now from k) result }
{
    let at = from + 4 * k;
    i64::from(i32::from_be_bytes([s[at], s[at + 1], s[at + 2], s[at + 3]]))
}

// Whether a coordinate is beyond ±1,048,576 steps.
fn is_far(z: i64) -> bool
    requires { nat_abs z ≤ 4294967296 }
    ensures { result ≡ far_step z }
{
    (1048576 < z) | (z < -1048576)
}

// Whether one of n numbers from a place on is. By place: a closure for `lists::any` would owe that it is one.
pub fn any_far(s: &[u8], from: usize, n: usize) -> bool
    requires { from + 4 * n ≤ length s.now }
    ensures { result ≡ any_far (steps_in (take (4 * n) (drop from s.now))) }
{
    let mut found = false;
    for k in 0..n {
        found = found | is_far(step_at(s, from, k));
    }
    found
}

// Whether the 8 bytes at a place are not those of 1/1,024.
pub fn other_unit(s: &[u8], at: usize) -> bool
    requires { at + 8 ≤ length s.now }
    ensures { result ≡ other_unit (drop at s.now) }
{
    s[at..at + 8] != [0x3E, 0x40, 0, 0, 0, 0, 0, 0]
}

// What is asked for after a type, where just one is in order.
fn asked_for(t: usize, wanted: usize, then: Awaited) -> Awaited
    ensures { result ≡ asked_for t wanted then }
{
    if t == wanted { then } else { Awaited::Astray }
}

// What is asked for after a record of type t.
#[tactic(auto, unfolding(crate::specs::Records::asked_after))]
pub fn asked_after(asked: Awaited, t: usize) -> Awaited
    ensures { result ≡ asked_after asked t }
{
    match asked {
        Awaited::Header => asked_for(t, HEADER, Awaited::Bgnlib),
        Awaited::Bgnlib => asked_for(t, BGNLIB, Awaited::Libname),
        Awaited::Libname => asked_for(t, LIBNAME, Awaited::Units),
        Awaited::Units => asked_for(t, UNITS, Awaited::Bgnstr),
        Awaited::Bgnstr => asked_for(t, BGNSTR, Awaited::Strname),
        Awaited::Strname => asked_for(t, STRNAME, Awaited::Element),
        Awaited::Element => {
            if t == BOUNDARY {
                Awaited::Layer
            } else {
                asked_for(t, ENDSTR, Awaited::Endlib)
            }
        }
        Awaited::Layer => asked_for(t, LAYER, Awaited::Datatype),
        Awaited::Datatype => asked_for(t, DATATYPE, Awaited::Xy),
        Awaited::Xy => asked_for(t, XY, Awaited::Endel),
        Awaited::Endel => asked_for(t, ENDEL, Awaited::Element),
        Awaited::Endlib => asked_for(t, ENDLIB, Awaited::Nothing),
        Awaited::Nothing | Awaited::Astray => Awaited::Astray,
    }
}

// Whether nothing more is asked for.
#[tactic(auto, unfolding(crate::specs::Records::at_end))]
pub fn is_at_end(asked: Awaited) -> bool
    ensures { result ≡ at_end asked }
{
    matches!(asked, Awaited::Nothing)
}

// Whether another type came than was asked for.
#[tactic(auto, unfolding(crate::specs::Records::astray))]
pub fn is_astray(asked: Awaited) -> bool
    ensures { result ≡ astray asked }
{
    matches!(asked, Awaited::Astray)
}

// Whether a type has another number of data bytes than it may have.
pub fn misfits(t: usize, n: usize) -> bool
    requires { n < 65536 }
    ensures { result ≡ misfit t n }
{
    ((t == UNITS) & (n + 4 != 20)) | ((t == XY) & (n % 8 != 0))
}
