// The parts of an answer, which is a line: the refusal's number, the answer fields, and what the call has written.
ghost use Rattle.std.specs.Prelude.{◌≡◌, take};

use crate::floats::Bits;
use std::fmt;

// What a list has: floats, and numbers in base 16.
pub trait Member {
    fn write<W: fmt::Write>(&self, f: &mut fmt::Formatter<W>) -> fmt::Result;
}

impl Member for f64 {
    fn write<W: fmt::Write>(&self, f: &mut fmt::Formatter<W>) -> fmt::Result {
        let x = Bits(*self);
        write!(f, "{x}")
    }
}

impl Member for u32 {
    fn write<W: fmt::Write>(&self, f: &mut fmt::Formatter<W>) -> fmt::Result {
        write!(f, "{self:x}")
    }
}

// A list, written with a space before each member.
#[derive(Drop)]
pub struct List<'a, T>(pub &'a [T]);

impl<'a, T> List<'a, T> {
    // The first n of a list, or all where there are fewer.
    pub fn first(list: &'a [T], n: usize) -> Self
        ensures { result.0.now ≡ take n list.now }
    {
        List(&list[..n.min(list.len())])
    }
}

impl<T: Member> fmt::Display for List<'_, T> {
    fn fmt<W: fmt::Write>(&self, f: &mut fmt::Formatter<W>) -> fmt::Result {
        for member in self.0 {
            write!(f, " ")?;
            member.write(f)?;
        }
        Ok(())
    }
}
