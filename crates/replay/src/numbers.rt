// The number helpers: vk_sqrt and vk_hypot.
use sample::floats::Bits;
use std::io;
use std::io::Write;

pub fn sqrt<W: Write>(to: &mut W, x: f64) -> io::Result<()> {
    writeln!(to, "{}", Bits(viskunor::vk_sqrt(x)))
}

pub fn hypot<W: Write>(to: &mut W, a: f64, b: f64) -> io::Result<()> {
    writeln!(to, "{}", Bits(viskunor::vk_hypot(a, b)))
}
