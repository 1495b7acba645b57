// Floats from their bits and back.
ghost use Rattle.std.specs.Prelude.{◌≡◌, ◌%◌, ◌^◌, ◌≤◌};
ghost use lib.Ieee.{of_bits, binary64};

use std::fmt;

// The float that has these bits; every pattern of a NaN gives the one NaN.
pub fn float(bits: u64) -> f64
    ensures { bits % 2 ^ 63 ≤ 0x7ff0_0000_0000_0000 → result ≡ of_bits binary64 bits }
{
    if bits % 0x8000_0000_0000_0000 <= 0x7ff0_0000_0000_0000 {
        return f64::from_bits(bits);
    }
    f64::NAN
}

// A float, written as its bits, or 'nan'.
#[derive(Clone, Copy)]
pub struct Bits(pub f64);

impl fmt::Display for Bits {
    fn fmt<W: fmt::Write>(&self, f: &mut fmt::Formatter<W>) -> fmt::Result {
        if self.0.is_nan() {
            return write!(f, "nan");
        }
        let bits = self.0.to_bits();
        write!(f, "{bits:016x}")
    }
}

// A measure, written as its bits. A zero's sign is not compared: it is written as +0.
#[derive(Clone, Copy)]
pub struct Measure(pub f64);

impl fmt::Display for Measure {
    fn fmt<W: fmt::Write>(&self, f: &mut fmt::Formatter<W>) -> fmt::Result {
        let x = Bits(self.0 + 0.0);
        write!(f, "{x}")
    }
}
