// What the arguments of a call stand for.
ghost use Rattle.std.specs.Prelude.{◌≤◌};

use sample::read::Reader;
use std::io::Read;

#[derive(Clone, Copy)]
pub struct Point {
    pub x: f64,
    pub y: f64,
}

#[derive(Clone, Copy)]
pub struct Cell {
    pub low: Point,
    pub high: Point,
}

impl Point {
    pub fn read<R: Read + Drop>(input: &mut Reader<R>) -> Self {
        let x = input.value();
        let y = input.value();
        Point { x, y }
    }
}

impl Cell {
    pub fn read<R: Read + Drop>(input: &mut Reader<R>) -> Self {
        let low = Point::read(input);
        let high = Point::read(input);
        Cell { low, high }
    }
}

// How many places of a list are lent.
#[derive(Clone, Copy)]
pub struct Lent(u64);

impl Lent {
    pub fn read<R: Read + Drop>(input: &mut Reader<R>) -> Self {
        Lent(input.value())
    }

    // A count of places, of which there are `most`.
    pub fn of(self, most: usize) -> usize
        ensures { result ≤ most }
    {
        ((self.0 % 256) as usize).min(most)
    }
}
