// Replays cases of the comparison with the Rust: reads calls from standard input, one a line, makes
// each and writes its answer, one a line. oracle/sample writes the calls and the Rust's answers. A
// call is an operation's name and its arguments, floats as their bits in hexadecimal, a list as its
// length and its floats or bytes.
#![tactic(auto)]

mod arguments;
mod indexes;
mod numbers;
mod operation;
mod outlines;
mod sets;
mod streams;

use arguments::{Cell, Lent, Point};
use indexes::Index;
use operation::{Operation, Query, UnknownName};
use sample::read::Reader;
use std::io;
use std::io::{BufWriter, Read, Write};

// Makes the call that the name stands for; its arguments are what the reader has next.
fn answer<R: Read + Drop, W: Write>(
    name: &[u8],
    input: &mut Reader<R>,
    to: &mut W,
    index: &mut Index,
) -> io::Result<()> {
    match Operation::try_from(name) {
        Ok(Operation::Sqrt) => numbers::sqrt(to, input.value()),
        Ok(Operation::Hypot) => numbers::hypot(to, input.value(), input.value()),
        Ok(Operation::Gdsii) => {
            let mut bytes = [0; 512];
            streams::read(
                to,
                input.list(&mut bytes),
                Lent::read(input),
                Lent::read(input),
            )
        }
        Ok(Operation::Of(query)) => {
            let mut floats = [0.0; 64];
            let v = input.list(&mut floats);
            ask(query, v, input, to, index)
        }
        Err(UnknownName) => {
            let mut floats = [0.0; 64];
            input.list(&mut floats);
            writeln!(to, "unknown")
        }
    }
}

// Makes the call that asks about a list of floats; its other arguments are what the reader has next.
fn ask<R: Read + Drop, W: Write>(
    query: Query,
    v: &[f64],
    input: &mut Reader<R>,
    to: &mut W,
    index: &mut Index,
) -> io::Result<()> {
    let mut counts = [0; 16];
    match query {
        Query::Area => outlines::area(to, v),
        Query::Perimeter => outlines::perimeter(to, v),
        Query::Bounds => outlines::bounds(to, v),
        Query::Contains => outlines::contains(to, v, Point::read(input)),
        Query::Locate => outlines::locate(to, v, Point::read(input)),
        Query::Distance => outlines::distance(to, v, Point::read(input)),
        Query::Make => outlines::make(to, v, Lent::read(input)),
        Query::Fill => outlines::fill(to, v, Cell::read(input), Lent::read(input)),
        Query::Ellipse => outlines::ellipse(to, v),
        Query::Build => indexes::build(to, v, index),
        Query::Meeting => indexes::meeting(to, v, Cell::read(input), index),
        Query::AnyAt => sets::any_at(to, v, input.list(&mut counts), Point::read(input), index),
        Query::Nearest => sets::nearest(to, v, input.list(&mut counts), Point::read(input), index),
        Query::NearestMany => {
            let mut points = [0.0; 520];
            let counts = input.list(&mut counts);
            sets::nearest_many(to, v, counts, input.list(&mut points), input.value(), index)
        }
    }
}

// A proved loop has to end, and nothing says that the input does: so this loop counts to a number that no
// run reaches.
fn main(rt: HostRuntime) -> io::Result<()> {
    let mut input = Reader::new(rt.stdin());
    let mut to = BufWriter::new(rt.alloc(), rt.stdout())?;
    let mut index = Index::new();
    for _ in 0..u64::MAX {
        let Some(name) = input.word() else { break };
        answer(name.name(), &mut input, &mut to, &mut index)?;
    }
    to.flush()
}
