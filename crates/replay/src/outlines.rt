// Outlines and ellipses: the calls vk_outline_... and vk_ellipse_nearest. A list comes as its length and
// its numbers, an ellipse with its point as a list of six, a list that is lent to be written to as its
// length; an answer is the refusal's number, the answer fields and such a list.
use crate::arguments::{Cell, Lent, Point};
use sample::answers::List;
use sample::floats::Measure;
use std::io;
use std::io::Write;

pub fn area<W: Write>(to: &mut W, v: &[f64]) -> io::Result<()> {
    let mut area = 1.0;
    let number = viskunor::outlines::vk_outline_area(v, &mut area);
    writeln!(to, "{number:x} {}", Measure(area))
}

pub fn perimeter<W: Write>(to: &mut W, v: &[f64]) -> io::Result<()> {
    let mut perimeter = 1.0;
    let number = viskunor::outlines::vk_outline_perimeter(v, &mut perimeter);
    writeln!(to, "{number:x} {}", Measure(perimeter))
}

pub fn bounds<W: Write>(to: &mut W, v: &[f64]) -> io::Result<()> {
    let mut a = 1.0;
    let mut b = 1.0;
    let mut c = 1.0;
    let mut d = 1.0;
    let number = viskunor::outlines::vk_outline_bounds(v, &mut a, &mut b, &mut c, &mut d);
    writeln!(
        to,
        "{number:x} {} {} {} {}",
        Measure(a),
        Measure(b),
        Measure(c),
        Measure(d)
    )
}

pub fn contains<W: Write>(to: &mut W, v: &[f64], p: Point) -> io::Result<()> {
    let mut inside = 9;
    let number = viskunor::outlines::vk_outline_contains(v, p.x, p.y, &mut inside);
    writeln!(to, "{number:x} {inside:x}")
}

pub fn locate<W: Write>(to: &mut W, v: &[f64], p: Point) -> io::Result<()> {
    let mut location = 9;
    let number = viskunor::outlines::vk_outline_locate(v, p.x, p.y, &mut location);
    writeln!(to, "{number:x} {location:x}")
}

pub fn distance<W: Write>(to: &mut W, v: &[f64], p: Point) -> io::Result<()> {
    let mut d = 1.0;
    let mut a = 1.0;
    let mut b = 1.0;
    let number = viskunor::outlines::vk_outline_distance(v, p.x, p.y, &mut d, &mut a, &mut b);
    writeln!(
        to,
        "{number:x} {} {} {}",
        Measure(d),
        Measure(a),
        Measure(b)
    )
}

// Centre, semi-axes, point.
pub fn ellipse<W: Write>(to: &mut W, v: &[f64]) -> io::Result<()> {
    let [center_x, center_y, semi_x, semi_y, px, py, ..] = v else {
        return writeln!(to, "too short");
    };
    let mut x = 1.0;
    let mut y = 1.0;
    let mut d = 1.0;
    let number = viskunor::ellipses::vk_ellipse_nearest(
        *center_x, *center_y, *semi_x, *semi_y, *px, *py, &mut x, &mut y, &mut d,
    );
    writeln!(
        to,
        "{number:x} {} {} {}",
        Measure(x),
        Measure(y),
        Measure(d)
    )
}

// Makes an outline in a list of zeros.
pub fn make<W: Write>(to: &mut W, v: &[f64], lent: Lent) -> io::Result<()> {
    let mut space = [0.0; 64];
    let made = &mut space[..lent.of(64)];
    let mut count = 9;
    let number = viskunor::outlines::vk_outline_make(v, made, &mut count);
    writeln!(to, "{number:x} {count:x}{}", List(made))
}

// Fills a cell, in a list of ones.
pub fn fill<W: Write>(to: &mut W, v: &[f64], cell: Cell, lent: Lent) -> io::Result<()> {
    let mut space = [1.0; 64];
    let work = &mut space[..lent.of(64)];
    let mut fill = 1.0;
    let number = viskunor::fills::vk_outline_fill(
        v,
        cell.low.x,
        cell.low.y,
        cell.high.x,
        cell.high.y,
        work,
        &mut fill,
    );
    writeln!(to, "{number:x} {}{}", Measure(fill), List(work))
}
