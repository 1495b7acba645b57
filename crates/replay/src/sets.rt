// Queries over a set: the calls vk_set_any_at, vk_set_nearest and vk_set_nearest_many, in index buffers of
// their stated sizes. The vertices come as a list of floats, the counts as a list of numbers, then the
// point, or the points as a list of floats.
use crate::arguments::Point;
use crate::indexes::Index;
use sample::answers::List;
use sample::floats::Bits;
use std::io;
use std::io::Write;

pub fn any_at<W: Write>(
    to: &mut W,
    v: &[f64],
    counts: &[u32],
    p: Point,
    index: &mut Index,
) -> io::Result<()> {
    index.fill();
    let mut any = 9;
    let number = viskunor::sets::vk_set_any_at(
        v,
        counts,
        p.x,
        p.y,
        &mut index.corners,
        &mut index.links,
        &mut index.items,
        &mut any,
    );
    writeln!(to, "{number:x} {any:x}")
}

pub fn nearest<W: Write>(
    to: &mut W,
    v: &[f64],
    counts: &[u32],
    p: Point,
    index: &mut Index,
) -> io::Result<()> {
    index.fill();
    let mut found = 9;
    let mut outline = 9;
    let mut distance = 1.0;
    let number = viskunor::sets::vk_set_nearest(
        v,
        counts,
        p.x,
        p.y,
        &mut index.corners,
        &mut index.links,
        &mut index.items,
        &mut found,
        &mut outline,
        &mut distance,
    );
    writeln!(to, "{number:x} {found:x} {outline:x} {}", Bits(distance))
}

// In lists of nines and ones, of which one is a place short: the outlines where `short` is 1, the distances
// where it is 2. The answer has one place more of both than there are points.
pub fn nearest_many<W: Write>(
    to: &mut W,
    v: &[f64],
    counts: &[u32],
    points: &[f64],
    short: u64,
    index: &mut Index,
) -> io::Result<()> {
    index.fill();
    let mut outlines = [9; 264];
    let mut distances = [1.0; 264];
    let outlines = &mut outlines[..if short == 1 { 255 } else { 264 }];
    let distances = &mut distances[..if short == 2 { 255 } else { 264 }];
    let mut found = 9;
    let number = viskunor::sets::vk_set_nearest_many(
        v,
        counts,
        points,
        &mut index.corners,
        &mut index.links,
        &mut index.items,
        outlines,
        distances,
        &mut found,
    );
    let n = points.len() / 2 + 1;
    let outlines = List::first(outlines, n);
    let distances = List::first(distances, n);
    writeln!(to, "{number:x} {found:x}{outlines}{distances}")
}
