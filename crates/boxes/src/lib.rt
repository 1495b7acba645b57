// The boxes of a list, widened, and their centres.
#![tactic(auto)]

ghost use Rattle.std.specs.Prelude.{◌≡◌, ◌*◌, ◌≤◌, ◌<◌, ◌^◌, length};
ghost use Rattle.std.proofs.lemmas.List.Edits.{sets};
ghost use Rattle.boundary.specs.Boxes.{scale_of, widened_of};
ghost use Rattle.lists.specs.Lists.{run};
ghost use Rattle.boxes.specs.BoxLists.{box_count, box_at, box_numbers, centre_of, point_in, widened_in};

use boundary::{Bounds, Point, middle_of};
use number::choices;

// The box of four numbers.
fn box_from(left: f64, bottom: f64, right: f64, top: f64) -> Bounds
    ensures { result ≡ record { min = record { x = left; y = bottom }; max = record { x = right; y = top } } }
{
    Bounds {
        min: Point { x: left, y: bottom },
        max: Point { x: right, y: top },
    }
}

// Box i of a list's numbers, with one test where all four are there; else each may be past the end.
pub fn box_at(v: &[f64], i: usize) -> Bounds
    requires { i ≤ 2 ^ 32 }
    ensures { result ≡ box_at v.now i }
{
    let k = 4 * i;
    if k + 3 < v.len() {
        return box_from(v[k], v[k + 1], v[k + 2], v[k + 3]);
    }
    let left = lists::number_at(v, k);
    let bottom = lists::number_at(v, k + 1);
    let right = lists::number_at(v, k + 2);
    let top = lists::number_at(v, k + 3);
    box_from(left, bottom, right, top)
}

// Stores a box's numbers as box i, with one test where there is room for all four; else those that are not past the end.
pub fn put_box(v: &mut [f64], i: usize, b: Bounds)
    requires { i < 2 ^ 32 }
    ensures { v.new ≡ sets v.old (4 * i) (box_numbers b) }
{
    let k = 4 * i;
    if k + 3 < v.len() {
        v[k] = b.min.x;
        v[k + 1] = b.min.y;
        v[k + 2] = b.max.x;
        v[k + 3] = b.max.y;
        return;
    }
    lists::put(v, k, b.min.x);
    lists::put(v, k + 1, b.min.y);
    lists::put(v, k + 2, b.max.x);
    lists::put(v, k + 3, b.max.y);
}

// The largest of 1 and the corners' magnitudes.
fn scale(b: Bounds) -> f64
    ensures { result ≡ scale_of b }
{
    let left = choices::larger(1.0, b.min.x);
    let bottom = choices::larger(left, b.min.y);
    let right = choices::larger(bottom, b.max.x);
    choices::larger(right, b.max.y)
}

// The box, widened by a hair.
pub fn widened(b: Bounds) -> Bounds
    ensures { result ≡ widened_of b }
{
    let m = 1e-9 * scale(b);
    box_from(b.min.x - m, b.min.y - m, b.max.x + m, b.max.y + m)
}

// The box's centre.
pub fn centre(b: Bounds) -> Point
    ensures { result ≡ centre_of b }
{
    Point {
        x: middle_of(b.min.x, b.max.x),
        y: middle_of(b.min.y, b.max.y),
    }
}

// The widened boxes of a list, and their centres' coordinates.
pub fn widen(boxes: &[f64], wide: &mut [f64], xs: &mut [f64], ys: &mut [f64])
    requires { box_count boxes.now ≤ 1024 }
    ensures { record { wide = wide.new; xs = xs.new; ys = ys.new } ≡ widened_in boxes.now wide.old xs.old ys.old }
{
    for i in 0..boxes.len() / 4 {
        let b = widened(box_at(boxes, i));
        let c = centre(b);
        put_box(wide, i, b);
        lists::put(xs, i, c.x);
        lists::put(ys, i, c.y);
    }
}

// The numbers from 0 on.
pub fn count_up(items: &mut [u32])
    requires { length items.old ≤ 1024 }
    ensures { items.new ≡ run (λ i. i) 0 (length items.old) }
{
    for (i, place) in items.iter_mut().enumerate() {
        *place = i as u32;
    }
}

// The boxes of a list, widened, and the coordinates of their centres, which are read one axis at a time.
#[derive(Clone, Copy)]
pub struct Entries<'a> {
    pub wide: &'a [f64],
    pub xs: &'a [f64],
    pub ys: &'a [f64],
}

impl<'a> Entries<'a> {
    // Box k.
    pub fn box_at(self, k: usize) -> Bounds
        requires { k ≤ 2 ^ 32 }
        ensures { result ≡ box_at self.entry.wide.now k }
    {
        box_at(self.wide, k)
    }

    // Its centre.
    pub fn centre_at(self, k: usize) -> Point
        ensures { result ≡ point_in self.entry.xs.now self.entry.ys.now k }
    {
        let x = lists::number_at(self.xs, k);
        let y = lists::number_at(self.ys, k);
        Point { x, y }
    }
}
