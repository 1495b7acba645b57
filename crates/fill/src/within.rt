// Whether an outline lies wholly inside a cell, its bounds included: told from its vertices, eight at a time.
ghost use Rattle.std.specs.Prelude.{◌≡◌, true, ℕ, ◌+◌, ◌<◌, ◌≤◌};
ghost use Rattle.boundary.specs.Boxes.{Inside};
ghost use Rattle.boundary.specs.Outline.{count, vertex_at};
ghost use Rattle.fill.specs.Within.{WithinCell};

use boundary::Bounds;

// Whether vertex i is in the cell.
fn vertex_within(v: &[f64], c: Bounds, i: usize) -> bool
    requires { i < count v.now }
    ensures { result ≡ true → Inside (vertex_at v.now i) c }
{
    let p = boundary::vertex_at(v, i);
    ((c.min.x <= p.x) & (p.x <= c.max.x)) & ((c.min.y <= p.y) & (p.y <= c.max.y))
}

// Whether the eight vertices from vertex i on are.
fn row_within(v: &[f64], c: Bounds, i: usize) -> bool
    requires { i + 8 ≤ count v.now }
    ensures { result ≡ true → (j : ℕ) → j < 8 → Inside (vertex_at v.now (i + j)) c }
{
    let mut all = true;
    for j in 0..8 {
        all &= vertex_within(v, c, i + j);
    }
    all
}

// How many of the first vertices are, looked at in rows of eight: up to the first row that has one outside.
fn rows_within(v: &[f64], c: Bounds) -> usize
    ensures { (result ≤ count v.now) × ((i : ℕ) → i < result → Inside (vertex_at v.now i) c) }
{
    let rows = v.len() / 16;
    for row in 0..rows {
        if !row_within(v, c, 8 * row) {
            return 8 * row;
        }
    }
    8 * rows
}

// Whether all are.
pub fn is_within(v: &[f64], c: Bounds) -> bool
    ensures { result ≡ true → WithinCell v.now c }
{
    let n = v.len() / 2;
    for i in rows_within(v, c)..n {
        if !vertex_within(v, c, i) {
            return false;
        }
    }
    true
}
