// What a boundary is made of, lines and ellipses, and the distance of a point from an outline's edges (boundary.rs).
#![tactic(auto)]

pub mod ellipse;
pub mod nearest;

ghost use Rattle.std.specs.Prelude.{◌≡◌};
ghost use Rattle.distance.specs.Piece.{piece_near, piece_normal};

use boundary::{Edge, Near, Point, line};

// A line with its two ends, x then y, or a whole ellipse with its centre and the semi-axes a along x and
// b along y. (Document 02 asks for a line of four numbers, and not of an `Edge`.)
#[derive(Clone, Copy)]
pub enum Piece {
    Line(f64, f64, f64, f64),
    Ellipse { c: Point, a: f64, b: f64 },
}

impl Piece {
    // The piece's point nearest to p, with its distance and a line's own normal.
    pub fn nearest(self, p: Point) -> Near
        ensures { result ≡ piece_near self p }
    {
        match self {
            Piece::Line(ax, ay, bx, by) => {
                let a = Point { x: ax, y: ay };
                let b = Point { x: bx, y: by };
                line::line_nearest(Edge { a, b }, p)
            }
            Piece::Ellipse { c, a, b } => ellipse::ellipse_near(c, a, b, p),
        }
    }

    // The normal that `nearest` gives, whatever the point: a line's own, and (1, 0) for an ellipse.
    pub fn normal(self) -> Point
        ensures { result ≡ piece_normal self }
    {
        match self {
            Piece::Line(ax, ay, bx, by) => {
                let a = Point { x: ax, y: ay };
                let b = Point { x: bx, y: by };
                line::normal(Edge { a, b })
            }
            Piece::Ellipse { c, a, b } => Point { x: 1.0, y: 0.0 },
        }
    }
}

// The curve G(s) = (n0/(s + r0))² + (z1/(s + 1))² - 1, whose root gives the nearest point of an ellipse.
#[derive(Clone, Copy)]
pub struct Curve {
    pub n0: f64,
    pub r0: f64,
    pub z1: f64,
}

// An edge's number, its point nearest to another, and the squared distance from which on an edge is clearly
// farther.
#[derive(Clone, Copy)]
pub struct FoundEdge {
    pub i: usize,
    pub q: Point,
    pub far: f64,
}
