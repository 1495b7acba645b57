// What has an outline's vertices: a list of its numbers, and whatever else gives them by place.
ghost use Rattle.std.specs.Prelude.{◌≡◌, ◌<◌, List, Float};
ghost use Rattle.boundary.specs.Outline.{count, vertex_at};

use crate::Point;

// Its numbers are x then y of each vertex.
pub trait Vertices: Copy {
    ghost numbers: { Self → List Float };

    fn vertex_count(self) -> usize
        ensures { result ≡ count (numbers self) };

    fn vertex(self, i: usize) -> Point
        requires { i < count (numbers self) }
        ensures { result ≡ vertex_at (numbers self) i };
}

impl Vertices for &[f64] {
    ghost numbers = { λ v. v.now };

    fn vertex_count(self) -> usize {
        self.len() / 2
    }

    fn vertex(self, i: usize) -> Point {
        crate::vertex_at(self, i)
    }
}
