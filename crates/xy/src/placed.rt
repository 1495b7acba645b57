// Vertices as a stream holds them, by place.
ghost use Rattle.std.specs.Prelude.{◌≡◌, ◌≤◌, nat_abs};
ghost use Rattle.geometry.specs.Making.{kept};
ghost use Rattle.xy.specs.Outlines.{microns_of, numbers_from, InReach};

use boundary::Point;
use boundary::outline::Vertices;
use geometry::polygon;

// n vertices from a place on, none of which is beyond the reach.
#[derive(Clone, Copy)]
pub struct Placed<'a> {
    pub s: &'a [u8],
    pub from: usize,
    pub n: usize,
    ghost in_reach: { InReach s.now from n },
}

// Steps in µm.
fn microns(z: i64) -> f64
    requires { nat_abs z ≤ 4294967296 }
    ensures { result ≡ microns_of z }
{
    (z as f64) / 1024.0
}

impl Vertices for Placed<'_> {
    ghost numbers = { λ p. numbers_from p.s.now p.from p.n };

    fn vertex_count(self) -> usize {
        self.n
    }

    fn vertex(self, i: usize) -> Point {
        Point {
            x: microns(stream::step_at(self.s, self.from, 2 * i)),
            y: microns(stream::step_at(self.s, self.from, 2 * i + 1)),
        }
    }
}

impl<'a> Placed<'a> {
    // Those that are kept once a closing vertex is dropped.
    pub fn kept(self) -> Placed<'a>
        ensures { (numbers_from result.s.now result.from result.n ≡ kept (numbers_from self.entry.s.now self.entry.from self.entry.n)) × (result.n ≤ self.entry.n) }
    {
        if polygon::is_closed(self) {
            return Placed {
                s: self.s,
                from: self.from,
                n: self.n - 1,
            };
        }
        self
    }
}
