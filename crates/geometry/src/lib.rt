// Outlines (geometry.rs, `Polygon`): what is worked out from them. Every answer is one, or the refusal.
#![tactic(auto)]

pub mod polygon;

ghost use Rattle.std.specs.Prelude.{◌≡◌};
ghost use Rattle.geometry.specs.Polygon.{place};

// Where a point is of an outline.
#[derive(Clone, Copy)]
pub enum Location {
    Outside,
    Boundary,
    Inside,
}

// The paper's number of a location.
impl From<Location> for u32 {
    ghost from_gives = { λ l n. n ≡ place l };

    fn from(l: Location) -> u32 {
        match l {
            Location::Outside => 0,
            Location::Boundary => 1,
            Location::Inside => 2,
        }
    }
}
