// The operations and their names.

// What is asked about a list of floats, mostly an outline.
#[derive(Clone, Copy, Debug, PartialEq, Eq)]
pub enum Query {
    Area,
    Perimeter,
    Bounds,
    Contains,
    Locate,
    Distance,
    Make,
    Fill,
    Ellipse,
    Build,
    Meeting,
    AnyAt,
    Nearest,
    NearestMany,
}

// The calls that a case may ask for.
#[derive(Clone, Copy, Debug, PartialEq, Eq)]
pub enum Operation {
    Sqrt,
    Hypot,
    Gdsii,
    Of(Query),
}

// A name that no operation has.
#[derive(Clone, Copy, Debug, PartialEq, Eq)]
pub struct UnknownName;

// Of a longer name only the last eight bytes count.
impl TryFrom<&[u8]> for Operation {
    type Error = UnknownName;

    fn try_from(name: &[u8]) -> Result<Self, UnknownName> {
        Ok(match name {
            b"sqrt" => Operation::Sqrt,
            b"hypot" => Operation::Hypot,
            b"gdsii" => Operation::Gdsii,
            b"area" => Operation::Of(Query::Area),
            b"erimeter" => Operation::Of(Query::Perimeter),
            b"bounds" => Operation::Of(Query::Bounds),
            b"contains" => Operation::Of(Query::Contains),
            b"locate" => Operation::Of(Query::Locate),
            b"distance" => Operation::Of(Query::Distance),
            b"make" => Operation::Of(Query::Make),
            b"fill" => Operation::Of(Query::Fill),
            b"ellipse" => Operation::Of(Query::Ellipse),
            b"build" => Operation::Of(Query::Build),
            b"meeting" => Operation::Of(Query::Meeting),
            b"any_at" => Operation::Of(Query::AnyAt),
            b"nearest" => Operation::Of(Query::Nearest),
            b"est_many" => Operation::Of(Query::NearestMany),
            _ => return Err(UnknownName),
        })
    }
}
