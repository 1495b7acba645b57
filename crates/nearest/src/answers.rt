// What the query returns and puts into its answer fields.
ghost use Rattle.std.specs.Prelude.{◌≡◌};
ghost use Rattle.nearest.specs.Nearest.{none_found, nearest_fields};

use crate::NearestFields;
use accept::Refusal;
use search::Best;

// Where there is none: zeros, and the number of a refusal, or 0.
fn none_found(number: u32) -> NearestFields
    ensures { result ≡ none_found number }
{
    NearestFields {
        number,
        found: 0,
        outline: 0,
        distance: 0.0,
    }
}

pub fn nearest_fields(answer: Result<Option<Best>, Refusal>) -> NearestFields
    ensures { result ≡ nearest_fields answer }
{
    match answer {
        Ok(Some(best)) => NearestFields {
            number: 0,
            found: 1,
            outline: best.outline,
            distance: best.distance,
        },
        Ok(None) => none_found(0),
        Err(r) => none_found(u32::from(r)),
    }
}
