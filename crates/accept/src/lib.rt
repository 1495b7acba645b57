// Which inputs are accepted: the refusals, the tests of outlines, points and boxes, and what a call answers.
#![tactic(auto)]

pub mod answers;
pub mod refusals;

// Why a call is turned away. specs/Refusals.antt has the numbers.
#[derive(Clone, Copy)]
pub enum Refusal {
    OddCount,
    BadCounts,
    TooFew,
    TooMany,
    NotFinite,
    OutsideField,
    EqualNeighbours,
    ZeroArea,
    NegativeArea,
    BadPoint,
    BadBox,
    BadEllipse,
    ShortBuffer,
    LongList,
    BadPointCount,
    BadRecord,
    OtherUnit,
    BeyondReach,
}
