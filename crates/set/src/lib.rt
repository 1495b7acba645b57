// Sets of outlines (index.rs), and the tests of a set and of a query of it.
#![tactic(auto)]

pub mod frame;
pub mod outlines;
pub mod refusals;
