// The number layer: what the geometry computes with besides the operators on floats.
#![tactic(auto)]

pub mod choices;
pub mod root;
pub mod signs;
