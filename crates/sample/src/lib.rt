// What the program that replays the fixed sample reads and writes: the sample's words, and answers.
#![tactic(auto)]

pub mod answers;
pub mod floats;
pub mod read;
