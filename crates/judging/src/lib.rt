// The judgment of a joint: the rows of its loads, its least chain and its weakest limit state.
#![tactic(auto)]

pub mod judge;
pub mod judgment;
pub mod rows;
mod weighing;
