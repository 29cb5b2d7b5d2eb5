// The first four sections of a page: what they say, and how they are written.
#![tactic(auto)]

pub mod line;
pub mod writes;
