// Limit states, each with one strength for every joint, and banks of them.
#![tactic(auto)]

pub mod bank;
pub mod bearing_lines;
pub mod bolt_group;
pub mod chain_search;
pub mod gross_yielding;
pub mod limit_state;
mod line;
pub mod norm;
pub mod number;
pub mod rated;
