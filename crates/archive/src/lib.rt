// The archive's own calls: a text checked, and a list of calls replayed.
#![tactic(auto)]

pub mod call;
pub mod check;
pub mod fault;
pub mod replay;
mod state;
mod step;
