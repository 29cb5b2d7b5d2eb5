// The sheet of a flat bar and its bolted end: open, closed, and as a joint that can be judged.
#![tactic(auto)]

mod row;
pub mod sheet;
pub mod theorems;

pub use sheet::closed::Closed;
pub use sheet::joint::Joint;
pub use sheet::open::Open;
