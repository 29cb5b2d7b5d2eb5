// What a sheet is made of: the bar, the bolts, a hole, the loads, with the norm's tables; quantities; and why a call says no.
#![tactic(auto)]

pub mod bar;
pub mod bolt;
pub mod fault;
pub mod hole;
pub mod load;
pub mod quantity;
pub mod steel;
