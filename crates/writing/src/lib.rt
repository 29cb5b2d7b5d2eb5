// The page of a closed sheet, judged by a bank and written into a lent buffer.
#![tactic(auto)]

pub mod fault;
pub mod page;
mod verdict;
