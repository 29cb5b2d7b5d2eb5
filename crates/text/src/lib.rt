// The text of an archive page: lines that each end in byte 10, of pieces with one space between each two.
#![tactic(auto)]

pub mod cursor;
pub mod cutting;
pub mod draft;
pub mod numbers;
pub mod pieces;
