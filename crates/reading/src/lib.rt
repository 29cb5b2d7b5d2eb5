// An archive page, read onto a sheet.
#![tactic(auto)]

pub mod fault;
mod fields;
mod header;
pub mod read;
mod reader;
