//! What the programs print.
#![tactic(auto)]

pub mod desks;
pub mod floor_lines;
pub mod heading;
pub mod input;
pub mod refusals;
