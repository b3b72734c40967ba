// The kinds that the programs know, in one list.
#![tactic(auto)]

pub mod cases;
pub mod mark;
pub mod penalty;
pub mod roughness_kind;
pub mod trio;
