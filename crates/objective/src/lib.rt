// Cost, floor and gap over any kinds, and the calls that weigh tables and multipliers on lent readings.
#![tactic(auto)]

pub mod checks;
mod firing;
pub mod gap;
mod mild;
mod multipliers;
mod ranges;
mod tables;
pub mod trio;
pub mod weigh;
