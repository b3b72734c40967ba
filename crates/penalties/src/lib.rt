// Two kinds of penalty: one counts the size of a residual, the other counts its two sides differently.
#![tactic(auto)]

pub mod absolute;
pub mod lopsided;
mod sides;
