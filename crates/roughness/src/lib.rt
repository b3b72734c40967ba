// Three kinds of roughness: first differences, bends of a slope, and a layer of differences over any kind.
#![tactic(auto)]

mod bends;
mod differences;
pub mod first;
pub mod raise;
pub mod slope;
