// Reads a file in two layers, its lines and its frames.
#![tactic(auto)]

pub mod contents;
pub mod fault;
mod frames;
mod lines;
mod machine;
pub mod read;
pub mod stage;
mod values;
