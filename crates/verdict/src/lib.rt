// The judge: whether a file is the file of lawful figures under three kinds.
#![tactic(auto)]

pub mod accepted;
mod figures;
pub mod judge;
mod lines;
mod opening;
mod weighing;
