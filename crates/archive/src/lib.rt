// The archive file: what the file of some figures is, and the stages through which it is written.
#![tactic(auto)]

pub mod cases;
pub mod figures;
pub mod file;
mod lists;
mod put;
pub mod stages;
pub mod writer;
