// Judges files by the marks of their kinds, and tells the answers: for the program `judge` and for callers in C.
#![tactic(auto)]

pub mod answer;
pub mod c;
pub mod head;
pub mod marks;
