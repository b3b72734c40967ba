// The text reader of the command-line programs: one line of bytes becomes a named item.
#![tactic(auto)]

mod arguments;
pub mod cursor;
pub mod figures;
pub mod grammar;
pub mod lines;
pub mod spellings;
