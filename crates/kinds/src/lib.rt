// What a kind of roughness and a kind of penalty are: traits with meanings and laws, and the tests that every kind
// of roughness makes before it answers.
#![tactic(auto)]

pub mod bounded;
pub mod minutes;
pub mod penalty;
pub mod reading;
pub mod refusal;
pub mod roughness;
