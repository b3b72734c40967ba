// Examples of kinds, weighing and refusals, as tests: the limits of each, from both sides.
#![tactic(auto)]

#[cfg(test)]
mod layers;
#[cfg(test)]
mod limits;
#[cfg(test)]
mod weighing;
