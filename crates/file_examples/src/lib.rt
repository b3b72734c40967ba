// Examples of files, as tests: what is written, what is accepted, and what is refused where.
#![tactic(auto)]

#[cfg(test)]
mod accepted;
#[cfg(test)]
mod stages;
#[cfg(test)]
mod told;
