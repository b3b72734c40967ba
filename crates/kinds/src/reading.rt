// A reading of the probe.

// Any figures can be handed over; what a lawful reading is, the calls that take one check.
#[derive(Clone, Copy, PartialEq, Eq, Debug)]
pub struct Reading {
    // minutes since the firing began
    pub minute: i64,
    // tenths of a degree, as the probe gave them
    pub crude: i64,
    // how much the reading counts
    pub weight: i64,
}
