// The marks that kinds are known by.

// A mark that no known kind has.
#[derive(Clone, Copy, PartialEq, Eq, Debug)]
pub struct UnknownMark(pub u64);
