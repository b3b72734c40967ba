// The figures of a file.
ghost use Rattle.std.specs.Prelude.{◌≡◌};
ghost use Rattle.archive.specs.File.{head_fits};

use kinds::reading::Reading;

// The least number that has more than 4 digits, and the least that has more than 6.
// Kept so: no type has 6 digits, and one test for all six figures is plainer than `try_from` for four of them.
const FOUR: u64 = 0x1_0000;

const SIX: u64 = 0x100_0000;

// The figures that stand in the head of a file.
// Any figures can be handed over; the calls that write a head check that each fits its field.
#[derive(Clone, Copy, PartialEq, Eq, Debug)]
pub struct Head {
    // the marks of the three kinds
    pub roughness: u64,
    pub misfit: u64,
    pub bend: u64,
    // how many readings there are
    pub readings: u64,
    pub stiffness: u64,
    pub denominator: u64,
    pub allowance: u64,
}

// All figures of a file, its lists lent. Any can be handed over here too.
#[derive(Clone, Copy, PartialEq, Eq, Debug)]
pub struct Figures<'a> {
    pub head: Head,
    pub readings: &'a [Reading],
    pub entries: &'a [i64],
    pub multipliers: &'a [i64],
    pub cost: u64,
    pub floor: i64,
}

impl Head {
    pub(crate) fn fits(self) -> bool
        ensures { result ≡ head_fits self }
    {
        self.roughness < FOUR
            && self.misfit < SIX
            && self.bend < SIX
            && self.readings < FOUR
            && self.stiffness < FOUR
            && self.denominator < FOUR
    }
}
