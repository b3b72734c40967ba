// The kind of penalty that counts the size of a residual.
ghost use Rattle.penalties.specs.Sides.{absolute};
ghost use Rattle.penalties.specs.Kept.{absolute_kept};

use crate::sides::Sides;
use kinds::penalty::Penalty;

// A unit counts 1 on either side.
const EVEN: Sides = Sides { rise: 1, fall: 1 };

const MARK: u32 = 0;

#[derive(Clone, Copy)]
pub struct Absolute;

impl Penalty for Absolute {
    ghost meaning = { λ k. absolute };

    ghost kept = { λ k. absolute_kept };

    fn steepness(&self) -> u32 {
        EVEN.steepness()
    }

    fn mark(&self) -> u32 {
        MARK
    }

    fn cost(&self, weight: i64, residual: i64) -> Option<u64> {
        EVEN.cost(weight, residual)
    }

    fn allows(&self, weight: i64, denominator: i64, slope: i64) -> Option<bool> {
        EVEN.allows(weight, denominator, slope)
    }

    fn touching_slope(&self, weight: i64, denominator: i64, residual: i64) -> Option<i64> {
        EVEN.touching_slope(weight, denominator, residual)
    }
}
