// The kind of penalty that counts residuals above 0 and below 0 differently.
ghost use Rattle.std.specs.Prelude.{◌≡◌, ◌+◌, ◌*◌, ◌≤◌};
ghost use Rattle.kinds.specs.Checks.{answer};
ghost use Rattle.penalties.specs.Settings.{sides_no, sides_made};
ghost use Rattle.penalties.specs.Sides.{lopsided};
ghost use Rattle.penalties.specs.Kept.{lopsided_kept};

use crate::sides::Sides;
use kinds::penalty::Penalty;
use kinds::refusal::{Cause, Refusal};

// The largest rise and the largest fall.
const STEEPEST: i64 = 100;

#[derive(Clone, Copy)]
pub struct Lopsided {
    sides: Sides,
}

impl Lopsided {
    // Takes a rise and a fall of 1 to 100 each.
    pub fn new(rise: i64, fall: i64) -> Result<Lopsided, Refusal>
        ensures { sides_made result (λ k. k.sides.rise) (λ k. k.sides.fall) ≡ answer (sides_no rise fall) (rise, fall) }
    {
        if !(1..=STEEPEST).contains(&rise) || !(1..=STEEPEST).contains(&fall) {
            return Err(Cause::Setting.into());
        }
        Ok(Lopsided {
            sides: Sides {
                rise: rise as u32,
                fall: fall as u32,
            },
        })
    }
}

// Kept so: one `impl<S: Sided> Penalty for S` for this and Absolute is refused: `Penalty` is another crate's.
impl Penalty for Lopsided {
    ghost meaning = { λ k. lopsided k.sides.rise k.sides.fall };

    ghost kept = { λ k. lopsided_kept k.sides.rise k.sides.fall k.sides.rises.1 k.sides.falls.1 };

    fn steepness(&self) -> u32 {
        self.sides.steepness()
    }

    // rise and fall in a byte each, below a byte for the kind
    fn mark(&self) -> u32 {
        65_536 + 256 * self.sides.rise + self.sides.fall
    }

    fn cost(&self, weight: i64, residual: i64) -> Option<u64> {
        self.sides.cost(weight, residual)
    }

    fn allows(&self, weight: i64, denominator: i64, slope: i64) -> Option<bool> {
        self.sides.allows(weight, denominator, slope)
    }

    fn touching_slope(&self, weight: i64, denominator: i64, residual: i64) -> Option<i64> {
        self.sides.touching_slope(weight, denominator, residual)
    }
}
