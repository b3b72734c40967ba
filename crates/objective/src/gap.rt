// The gap between the cost of a table and the floor of multipliers.
ghost use Rattle.std.specs.Prelude.{◌≡◌, pos, int_le, unsigned_abs, IfOk};
ghost use Rattle.kinds.specs.Checks.{answer};
ghost use Rattle.objective.specs.Gaps.{gap_no, gap_told};
ghost use Rattle.objective.specs.Objective.{within};

use crate::ranges::{Denominator, is_allowance};
use kinds::refusal::{Cause, Refusal};

// How far a cost lies above a floor, times the denominator.
#[derive(Clone, Copy, PartialEq, Eq, Debug)]
pub struct Gap {
    // the denominator times the cost, less the floor
    pub scaled: i128,
    // what the allowance leaves, times the denominator; negative where the gap is above the allowance
    pub spare: i128,
}

impl Gap {
    // Whether the gap is within the allowance.
    pub fn within(&self) -> bool
        ensures { result ≡ int_le (pos 0) self.now.spare }
    {
        self.spare >= 0
    }
}

// Compares the gap with an allowance of 0 to 10^12, over a denominator of 1 to 1,000.
pub fn gap_between(cost: u64, floor: i64, denominator: i64, allowance: i64) -> Result<Gap, Refusal>
    ensures told { result ≡ answer (gap_no denominator allowance) (gap_told cost floor (unsigned_abs denominator) (unsigned_abs allowance)) }
    ensures within { IfOk result (λ gap. int_le (pos 0) gap.spare ≡ within (unsigned_abs denominator) cost floor (unsigned_abs allowance)) }
{
    if !is_allowance(allowance) {
        return Err(Cause::Setting.into());
    }
    let denominator = Denominator::try_from(denominator)?;
    let scaled = denominator.times(cost) as i128 - floor as i128;
    let allowed = denominator.times(allowance.unsigned_abs()) as i128;
    Ok(Gap {
        scaled,
        spare: allowed - scaled,
    })
}
