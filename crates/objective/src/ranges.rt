// The ranges of settings and values.
// Kept so: a constant's value may not make a range with its end in it; `1..1001` would name a number that no rule has.
ghost use Rattle.std.specs.Prelude.{◌≡◌, ◌*◌, ◌^◌, ◌≤◌, true, false, unsigned_abs, MatchResult};
ghost use Rattle.kinds.specs.declared.refusal.Cause.TheVariants.{Denominator as OffRange};
ghost use Rattle.kinds.specs.Checks.{at};
ghost use Rattle.kinds.specs.Penalty.{is_denominator};
ghost use Rattle.objective.specs.Checks.{is_stiffness, is_allowance, is_value};

use kinds::refusal::{Cause, Refusal};

pub(crate) fn is_stiffness(stiffness: i64) -> bool
    ensures { result ≡ is_stiffness stiffness }
{
    (1..=1000).contains(&stiffness)
}

pub(crate) fn is_allowance(allowance: i64) -> bool
    ensures { result ≡ is_allowance allowance }
{
    (0..=1_000_000_000_000).contains(&allowance)
}

pub(crate) fn is_value(value: i64) -> bool
    ensures { result ≡ is_value value }
{
    (0..=20_000).contains(&value)
}

// A denominator of 1 to 1,000.
#[derive(Clone, Copy)]
pub(crate) struct Denominator {
    pub(crate) value: i64,
    ghost divides: { is_denominator value ≡ true },
}

impl TryFrom<i64> for Denominator {
    type Error = Refusal;

    ghost try_from_gives = { λ value result. MatchResult result (λ d. d.value ≡ value) (λ r. (is_denominator value ≡ false) × (r ≡ at OffRange 0)) };

    fn try_from(value: i64) -> Result<Denominator, Refusal> {
        if !(1..=1000).contains(&value) {
            return Err(Cause::Denominator.into());
        }
        Ok(Denominator { value })
    }
}

impl Denominator {
    pub(crate) fn times(self, figure: u64) -> u128
        ensures value { result ≡ unsigned_abs self.value * figure }
        ensures bound { result ≤ 1000 * 2 ^ 64 }
    {
        self.value.unsigned_abs() as u128 * figure as u128
    }
}
