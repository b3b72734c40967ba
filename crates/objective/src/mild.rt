// What a penalty that is not too steep answers: always, at lawful weights and denominators.
ghost use Rattle.std.specs.Prelude.{◌≡◌, ◌≤◌, true, unsigned_abs};
ghost use Rattle.kinds.specs.Penalty.{is_weight, is_residual};

use crate::ranges::Denominator;
use kinds::penalty::Penalty;

// What one residual or row costs.
pub(crate) fn cost_at<P: Penalty>(penalty: &P, weight: i64, residual: i64) -> u64
    requires steep { (P.Penalty.meaning penalty.now).steepness ≤ 100 }
    requires weighs { is_weight weight ≡ true }
    requires small { is_residual residual ≡ true }
    ensures value { result ≡ (P.Penalty.meaning penalty.now).cost (unsigned_abs weight) residual }
    ensures bound { result ≤ 4000000000000 }
{
    penalty.cost(weight, residual).unwrap()
}

// Whether a slope is allowed.
pub(crate) fn slope_fits<P: Penalty>(
    penalty: &P,
    weight: i64,
    denominator: Denominator,
    slope: i64,
) -> bool
    requires steep { (P.Penalty.meaning penalty.now).steepness ≤ 100 }
    requires weighs { is_weight weight ≡ true }
    ensures { result ≡ (P.Penalty.meaning penalty.now).allows (unsigned_abs weight) (unsigned_abs denominator.value) slope }
{
    penalty
        .allows(weight, denominator.value, slope)
        .unwrap_or(false)
}
