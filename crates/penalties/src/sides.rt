// Penalties with two sides: how much a unit of a residual counts, above 0 and below 0.
ghost use Rattle.std.specs.Prelude.{◌≡◌, ◌≤◌, max};
ghost use Rattle.kinds.specs.Penalty.{cost_answer, allows_answer, touch_answer};
ghost use Rattle.penalties.specs.Sides.{lopsided, AllowedSlopes};

use std::cmp::Ordering;
use std::ops::RangeInclusive;

// The largest weight and denominator, and the largest sizes of a residual and a slope, that are answered.
const MOST_WEIGHT: i64 = 1_000;

const MOST_DENOMINATOR: i64 = 1_000;

const MOST_RESIDUAL: u64 = 40_000_000;

const MOST_SLOPE: u64 = 1_000_000_000_000;

#[derive(Clone, Copy)]
pub(crate) struct Sides {
    // how much a unit above 0 counts
    pub(crate) rise: u32,
    // how much a unit below 0 counts
    pub(crate) fall: u32,
    ghost rises: { (1 ≤ rise) × (rise ≤ 100) },
    ghost falls: { (1 ≤ fall) × (fall ≤ 100) },
}

impl Sides {
    pub(crate) fn steepness(self) -> u32
        ensures { result ≡ max self.rise self.fall }
    {
        self.rise.max(self.fall)
    }

    pub(crate) fn cost(self, weight: i64, residual: i64) -> Option<u64>
        ensures { result ≡ cost_answer (lopsided self.rise self.fall) weight residual }
    {
        if !(0..=MOST_WEIGHT).contains(&weight) || residual.unsigned_abs() > MOST_RESIDUAL {
            return None;
        }
        let side = if residual >= 0 { self.rise } else { self.fall };
        Some(weight.unsigned_abs() * u64::from(side) * residual.unsigned_abs())
    }

    pub(crate) fn allows(self, weight: i64, denominator: i64, slope: i64) -> Option<bool>
        ensures { result ≡ allows_answer (lopsided self.rise self.fall) weight denominator slope }
    {
        let slopes = self.slopes(weight, denominator)?;
        if slope.unsigned_abs() > MOST_SLOPE {
            return None;
        }
        Some(slopes.contains(&slope))
    }

    pub(crate) fn touching_slope(self, weight: i64, denominator: i64, residual: i64) -> Option<i64>
        ensures { result ≡ touch_answer (lopsided self.rise self.fall) weight denominator residual }
    {
        let slopes = self.slopes(weight, denominator)?;
        if residual.unsigned_abs() > MOST_RESIDUAL {
            return None;
        }
        Some(match residual.cmp(&0) {
            Ordering::Greater => *slopes.end(),
            Ordering::Less => *slopes.start(),
            Ordering::Equal => 0,
        })
    }

    // The allowed slopes, none where the weight or the denominator is out of range.
    fn slopes(self, weight: i64, denominator: i64) -> Option<RangeInclusive<i64>>
        ensures { AllowedSlopes self.rise self.fall weight denominator result }
    {
        if !(0..=MOST_WEIGHT).contains(&weight) || !(1..=MOST_DENOMINATOR).contains(&denominator) {
            return None;
        }
        let reach = denominator as u32 * weight as u32;
        let highest = i64::from(reach * self.rise);
        let lowest = -i64::from(reach * self.fall);
        Some(lowest..=highest)
    }
}
