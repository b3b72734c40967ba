// The roughness of a slope that bends.
ghost use Rattle.roughness.specs.Maps.{slope};
ghost use Rattle.roughness.specs.Kept.{slope_kept};

use crate::bends::{write_bends, write_bends_back};
use kinds::refusal::Refusal;
use kinds::roughness::{Roughness, check_back, check_forward};

const REACH: usize = 2;

const GROWTH: u64 = 240;

const MARK: u16 = 514;

// Each row is 0 where three values in a row lie on one line over their minutes.
#[derive(Clone, Copy)]
pub struct Slope;

// Kept so: First's impl is the same but for three numbers and two calls; a helper that takes the calls is no shorter.
impl Roughness for Slope {
    ghost meaning = { λ k. slope };

    ghost kept = { λ k. slope_kept };

    fn reach(&self) -> usize {
        REACH
    }

    fn growth(&self) -> u64 {
        GROWTH
    }

    fn mark(&self) -> u16 {
        MARK
    }

    fn forward(&self, minutes: &[i64], values: &[i64], rows: &mut [i64]) -> Result<(), Refusal> {
        check_forward(GROWTH, REACH, minutes, values, rows.len())?;
        write_bends(minutes, values, rows);
        Ok(())
    }

    fn back(
        &self,
        minutes: &[i64],
        multipliers: &[i64],
        columns: &mut [i64],
    ) -> Result<(), Refusal> {
        check_back(GROWTH, REACH, minutes, multipliers, columns.len())?;
        write_bends_back(minutes, multipliers, columns);
        Ok(())
    }
}
