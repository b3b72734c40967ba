// The roughness of first differences.
ghost use Rattle.roughness.specs.Maps.{first};
ghost use Rattle.roughness.specs.Kept.{first_kept};

use crate::differences::{write_differences, write_differences_back};
use kinds::refusal::Refusal;
use kinds::roughness::{Roughness, check_back, check_forward};

const REACH: usize = 1;

const GROWTH: u64 = 2;

const MARK: u16 = 257;

// Each row is the next value minus the present one.
#[derive(Clone, Copy)]
pub struct First;

// Kept so: Slope's impl is the same but for three numbers and two calls; a helper that takes the calls is no shorter.
impl Roughness for First {
    ghost meaning = { λ k. first };

    ghost kept = { λ k. first_kept };

    fn reach(&self) -> usize {
        REACH
    }

    fn growth(&self) -> u64 {
        GROWTH
    }

    fn mark(&self) -> u16 {
        MARK
    }

    fn forward(&self, minutes: &[i64], values: &[i64], rows: &mut [i64]) -> Result<(), Refusal> {
        check_forward(GROWTH, REACH, minutes, values, rows.len())?;
        write_differences(values, rows);
        Ok(())
    }

    fn back(
        &self,
        minutes: &[i64],
        multipliers: &[i64],
        columns: &mut [i64],
    ) -> Result<(), Refusal> {
        check_back(GROWTH, REACH, minutes, multipliers, columns.len())?;
        write_differences_back(multipliers, columns);
        Ok(())
    }
}
