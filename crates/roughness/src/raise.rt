// A layer of differences over any kind of roughness.
ghost use Rattle.roughness.specs.Maps.{raised};
ghost use Rattle.roughness.specs.Kept.{raised_kept};

use crate::differences::{write_differences, write_differences_back};
use kinds::refusal::Refusal;
use kinds::roughness::{Roughness, check_back, check_forward};

// what a kind tells of a reach or a growth that is larger still
const MOST_REACH: usize = 241;

const MOST_GROWTH: u64 = 2001;

// Each row is the next row of the kind below minus the present one.
#[derive(Clone, Copy)]
pub struct Raise<R> {
    pub below: R,
}

impl<R: Roughness> Roughness for Raise<R> {
    ghost meaning = { λ k. raised (R.Roughness.meaning k.below) };

    ghost kept = { λ k. raised_kept _ (R.Roughness.kept k.below) };

    fn reach(&self) -> usize {
        (self.below.reach() + 1).min(MOST_REACH)
    }

    fn growth(&self) -> u64 {
        (2 * self.below.growth()).min(MOST_GROWTH)
    }

    fn mark(&self) -> u16 {
        self.below.mark().saturating_add(1)
    }

    fn forward(&self, minutes: &[i64], values: &[i64], rows: &mut [i64]) -> Result<(), Refusal> {
        let reach = self.reach();
        check_forward(self.growth(), reach, minutes, values, rows.len())?;
        let mut lower = [0; 240];
        self.below.forward(minutes, values, &mut lower)?;
        let rows_below = minutes.len() - (reach - 1);
        write_differences(&lower[0..rows_below], rows);
        Ok(())
    }

    fn back(
        &self,
        minutes: &[i64],
        multipliers: &[i64],
        columns: &mut [i64],
    ) -> Result<(), Refusal> {
        let reach = self.reach();
        check_back(self.growth(), reach, minutes, multipliers, columns.len())?;
        let mut lower = [0; 240];
        write_differences_back(multipliers, &mut lower);
        let rows_below = minutes.len() - (reach - 1);
        self.below.back(minutes, &lower[0..rows_below], columns)
    }
}
