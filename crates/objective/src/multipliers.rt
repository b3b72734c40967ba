// Multipliers of a firing: their checks, their columns and their floor.
ghost use Rattle.std.specs.Prelude.{◌≡◌, ◌≤◌, not, true, length, ◌*ℤ◌, neg_ℤ, None, Some, MatchResult, unsigned_abs};
ghost use Rattle.kinds.specs.Checks.{answer, first_off};
ghost use Rattle.kinds.specs.Figures.{dot, largest};
ghost use Rattle.objective.specs.Checks.{has_figures, columns_no, before_columns_no};
ghost use Rattle.objective.specs.Objective.{crudes};
ghost use Rattle.objective.specs.Promises.{WeighsMultipliers};

use crate::checks::check_found;
use crate::firing::Firing;
use crate::mild::slope_fits;
use crate::ranges::Denominator;
use crate::trio::{Kinds, Meant};
use kinds::penalty::Penalty;
use kinds::reading::Reading;
use kinds::refusal::{Cause, Refusal};
use kinds::roughness::Roughness;

fn product_of(column: i64, crude: i64) -> i64
    requires small { unsigned_abs column ≤ 1000000000000 }
    requires crudes { unsigned_abs crude ≤ 20000 }
    ensures value { result ≡ column *ℤ crude }
    ensures bound { unsigned_abs result ≤ 20000000000000000 }
{
    column * crude
}

impl<'a, R: Roughness, M: Penalty, B: Penalty> Firing<'a, R, M, B> {
    // Whether a multiplier is an allowed slope of the bends.
    fn bend_allows(&self, denominator: Denominator, multiplier: i64) -> bool
        ensures { result ≡ (B.meaning self.now.kinds.now.bend).allows (unsigned_abs self.now.stiffness) (unsigned_abs denominator.value) multiplier }
    {
        slope_fits(&self.kinds.bend, self.stiffness, denominator, multiplier)
    }

    // Whether a column, negated, is an allowed slope of the misfit at its reading's weight.
    fn misfit_allows(&self, denominator: Denominator, column: i64, reading: &Reading) -> bool
        requires figures { has_figures reading.now ≡ true }
        requires small { unsigned_abs column ≤ 1000000000000 }
        ensures { result ≡ (M.meaning self.now.kinds.now.misfit).allows (unsigned_abs reading.now.weight) (unsigned_abs denominator.value) (neg_ℤ column) }
    {
        slope_fits(&self.kinds.misfit, reading.weight, denominator, -column)
    }

    // The first multiplier that is not an allowed slope of the bends.
    fn first_off_multiplier(&self, denominator: Denominator, multipliers: &[i64]) -> Option<usize>
        ensures { result ≡ first_off ((B.meaning self.now.kinds.now.bend).allows (unsigned_abs self.now.stiffness) (unsigned_abs denominator.value)) multipliers.now }
    {
        multipliers.iter().position(
            |multiplier| -> bool
                ensures { result ≡ not ((B.meaning self.entry.now.kinds.now.bend).allows (unsigned_abs self.entry.now.stiffness) (unsigned_abs denominator.value) multiplier.now) }
            { !self.bend_allows(denominator, *multiplier) },
        )
    }

    // All checks of multipliers but that of their columns, with enough room for these.
    fn check_multipliers(
        &self,
        denominator: i64,
        multipliers: &[i64],
        room: usize,
    ) -> Result<Denominator, Refusal>
        ensures { MatchResult result (λ d. (d.value ≡ denominator) × (before_columns_no (⟦<Kinds<R, M, B> as Meant>⟧.meaning self.now.kinds.now) self.now.stiffness self.now.readings.now denominator multipliers.now room ≡ None)) (λ r. before_columns_no (⟦<Kinds<R, M, B> as Meant>⟧.meaning self.now.kinds.now) self.now.stiffness self.now.readings.now denominator multipliers.now room ≡ Some r) }
    {
        if multipliers.len() != self.rows() || room < self.readings.len() {
            return Err(Cause::Length.into());
        }
        let checked = Denominator::try_from(denominator)?;
        check_found(
            Cause::Multiplier,
            self.first_off_multiplier(checked, multipliers),
        )?;
        Ok(checked)
    }

    // The columns, each negated, as slopes of the misfit at their readings' weights.
    fn check_columns(&self, denominator: Denominator, columns: &[i64]) -> Result<(), Refusal>
        requires small { largest columns.now ≤ 1000000000000 }
        requires long { length columns.now ≡ length self.now.readings.now }
        ensures { result ≡ answer (columns_no (M.meaning self.now.kinds.now.misfit) (unsigned_abs denominator.value) columns.now self.now.readings.now) tt }
    {
        let off = columns.iter().zip(self.readings).position(
            |(column, reading)| -> bool
                requires figures { has_figures reading.now ≡ true }
                requires small { unsigned_abs column.now ≤ 1000000000000 }
                ensures { result ≡ not ((M.meaning self.entry.now.kinds.now.misfit).allows (unsigned_abs reading.entry.now.weight) (unsigned_abs denominator.value) (neg_ℤ column.entry.now)) }
            { !self.misfit_allows(denominator, *column, reading) },
        );
        check_found(Cause::Column, off)
    }

    // The floor of columns: each times its reading's crude value.
    fn floor(&self, columns: &[i64]) -> i64
        requires small { largest columns.now ≤ 1000000000000 }
        requires long { length columns.now ≡ length self.now.readings.now }
        ensures { result ≡ dot columns.now (crudes self.now.readings.now) }
    {
        let mut sum = 0;
        for (column, reading) in columns.iter().zip(self.readings) {
            sum += product_of(*column, reading.crude);
        }
        sum
    }

    // The floor of multipliers. Their columns are written at the start of `columns` once they are known to be allowed.
    pub(crate) fn weigh_multipliers(
        &self,
        denominator: i64,
        multipliers: &[i64],
        columns: &mut [i64],
    ) -> Result<i64, Refusal>
        ensures { WeighsMultipliers (⟦<Kinds<R, M, B> as Meant>⟧.meaning self.now.kinds.now) self.now.stiffness self.now.readings.now denominator multipliers.now columns.old columns.new result }
    {
        let denominator = self.check_multipliers(denominator, multipliers, columns.len())?;
        let n = self.readings.len();
        let mut place = [0; 240];
        self.fill_columns(multipliers, &mut place)?;
        let found = &place[..n];
        self.check_columns(denominator, found)?;
        columns[..n].copy_from_slice(found);
        Ok(self.floor(found))
    }
}
