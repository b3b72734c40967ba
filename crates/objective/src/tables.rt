// Tables of a firing: their checks, their rows and what they cost.
ghost use Rattle.std.specs.Prelude.{◌≡◌, ◌≤◌, true, not, length, ◌-ℤ◌, None, unsigned_abs};
ghost use Rattle.kinds.specs.Checks.{answer, first_off};
ghost use Rattle.kinds.specs.Figures.{largest};
ghost use Rattle.objective.specs.Checks.{is_value, has_figures, weigh_table_no};
ghost use Rattle.objective.specs.Objective.{misfit_cost, bend_cost};
ghost use Rattle.objective.specs.Promises.{WeighsTable};

use crate::checks::check_found;
use crate::firing::Firing;
use crate::mild::cost_at;
use crate::ranges::is_value;
use crate::trio::{Kinds, Meant};
use kinds::penalty::Penalty;
use kinds::reading::Reading;
use kinds::refusal::{Cause, Refusal};
use kinds::roughness::Roughness;

// The first value that no table may hold.
fn first_off_value(values: &[i64]) -> Option<usize>
    ensures { result ≡ first_off is_value values.now }
{
    values.iter().position(
        |value| -> bool
            ensures { result ≡ not (is_value value.now) }
        { !is_value(*value) },
    )
}

impl<'a, R: Roughness, M: Penalty, B: Penalty> Firing<'a, R, M, B> {
    // Whether it is a table for these readings, with enough room for its rows.
    fn check_table(&self, table: &[i64], room: usize) -> Result<(), Refusal>
        ensures { result ≡ answer (weigh_table_no (⟦<Kinds<R, M, B> as Meant>⟧.meaning self.now.kinds.now) self.now.stiffness self.now.readings.now table.now room) tt }
    {
        if table.len() != self.readings.len() || room < self.rows() {
            return Err(Cause::Length.into());
        }
        check_found(Cause::Value, first_off_value(table))
    }

    // What a value costs at its reading.
    fn residual_cost(&self, reading: &Reading, value: i64) -> u64
        requires figures { has_figures reading.now ≡ true }
        requires value { is_value value ≡ true }
        ensures value { result ≡ (M.meaning self.now.kinds.now.misfit).cost (unsigned_abs reading.now.weight) (value -ℤ reading.now.crude) }
        ensures bound { result ≤ 4000000000000 }
    {
        cost_at(&self.kinds.misfit, reading.weight, value - reading.crude)
    }

    // What the residuals of a table cost.
    fn misfit_cost(&self, table: &[i64]) -> u64
        requires values { first_off is_value table.now ≡ None }
        requires long { length table.now ≡ length self.now.readings.now }
        ensures value { result ≡ misfit_cost (M.meaning self.now.kinds.now.misfit) self.now.readings.now table.now }
        ensures bound { result ≤ 960000000000000 }
    {
        let mut sum = 0;
        for (reading, value) in self.readings.iter().zip(table) {
            sum += self.residual_cost(reading, *value);
        }
        sum
    }

    // What rows cost.
    fn bend_cost(&self, rows: &[i64]) -> u64
        requires small { largest rows.now ≤ 40000000 }
        requires few { length rows.now ≤ 240 }
        ensures value { result ≡ bend_cost (B.meaning self.now.kinds.now.bend) (unsigned_abs self.now.stiffness) rows.now }
        ensures bound { result ≤ 960000000000000 }
    {
        let mut sum = 0;
        for row in rows {
            sum += cost_at(&self.kinds.bend, self.stiffness, *row);
        }
        sum
    }

    // The cost of a table, with its rows written at the start of `rows`.
    pub(crate) fn weigh_table(&self, table: &[i64], rows: &mut [i64]) -> Result<u64, Refusal>
        ensures { WeighsTable (⟦<Kinds<R, M, B> as Meant>⟧.meaning self.now.kinds.now) self.now.stiffness self.now.readings.now table.now rows.old rows.new result }
    {
        self.check_table(table, rows.len())?;
        self.fill_rows(table, rows)?;
        let count = self.rows();
        Ok(self.misfit_cost(table) + self.bend_cost(&rows[..count]))
    }
}
