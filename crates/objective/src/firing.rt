// A firing: three kinds, a stiffness and readings, of which tables and multipliers are weighed.
ghost use Rattle.std.specs.Prelude.{◌≡◌, ◌-◌, ◌<◌, ◌≤◌, true, length, take, None, Some, Ok, MatchResult};
ghost use Rattle.kinds.specs.Figures.{over, largest};
ghost use Rattle.kinds.specs.Roughness.{told_reach};
ghost use Rattle.objective.specs.Checks.{is_stiffness, readings_no, begun_no};
ghost use Rattle.objective.specs.Objective.{minutes};

use crate::checks::{check_kinds, check_readings};
use crate::ranges::is_stiffness;
use crate::trio::{Kinds, Meant};
use kinds::penalty::Penalty;
use kinds::reading::Reading;
use kinds::refusal::{Cause, Refusal};
use kinds::roughness::Roughness;

// It has passed the checks that tables and multipliers share.
#[derive(Drop)]
pub(crate) struct Firing<'a, R: Roughness, M: Penalty, B: Penalty> {
    pub(crate) kinds: &'a Kinds<R, M, B>,
    pub(crate) stiffness: i64,
    pub(crate) readings: &'a [Reading],
    ghost stiff: { is_stiffness stiffness ≡ true },
    ghost noted: { readings_no readings.now ≡ None },
    ghost grows: { (R.meaning kinds.now.roughness).growth ≤ 2000 },
    ghost misfit_steep: { (M.meaning kinds.now.misfit).steepness ≤ 100 },
    ghost bend_steep: { (B.meaning kinds.now.bend).steepness ≤ 100 },
    ghost reaches: { told_reach (R.meaning kinds.now.roughness) < length readings.now },
}

// The minutes of readings, which are at most 240.
fn minutes_of(readings: &[Reading]) -> [i64; 240]
    requires { length readings.now ≤ 240 }
    ensures { take (length readings.now) result ≡ minutes readings.now }
{
    let mut minutes = [0; 240];
    let mut rest = readings.iter();
    for slot in minutes.iter_mut() {
        let Some(reading) = rest.next() else {
            break;
        };
        *slot = reading.minute;
    }
    minutes
}

impl<'a, R: Roughness, M: Penalty, B: Penalty> Firing<'a, R, M, B> {
    pub(crate) fn new(
        kinds: &'a Kinds<R, M, B>,
        stiffness: i64,
        readings: &'a [Reading],
    ) -> Result<Firing<'a, R, M, B>, Refusal>
        ensures { MatchResult result (λ f. (f.kinds.now ≡ kinds.now) × (f.stiffness ≡ stiffness) × (f.readings.now ≡ readings.now)) (λ r. begun_no (⟦<Kinds<R, M, B> as Meant>⟧.meaning kinds.now) stiffness readings.now ≡ Some r) }
    {
        if !is_stiffness(stiffness) {
            return Err(Cause::Setting.into());
        }
        check_readings(readings)?;
        check_kinds(kinds)?;
        if readings.len() <= kinds.roughness.reach() {
            return Err(Cause::Short.into());
        }
        Ok(Firing {
            kinds,
            stiffness,
            readings,
        })
    }

    // How many rows a table has.
    pub(crate) fn rows(&self) -> usize
        ensures { result ≡ length self.now.readings.now - told_reach (R.meaning self.now.kinds.now.roughness) }
    {
        self.readings.len() - self.kinds.roughness.reach()
    }

    // The rows of a table, which the roughness does not refuse.
    // Kept so: rows and columns differ in the trait's method, in both lengths and in what is promised.
    pub(crate) fn fill_rows(&self, table: &[i64], rows: &mut [i64]) -> Result<(), Refusal>
        requires long { length table.now ≡ length self.now.readings.now }
        requires small { largest table.now ≤ 20000 }
        requires room { length self.now.readings.now - told_reach (R.meaning self.now.kinds.now.roughness) ≤ length rows.old }
        ensures value { result ≡ Ok tt }
        ensures place { rows.new ≡ over ((R.meaning self.now.kinds.now.roughness).rows (minutes self.now.readings.now) table.now) rows.old }
    {
        let minutes = minutes_of(self.readings);
        let n = self.readings.len();
        self.kinds.roughness.forward(&minutes[..n], table, rows)
    }

    // The columns of multipliers.
    pub(crate) fn fill_columns(
        &self,
        multipliers: &[i64],
        columns: &mut [i64],
    ) -> Result<(), Refusal>
        requires long { length multipliers.now ≡ length self.now.readings.now - told_reach (R.meaning self.now.kinds.now.roughness) }
        requires small { largest multipliers.now ≤ 100000000 }
        requires room { length self.now.readings.now ≤ length columns.old }
        ensures value { result ≡ Ok tt }
        ensures place { columns.new ≡ over ((R.meaning self.now.kinds.now.roughness).columns (minutes self.now.readings.now) multipliers.now) columns.old }
    {
        let minutes = minutes_of(self.readings);
        let n = self.readings.len();
        self.kinds
            .roughness
            .back(&minutes[..n], multipliers, columns)
    }
}
