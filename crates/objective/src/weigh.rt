// Weighing a table and multipliers on lent readings.
ghost use Rattle.objective.specs.Promises.{WeighsTable, WeighsMultipliers};

use crate::firing::Firing;
use crate::trio::{Kinds, Meant};
use kinds::penalty::Penalty;
use kinds::reading::Reading;
use kinds::refusal::Refusal;
use kinds::roughness::Roughness;

// The cost of a table, with its rows written at the start of `rows`.
pub fn weigh_table<R: Roughness, M: Penalty, B: Penalty>(
    kinds: &Kinds<R, M, B>,
    stiffness: i64,
    readings: &[Reading],
    table: &[i64],
    rows: &mut [i64],
) -> Result<u64, Refusal>
    ensures { WeighsTable (⟦<Kinds<R, M, B> as Meant>⟧.meaning kinds.now) stiffness readings.now table.now rows.old rows.new result }
{
    Firing::new(kinds, stiffness, readings)?.weigh_table(table, rows)
}

// The floor of multipliers over a denominator, with their columns written at the start of `columns`. No table, of
// whatever whole numbers, costs less than the floor divided by the denominator.
// Kept so: what is offered is lent before any check, and a struct of it would be made for this call alone.
pub fn weigh_multipliers<R: Roughness, M: Penalty, B: Penalty>(
    kinds: &Kinds<R, M, B>,
    stiffness: i64,
    readings: &[Reading],
    denominator: i64,
    multipliers: &[i64],
    columns: &mut [i64],
) -> Result<i64, Refusal>
    ensures { WeighsMultipliers (⟦<Kinds<R, M, B> as Meant>⟧.meaning kinds.now) stiffness readings.now denominator multipliers.now columns.old columns.new result }
{
    Firing::new(kinds, stiffness, readings)?.weigh_multipliers(denominator, multipliers, columns)
}
