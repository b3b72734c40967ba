// The trait of the kinds of roughness.
ghost use Rattle.std.specs.Prelude.{◌≡◌, ◌-◌, length};
ghost use Rattle.kinds.specs.Checks.{answer};
ghost use Rattle.kinds.specs.Roughness.{RoughnessMeaning, RoughnessLaws, told_reach, told_growth, told_no, Forwards, Backs};

use crate::minutes::{largest_size, lawful_minutes};
use crate::refusal::{Cause, Refusal};

// A kind of roughness: a map from values to rows that says how rough a table is, and its transpose.
// Kept so: minutes, input and the list to fill are the caller's own slices; a struct of them would be made for a call.
pub trait Roughness {
    ghost meaning: { Self → RoughnessMeaning };

    // how many rows there are fewer than values; 241 if larger
    fn reach(&self) -> usize
        ensures { result ≡ told_reach (meaning self.now) };

    // by how much figures can grow; 2,001 if above 2,000
    fn growth(&self) -> u64
        ensures { result ≡ told_growth (meaning self.now) };

    fn mark(&self) -> u16
        ensures { result ≡ (meaning self.now).mark };

    // Writes the rows of `values` at the start of `rows`.
    fn forward(&self, minutes: &[i64], values: &[i64], rows: &mut [i64]) -> Result<(), Refusal>
        ensures { Forwards (meaning self.now) minutes.now values.now rows.old rows.new result };

    // Writes the columns of `multipliers` at the start of `columns`.
    fn back(&self, minutes: &[i64], multipliers: &[i64], columns: &mut [i64]) -> Result<(), Refusal>
        ensures { Backs (meaning self.now) minutes.now multipliers.now columns.old columns.new result };

    ghost kept: { (k : Self) → RoughnessLaws (meaning k) };
}

// The checks that a kind makes before its forward map, from the growth and reach that it tells and the length of the place.
// Kept so: these two say which length is the input's, and hand on; a struct for that would be made for one call.
pub fn check_forward(
    growth: u64,
    reach: usize,
    minutes: &[i64],
    values: &[i64],
    room: usize,
) -> Result<(), Refusal>
    ensures { result ≡ answer (told_no growth reach minutes.now values.now (length minutes.now) (length minutes.now - reach) room) tt }
{
    let readings = minutes.len();
    check_map(
        growth,
        reach,
        minutes,
        values,
        readings,
        readings.saturating_sub(reach),
        room,
    )
}

// The same before its map back.
pub fn check_back(
    growth: u64,
    reach: usize,
    minutes: &[i64],
    multipliers: &[i64],
    room: usize,
) -> Result<(), Refusal>
    ensures { result ≡ answer (told_no growth reach minutes.now multipliers.now (length minutes.now - reach) (length minutes.now) room) tt }
{
    let readings = minutes.len();
    check_map(
        growth,
        reach,
        minutes,
        multipliers,
        readings.saturating_sub(reach),
        readings,
        room,
    )
}

// The checks of either map: how long the input and the place must be, and how long the place is.
fn check_map(
    growth: u64,
    reach: usize,
    minutes: &[i64],
    input: &[i64],
    wanted: usize,
    needed: usize,
    room: usize,
) -> Result<(), Refusal>
    ensures { result ≡ answer (told_no growth reach minutes.now input.now wanted needed room) tt }
{
    if growth > 2000 {
        return Err(Cause::Steep.into());
    }
    if minutes.len() <= reach {
        return Err(Cause::Short.into());
    }
    if minutes.len() > 240 || input.len() != wanted || room < needed {
        return Err(Cause::Length.into());
    }
    if !lawful_minutes(minutes) {
        return Err(Cause::Minute.into());
    }
    if growth as u128 * largest_size(input) as u128 > 1_000_000_000_000 {
        return Err(Cause::Value.into());
    }
    Ok(())
}
