// The checks of kinds, settings and readings.
ghost use Rattle.std.specs.Prelude.{◌≡◌};
ghost use Rattle.kinds.specs.Checks.{answer, located};
ghost use Rattle.objective.specs.Checks.{kinds_no, settings_no, reading_no, readings_no};

use crate::ranges::{is_allowance, is_stiffness, is_value};
use crate::trio::{Kinds, Meant};
use kinds::minutes::may_come;
use kinds::penalty::Penalty;
use kinds::reading::Reading;
use kinds::refusal::{Cause, Refusal};
use kinds::roughness::Roughness;

// A growth of at most 2,000 and a steepness of at most 100.
pub fn check_kinds<R: Roughness, M: Penalty, B: Penalty>(
    kinds: &Kinds<R, M, B>,
) -> Result<(), Refusal>
    ensures { result ≡ answer (kinds_no (⟦<Kinds<R, M, B> as Meant>⟧.meaning kinds.now)) tt }
{
    let growth = kinds.roughness.growth();
    let misfit = kinds.misfit.steepness();
    let bend = kinds.bend.steepness();
    if growth > 2000 || misfit > 100 || bend > 100 {
        return Err(Cause::Steep.into());
    }
    Ok(())
}

// A stiffness of 1 to 1,000 and an allowance of 0 to 10^12.
pub fn check_settings(stiffness: i64, allowance: i64) -> Result<(), Refusal>
    ensures { result ≡ answer (settings_no stiffness allowance) tt }
{
    if !is_stiffness(stiffness) || !is_allowance(allowance) {
        return Err(Cause::Setting.into());
    }
    Ok(())
}

// A reading that comes after `count` others, the last of them at minute `last`; a refusal names `place`.
pub fn check_reading(
    count: usize,
    place: usize,
    last: Option<i64>,
    reading: &Reading,
) -> Result<(), Refusal>
    ensures { result ≡ answer (reading_no count place last reading.now) tt }
{
    let refused = |cause: Cause| Err(Refusal { cause, place });
    if count >= 240 {
        return refused(Cause::Full);
    }
    if !is_value(reading.crude) || !(0..=100).contains(&reading.weight) {
        return refused(Cause::Figure);
    }
    if !may_come(last, reading.minute) {
        return refused(Cause::Minute);
    }
    Ok(())
}

// Readings one after the other, each refused at its own place.
pub fn check_readings(readings: &[Reading]) -> Result<(), Refusal>
    ensures { result ≡ answer (readings_no readings.now) tt }
{
    let mut last = None;
    // Kept so: the place is what a refusal names, and no index.
    for (place, reading) in readings.iter().enumerate() {
        check_reading(place, place, last, reading)?;
        last = Some(reading.minute);
    }
    Ok(())
}

// A refusal at the place that a search found.
pub(crate) fn check_found(cause: Cause, found: Option<usize>) -> Result<(), Refusal>
    ensures { result ≡ answer (located cause found) tt }
{
    match found {
        None => Ok(()),
        Some(place) => Err(Refusal { cause, place }),
    }
}
