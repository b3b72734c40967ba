// The checks of a file's head and readings.
ghost use Rattle.std.specs.Prelude.{◌≡◌, MatchResult};
ghost use Rattle.kinds.specs.Checks.{answer};
ghost use Rattle.objective.specs.Objective.{KindsMeaning};
ghost use Rattle.reader.specs.Faults.{Least};
ghost use Rattle.reader.specs.Readable.{figures_of};
ghost use Rattle.verdict.specs.Stages.{head_no, InOrder};
ghost use Rattle.verdict.specs.Wrong.{Wrong};

use crate::lines::{Lines, fault_from};
use archive::figures::Head;
use kinds::refusal::{Cause, Refusal};
use objective::checks::{check_readings, check_settings};
use reader::contents::Contents;
use reader::fault::Fault;

// The settings, then the denominator. A figure of 2^63 or more is below 0 as a signed number, and refused as well.
fn check_head(head: &Head) -> Result<(), Refusal>
    ensures { result ≡ answer (head_no head.now) tt }
{
    check_settings(head.stiffness.cast_signed(), head.allowance.cast_signed())?;
    // Kept so: a public check of a denominator alone would be a call of `objective` more, for this one test.
    if !(1..=1000).contains(&head.denominator) {
        return Err(Cause::Denominator.into());
    }
    Ok(())
}

// The head, then the readings.
pub(crate) fn check_given(contents: &Contents) -> Result<(), Fault>
    ensures { let g = figures_of contents.now in MatchResult result (λ _. InOrder g) (λ f. (k : KindsMeaning) → Least (Wrong k g) f) }
{
    let lines = Lines::of(contents);
    check_head(&contents.head).map_err(|refusal| fault_from(lines.head, refusal))?;
    check_readings(contents.readings()).map_err(|refusal| fault_from(lines.readings, refusal))
}
