// The checks of a file's entries and multipliers, which are weighed.
ghost use Rattle.std.specs.Prelude.{◌≡◌, ◌+◌, None, MatchResult};
ghost use Rattle.kinds.specs.declared.refusal.Cause.TheVariants.{Multiplier, Column};
ghost use Rattle.kinds.specs.Checks.{first_off};
ghost use Rattle.objective.specs.Checks.{is_value};
ghost use Rattle.reader.specs.Faults.{found_by, Least};
ghost use Rattle.reader.specs.Readable.{figures_of};
ghost use Rattle.verdict.specs.Stages.{Ready, Tabled, Floored};
ghost use Rattle.verdict.specs.Wrong.{lines_of, Wrong};

use crate::lines::{Lines, fault_from};
use kinds::penalty::Penalty;
use kinds::refusal::{Cause, Refusal};
use kinds::roughness::Roughness;
use objective::trio::{Kinds, Meant};
use objective::weigh::{weigh_multipliers, weigh_table};
use reader::contents::Contents;
use reader::fault::{Fault, Layer};

// The cost of the entries, which stand behind the readings.
pub(crate) fn weigh_entries<R: Roughness, M: Penalty, B: Penalty>(
    kinds: &Kinds<R, M, B>,
    contents: &Contents,
) -> Result<u64, Fault>
    requires { Ready (⟦<Kinds<R, M, B> as Meant>⟧.meaning kinds.now) (figures_of contents.now) }
    ensures { let k = ⟦<Kinds<R, M, B> as Meant>⟧.meaning kinds.now in let g = figures_of contents.now in MatchResult result (Tabled k g) (Least (Wrong k g)) }
{
    let mut rows = [0; 240];
    weigh_table(
        kinds,
        contents.head.stiffness as i64,
        contents.readings(),
        contents.entries(),
        &mut rows,
    )
    .map_err(|refusal| fault_from(Lines::of(contents).entries, refusal))
}

// A refusal of multipliers, at its line. A column stands at its reading.
fn slope_fault(contents: &Contents, refusal: Refusal) -> Fault
    ensures multiplier { let lines = lines_of (figures_of contents.now) in refusal.cause ≡ Multiplier → result ≡ found_by Layer.Figures Multiplier (lines.multipliers + refusal.place) }
    ensures column { let lines = lines_of (figures_of contents.now) in refusal.cause ≡ Column → result ≡ found_by Layer.Figures Column (lines.readings + refusal.place) }
{
    let lines = Lines::of(contents);
    match refusal.cause {
        Cause::Column => fault_from(lines.readings, refusal),
        _ => fault_from(lines.multipliers, refusal),
    }
}

// The floor of the multipliers, which stand behind the entries.
pub(crate) fn weigh_slopes<R: Roughness, M: Penalty, B: Penalty>(
    kinds: &Kinds<R, M, B>,
    contents: &Contents,
) -> Result<i64, Fault>
    requires ready { Ready (⟦<Kinds<R, M, B> as Meant>⟧.meaning kinds.now) (figures_of contents.now) }
    requires values { first_off is_value (figures_of contents.now).entries ≡ None }
    ensures { let k = ⟦<Kinds<R, M, B> as Meant>⟧.meaning kinds.now in let g = figures_of contents.now in MatchResult result (Floored k g) (Least (Wrong k g)) }
{
    let mut columns = [0; 240];
    weigh_multipliers(
        kinds,
        contents.head.stiffness as i64,
        contents.readings(),
        contents.head.denominator as i64,
        contents.multipliers(),
        &mut columns,
    )
    .map_err(|refusal| slope_fault(contents, refusal))
}
