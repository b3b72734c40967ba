// The third layer of the judge: all checks of the figures that were read, and those of the end.
ghost use Rattle.std.specs.Prelude.{◌≡◌, None, MatchResult};
ghost use Rattle.objective.specs.Checks.{kinds_no};
ghost use Rattle.objective.specs.Objective.{within};
ghost use Rattle.reader.specs.Faults.{Least};
ghost use Rattle.reader.specs.Readable.{figures_of, InForm};
ghost use Rattle.verdict.specs.Lawful.{wanted_of, Lawful, NearTheBest};
ghost use Rattle.verdict.specs.Stages.{head_no, EndFine, EndOff};
ghost use Rattle.verdict.specs.Wrong.{Wrong};

use crate::lines::{Lines, fault_from};
use crate::opening::check_given;
use crate::weighing::{weigh_entries, weigh_slopes};
use kinds::penalty::Penalty;
use kinds::refusal::Cause;
use kinds::roughness::Roughness;
use objective::gap::gap_between;
use objective::trio::{Kinds, Meant};
use reader::contents::Contents;
use reader::fault::Fault;

// Whether the gap of the stated cost and floor is within the allowance.
fn is_within(contents: &Contents) -> bool
    requires { head_no contents.now.head ≡ None }
    ensures { let g = contents.now in result ≡ within g.head.denominator g.cost g.floor g.head.allowance }
{
    let denominator = contents.head.denominator as i64;
    let allowance = contents.head.allowance as i64;
    gap_between(contents.cost, contents.floor, denominator, allowance).is_ok_and(|gap| gap.within())
}

// The end, in the last line: cost and floor against those that are stated, then their gap.
fn check_end(contents: &Contents, cost: u64, floor: i64) -> Result<(), Fault>
    requires { head_no contents.now.head ≡ None }
    ensures { let g = figures_of contents.now in MatchResult result (λ _. EndFine g cost floor) (EndOff g cost floor) }
{
    let end = Lines::of(contents).end;
    if contents.cost != cost || contents.floor != floor {
        return Err(fault_from(end, Cause::Stated.into()));
    }
    if !is_within(contents) {
        return Err(fault_from(end, Cause::Gap.into()));
    }
    Ok(())
}

// All checks of the figures, in their order.
pub(crate) fn check_figures<R: Roughness, M: Penalty, B: Penalty>(
    kinds: &Kinds<R, M, B>,
    contents: &Contents,
) -> Result<(), Fault>
    requires kinds { kinds_no (⟦<Kinds<R, M, B> as Meant>⟧.meaning kinds.now) ≡ None }
    requires form { InForm (wanted_of (⟦<Kinds<R, M, B> as Meant>⟧.meaning kinds.now)) (figures_of contents.now) }
    ensures { let k = ⟦<Kinds<R, M, B> as Meant>⟧.meaning kinds.now in let g = figures_of contents.now in MatchResult result (λ _. Lawful k g × NearTheBest k g) (Least (Wrong k g)) }
{
    check_given(contents)?;
    let cost = weigh_entries(kinds, contents)?;
    let floor = weigh_slopes(kinds, contents)?;
    check_end(contents, cost, floor)
}
