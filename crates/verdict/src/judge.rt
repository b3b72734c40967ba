// The judge.
ghost use Rattle.std.specs.Prelude.{◌≡◌, Some};
ghost use Rattle.verdict.specs.Lawful.{wanted_of};
ghost use Rattle.verdict.specs.Verdicts.{Judges};

use crate::figures::check_figures;
use crate::lines::fault_from;
use kinds::penalty::Penalty;
use kinds::roughness::Roughness;
use objective::checks::check_kinds;
use objective::trio::{Kinds, Meant};
use reader::contents::{Contents, Wanted};
use reader::fault::Fault;
use reader::read::read_file;

// The marks and the reach that the kinds tell.
// Kept so: an `impl From` is refused here, since both types are other crates'.
fn wanted_by<R: Roughness, M: Penalty, B: Penalty>(kinds: &Kinds<R, M, B>) -> Wanted
    ensures { Some result ≡ wanted_of (⟦<Kinds<R, M, B> as Meant>⟧.meaning kinds.now) }
{
    Wanted {
        roughness: kinds.roughness.mark(),
        misfit: kinds.misfit.mark(),
        bend: kinds.bend.mark(),
        reach: kinds.roughness.reach(),
    }
}

// Accepts the file of lawful figures, as its contents, and answers for any other bytes with the fault that comes first.
pub fn judge<R: Roughness, M: Penalty, B: Penalty>(
    kinds: &Kinds<R, M, B>,
    file: &[u8],
) -> Result<Contents, Fault>
    ensures { Judges (⟦<Kinds<R, M, B> as Meant>⟧.meaning kinds.now) file.now result }
{
    check_kinds(kinds).map_err(|refusal| fault_from(0, refusal))?;
    let contents = read_file(file, Some(wanted_by(kinds)))?;
    check_figures(kinds, &contents)?;
    Ok(contents)
}
