// The marks of three kinds, and the judge under the kinds that have them.
ghost use Rattle.std.specs.Prelude.{◌≤◌, length, slice_range, MatchResult};
ghost use Rattle.digits.specs.Fields.{Reads};
ghost use Rattle.objective.specs.Objective.{KindsMeaning};
ghost use Rattle.catalogue.specs.Judged.{Marked, Stands, Judged};

use digits::read_field;
use known::mark::UnknownMark;
use known::trio::KnownKinds;
use objective::trio::{Kinds, Meant};
use reader::contents::Contents;
use reader::fault::Fault;
use reader::read::read_file;
use std::ops::Range;
use verdict::judge::judge;

// Any numbers can be marks; whether a known kind has them, the judge asks.
#[derive(Clone, Copy, PartialEq, Eq, Debug)]
pub struct Marks {
    pub roughness: u64,
    pub misfit: u64,
    pub bend: u64,
}

// The three marks stand behind the head's number and the edition, one after the other.
const ROUGHNESS: Range<usize> = 4..8;

const MISFIT: Range<usize> = 8..14;

const BEND: Range<usize> = 14..20;

// The number that stands at a place of a file, none where no number does.
fn number_at(file: &[u8], place: Range<usize>) -> Option<u64>
    ensures { place.start ≤ place.end → place.end ≤ length file.now → Reads (slice_range file.now place.start place.end) result }
{
    read_field(file.get(place)?)
}

impl Marks {
    // The marks in the first line of a file, none where no number stands there.
    pub(crate) fn in_head(file: &[u8]) -> Option<Marks>
        ensures { Stands file.now result }
    {
        Some(Marks {
            roughness: number_at(file, ROUGHNESS)?,
            misfit: number_at(file, MISFIT)?,
            bend: number_at(file, BEND)?,
        })
    }

    // The known kinds that have the marks.
    fn kinds(self) -> Result<KnownKinds, UnknownMark>
        ensures { MatchResult result (λ k. Marked self (⟦<KnownKinds as Meant>⟧.meaning k)) (λ _. (k : KindsMeaning) → Marked self k → ⊥) }
    {
        Ok(Kinds {
            roughness: self.roughness.try_into()?,
            misfit: self.misfit.try_into()?,
            bend: self.bend.try_into()?,
        })
    }
}

// What the file carries, or the fault for which it is turned down. Where no known kinds have the marks, no file is
// accepted: its head then has a wrong mark, if nothing else is wrong before that.
pub fn judge_marks(marks: Marks, file: &[u8]) -> Result<Contents, Fault>
    ensures { Judged marks file.now result }
{
    match marks.kinds() {
        Ok(kinds) => judge(&kinds, file),
        Err(_) => read_file(file, None),
    }
}
