// The kinds that a line of text names.
ghost use Rattle.std.specs.Prelude.{◌≡◌};
ghost use Rattle.known.specs.Known.{made_meaning};
ghost use Rattle.weigh.specs.Named.{named_roughness, named_penalty, named_kinds, maybe_meaning, kinds_meaning};

use crate::answer::No;
use kinds::refusal::Refusal;
use known::penalty::KnownPenalty;
use known::roughness_kind::KnownRoughness;
use known::trio::KnownKinds;
use objective::trio::Kinds;
use words::spellings::{PenaltyWord, RoughnessWord};

// None where the roughness is raised more often than is known.
fn roughness_of(word: RoughnessWord) -> Option<KnownRoughness>
    ensures { maybe_meaning result ≡ named_roughness word }
{
    match word {
        RoughnessWord::First(times) => KnownRoughness::first(times),
        RoughnessWord::Slope(times) => KnownRoughness::slope(times),
    }
}

fn penalty_of(word: PenaltyWord) -> Result<KnownPenalty, Refusal>
    ensures { made_meaning result ≡ named_penalty word }
{
    match word {
        PenaltyWord::Absolute => Ok(KnownPenalty::absolute()),
        PenaltyWord::Lopsided { rise, fall } => KnownPenalty::lopsided(rise, fall),
    }
}

// The kinds that three words name: no call where there is no such roughness, and a refusal where a penalty is out of
// range.
pub(crate) fn kinds_of(
    roughness: RoughnessWord,
    misfit: PenaltyWord,
    bend: PenaltyWord,
) -> Result<KnownKinds, No>
    ensures { kinds_meaning result ≡ named_kinds roughness misfit bend }
{
    Ok(Kinds {
        roughness: roughness_of(roughness).ok_or(No::NotACall)?,
        misfit: penalty_of(misfit)?,
        bend: penalty_of(bend)?,
    })
}
