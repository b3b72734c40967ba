// The kinds of roughness that the programs know.
ghost use Rattle.known.specs.Known.{roughness_meaning, Raises, RoughnessOf};
ghost use Rattle.roughness.specs.Maps.{first, slope};
ghost use Rattle.known.specs.declared.roughness_kind.KnownRoughness.TheVariants.{First, FirstOnce, FirstTwice, FirstThrice, Slope, SlopeOnce, SlopeTwice};
ghost use Rattle.roughness.specs.Kept.{first_kept, slope_kept};
ghost use Rattle.known.specs.Raised.{raised_times_kept};

use crate::mark::UnknownMark;
use kinds::refusal::Refusal;
use kinds::roughness::Roughness;
use roughness::first::First;
use roughness::raise::Raise;
use roughness::slope::Slope;

// First raised up to 3 times, and Slope raised up to 2 times.
#[derive(Clone, Copy)]
pub enum KnownRoughness {
    First(First),
    FirstOnce(Raise<First>),
    FirstTwice(Raise<Raise<First>>),
    FirstThrice(Raise<Raise<Raise<First>>>),
    Slope(Slope),
    SlopeOnce(Raise<Slope>),
    SlopeTwice(Raise<Raise<Slope>>),
}

// What the kind at hand answers: `$kind` is that kind in `$answer`.
// Kept so: a method that asks by a closure takes `FnOnce(&dyn Roughness)`, a bound that the check cannot state.
macro_rules! for_each_known {
    ($known:expr, $kind:ident => $answer:expr) => {
        match $known {
            KnownRoughness::First($kind) => $answer,
            KnownRoughness::FirstOnce($kind) => $answer,
            KnownRoughness::FirstTwice($kind) => $answer,
            KnownRoughness::FirstThrice($kind) => $answer,
            KnownRoughness::Slope($kind) => $answer,
            KnownRoughness::SlopeOnce($kind) => $answer,
            KnownRoughness::SlopeTwice($kind) => $answer,
        }
    };
}

impl KnownRoughness {
    // First raised so many times, none above 3.
    // Kept so: this and `slope` differ in their kind alone, but each number of raisings is a type and a case of its own.
    pub fn first(raised: u8) -> Option<KnownRoughness>
        ensures { Raises first 3 raised result }
    {
        let once = Raise { below: First };
        let twice = Raise { below: once };
        match raised {
            0 => Some(KnownRoughness::First(First)),
            1 => Some(KnownRoughness::FirstOnce(once)),
            2 => Some(KnownRoughness::FirstTwice(twice)),
            3 => Some(KnownRoughness::FirstThrice(Raise { below: twice })),
            _ => None,
        }
    }

    // Slope raised so many times, none above 2.
    pub fn slope(raised: u8) -> Option<KnownRoughness>
        ensures { Raises slope 2 raised result }
    {
        let once = Raise { below: Slope };
        match raised {
            0 => Some(KnownRoughness::Slope(Slope)),
            1 => Some(KnownRoughness::SlopeOnce(once)),
            2 => Some(KnownRoughness::SlopeTwice(Raise { below: once })),
            _ => None,
        }
    }
}

// The known roughness of a mark.
impl TryFrom<u64> for KnownRoughness {
    type Error = UnknownMark;

    ghost try_from_gives = { RoughnessOf };

    fn try_from(mark: u64) -> Result<KnownRoughness, UnknownMark> {
        let unknown = UnknownMark(mark);
        match mark {
            257..=260 => KnownRoughness::first((mark - 257) as u8).ok_or(unknown),
            514..=516 => KnownRoughness::slope((mark - 514) as u8).ok_or(unknown),
            _ => Err(unknown),
        }
    }
}

impl Roughness for KnownRoughness {
    ghost meaning = { roughness_meaning };

    ghost kept = { elim [
      | First k ↦ first_kept
      | FirstOnce k ↦ raised_times_kept 1 first first_kept
      | FirstTwice k ↦ raised_times_kept 2 first first_kept
      | FirstThrice k ↦ raised_times_kept 3 first first_kept
      | Slope k ↦ slope_kept
      | SlopeOnce k ↦ raised_times_kept 1 slope slope_kept
      | SlopeTwice k ↦ raised_times_kept 2 slope slope_kept
    ] };

    fn reach(&self) -> usize {
        for_each_known!(self, kind => kind.reach())
    }

    fn growth(&self) -> u64 {
        for_each_known!(self, kind => kind.growth())
    }

    fn mark(&self) -> u16 {
        for_each_known!(self, kind => kind.mark())
    }

    fn forward(&self, minutes: &[i64], values: &[i64], rows: &mut [i64]) -> Result<(), Refusal> {
        for_each_known!(self, kind => kind.forward(minutes, values, rows))
    }

    fn back(
        &self,
        minutes: &[i64],
        multipliers: &[i64],
        columns: &mut [i64],
    ) -> Result<(), Refusal> {
        for_each_known!(self, kind => kind.back(minutes, multipliers, columns))
    }
}
