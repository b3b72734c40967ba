// A whole file written at once.
ghost use Rattle.std.specs.Prelude.{◌≡◌, ◌≤◌, length, None};
ghost use Rattle.archive.specs.File.{file, file_length};
ghost use Rattle.archive.specs.Runs.{EveryRunWrites};
ghost use Rattle.archive.specs.Writing.{Puts, Writes, all_fit, most_frames, figures_fit, writing_no, answered, gathered};

use crate::figures::Figures;
use crate::lists::ListStage;
use crate::stages::{AtEntries, AtMultipliers, AtReadings, Unfinished};
use kinds::refusal::Cause;

const MOST_MULTIPLIERS: usize = 65_536;

fn all_fit<S: ListStage>(figures: &[S::Figure]) -> bool
    ensures { result ≡ all_fit S.test figures.now }
{
    figures.iter().all(|figure| S::fits(*figure))
}

fn length_of(readings: usize, multipliers: usize) -> usize
    requires readings { readings ≤ most_frames }
    requires multipliers { multipliers ≤ most_frames }
    ensures { result ≡ file_length readings multipliers }
{
    84 + 34 * readings + 15 * multipliers
}

impl Figures<'_> {
    fn fit(&self) -> bool
        ensures { let g = gathered self.now in result ≡ figures_fit g.head g.readings g.entries g.multipliers }
    {
        self.head.fits()
            && all_fit::<AtReadings>(self.readings)
            && all_fit::<AtEntries>(self.entries)
            && all_fit::<AtMultipliers>(self.multipliers)
            && self.multipliers.len() <= MOST_MULTIPLIERS
    }

    // All checks of a file: none of the calls that then write it is refused.
    // Kept so: the order is that of `checked`, but the length is known only once the figures are found to fit.
    fn check(&self, room: usize) -> Result<(), Cause>
        ensures { result ≡ answered (writing_no (gathered self.now) room) tt }
    {
        let readings = self.readings.len();
        if readings as u64 != self.head.readings || self.entries.len() != readings {
            return Err(Cause::Frame);
        }
        if !self.fit() {
            return Err(Cause::Value);
        }
        if room < length_of(readings, self.multipliers.len()) {
            return Err(Cause::Room);
        }
        Ok(())
    }

    // Leads a file that has passed its checks through all stages; the answer is its length.
    fn write(&self, place: &mut [u8]) -> usize
        requires { writing_no (gathered self.now) (length place.old) ≡ None }
        ensures { Writes (gathered self.now) place.old place.new (Ok result) }
    {
        let opened = Unfinished::new();
        let multipliers = self.multipliers.len();
        let at_readings = opened.head(place, self.head, multipliers).unwrap();
        let readings_end = at_readings.frames(place, self.readings);
        let at_entries = readings_end.begin_entries().unwrap();
        let entries_end = at_entries.frames(place, self.entries);
        let at_multipliers = entries_end.begin_multipliers().unwrap();
        let multipliers_end = at_multipliers.frames(place, self.multipliers);
        let ended = multipliers_end.end(place, self.cost, self.floor).unwrap();
        ended.bytes()
    }
}

// Writes a file at the start of `place` and answers its length. The place is untouched where the call is refused. Not only
// this run of the stages' calls, every run of them that is ended writes the file of the figures that it took.
pub fn write_file(place: &mut [u8], figures: &Figures) -> Result<usize, Cause>
    ensures writes { Writes (gathered figures.now) place.old place.new result }
    ensures runs { EveryRunWrites }
{
    figures.check(place.len())?;
    Ok(figures.write(place))
}
