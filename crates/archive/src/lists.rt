// The stages at which a list is written: what the frames of each list are.
ghost use Rattle.std.specs.Prelude.{◌≡◌, ℕ, Bool, true, List, length, refl};
ghost use Rattle.archive.specs.declared.stages.Progress.{Progress};
ghost use Rattle.archive.specs.File.{reading_text, entry_text, multiplier_text, line, reading_fits, entry_fits, multiplier_fits};
ghost use Rattle.archive.specs.Writing.{moved_on, reading_width, entry_width, multiplier_width};

use crate::put::put_line;
use crate::stages::{AtEntries, AtMultipliers, AtReadings, Progress, Stage};
use kinds::reading::Reading;

// A stage at which a list is written says what its frames are; the calls that write them are the same at each.
// Kept so: the impls are alike, but each names its own list, its own test and the fields of its own frames.
pub(crate) trait ListStage: Stage + Copy {
    // what a frame of the list tells
    type Figure: Copy;

    // the digits of the frame at a place
    ghost text: { ℕ → Self.Figure → List ℕ };

    // whether the figures of a frame fit their fields
    ghost test: { Self.Figure → Bool };

    // how many frames the list has
    ghost count: { Progress → ℕ };

    // how long a frame is, its end byte counted
    ghost WIDTH: { ℕ };

    const WIDTH: usize;

    fn count(progress: Progress) -> usize
        ensures { result ≡ count progress };

    fn fits(figure: Self::Figure) -> bool
        ensures { result ≡ test figure };

    // Writes the frame that comes next over a part that is as long.
    fn put(part: &mut [u8], progress: Progress, figure: Self::Figure)
        requires fits { test figure ≡ true }
        requires long { length part.old ≡ WIDTH }
        ensures { part.new ≡ line (text progress.next figure) };

    // frames that are written do not change the count
    ghost counted: { (p : Progress) (i k : ℕ) → count (moved_on p i k) ≡ count p };
}

impl ListStage for AtReadings {
    type Figure = Reading;

    ghost text = { reading_text };

    ghost test = { reading_fits };

    ghost count = { λ p. p.readings };

    ghost WIDTH = { reading_width };

    const WIDTH: usize = 23;

    ghost counted = { λ p i k. refl };

    fn count(progress: Progress) -> usize {
        progress.readings
    }

    fn fits(reading: Reading) -> bool {
        u32::try_from(reading.minute).is_ok()
            && u16::try_from(reading.crude).is_ok()
            && u16::try_from(reading.weight).is_ok()
    }

    fn put(part: &mut [u8], progress: Progress, reading: Reading) {
        let minute = reading.minute.unsigned_abs();
        let crude = reading.crude.unsigned_abs();
        let weight = reading.weight.unsigned_abs();
        put_line(
            part,
            &[
                (2, 0x02),
                (4, progress.next as u64),
                (8, minute),
                (4, crude),
                (4, weight),
            ],
        );
    }
}

impl ListStage for AtEntries {
    type Figure = i64;

    ghost text = { entry_text };

    ghost test = { entry_fits };

    ghost count = { λ p. p.readings };

    ghost WIDTH = { entry_width };

    const WIDTH: usize = 11;

    ghost counted = { λ p i k. refl };

    fn count(progress: Progress) -> usize {
        progress.readings
    }

    fn fits(value: i64) -> bool {
        u16::try_from(value).is_ok()
    }

    fn put(part: &mut [u8], progress: Progress, value: i64) {
        let figure = value.unsigned_abs();
        put_line(part, &[(2, 0x03), (4, progress.next as u64), (4, figure)]);
    }
}

impl ListStage for AtMultipliers {
    type Figure = i64;

    ghost text = { multiplier_text };

    ghost test = { multiplier_fits };

    ghost count = { λ p. p.multipliers };

    ghost WIDTH = { multiplier_width };

    const WIDTH: usize = 15;

    ghost counted = { λ p i k. refl };

    fn count(progress: Progress) -> usize {
        progress.multipliers
    }

    fn fits(value: i64) -> bool {
        i32::try_from(value).is_ok()
    }

    fn put(part: &mut [u8], progress: Progress, value: i64) {
        let figure = (value as i32).cast_unsigned() as u64;
        put_line(part, &[(2, 0x04), (4, progress.next as u64), (8, figure)]);
    }
}
