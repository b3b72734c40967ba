// The figures of a file that was accepted, place by place.
ghost use Rattle.std.specs.Prelude.{◌≡◌, pos};
ghost use Rattle.reader.specs.Readable.{figures_of};
ghost use Rattle.verdict.specs.Accepted.{figure_at};
ghost use Rattle.verdict.specs.Wrong.{no_reading};

use kinds::reading::Reading;
use kinds::refusal::{Cause, Refusal};
use reader::contents::Contents;

// The figure at a place of a list.
fn figure_at<T: Copy>(figures: &[T], place: usize) -> Result<T, Refusal>
    ensures { (past : T) → result ≡ figure_at figures.now place past }
{
    figures.get(place).copied().ok_or(Cause::Place.into())
}

pub fn reading(contents: &Contents, place: usize) -> Result<Reading, Refusal>
    ensures { result ≡ figure_at (figures_of contents.now).readings place no_reading }
{
    figure_at(contents.readings(), place)
}

pub fn entry(contents: &Contents, place: usize) -> Result<i64, Refusal>
    ensures { result ≡ figure_at (figures_of contents.now).entries place (pos 0) }
{
    figure_at(contents.entries(), place)
}

pub fn multiplier(contents: &Contents, place: usize) -> Result<i64, Refusal>
    ensures { result ≡ figure_at (figures_of contents.now).multipliers place (pos 0) }
{
    figure_at(contents.multipliers(), place)
}
