// The lines in which the parts of a file begin.
ghost use Rattle.std.specs.Prelude.{◌≡◌, ◌+◌};
ghost use Rattle.reader.specs.Faults.{found_by};
ghost use Rattle.reader.specs.Readable.{figures_of};
ghost use Rattle.verdict.specs.Wrong.{lines_of};

use kinds::refusal::Refusal;
use reader::contents::Contents;
use reader::fault::{Fault, Layer};

// The first line of each part, counted from 1.
#[derive(Clone, Copy)]
pub(crate) struct Lines {
    pub head: usize,
    pub readings: usize,
    pub entries: usize,
    pub multipliers: usize,
    pub end: usize,
}

impl Lines {
    pub(crate) fn of(contents: &Contents) -> Lines
        ensures { result ≡ lines_of (figures_of contents.now) }
    {
        let head = 1;
        let readings = head + 1;
        let entries = readings + contents.readings().len();
        let multipliers = entries + contents.entries().len();
        let end = multipliers + contents.multipliers().len();
        Lines {
            head,
            readings,
            entries,
            multipliers,
            end,
        }
    }
}

// A refusal of kinds or figures as a fault, with its place counted from a line. The kinds stand in no line.
// Kept so: no `From`, which has no room for the line.
pub(crate) fn fault_from(line: usize, refusal: Refusal) -> Fault
    ensures { result ≡ found_by Layer.Figures refusal.cause (line + refusal.place) }
{
    Fault::found_by(
        Layer::Figures,
        refusal.cause,
        line.saturating_add(refusal.place),
    )
}
