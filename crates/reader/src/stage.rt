// What the frame layer waits for.
ghost use Rattle.std.specs.Prelude.{◌≡◌};
ghost use Rattle.reader.specs.Frames.{stage_at};

use crate::contents::Contents;

// The frame that has to come next, with its place.
#[derive(Clone, Copy)]
pub enum Stage {
    Head,
    Reading(usize),
    Entry(usize),
    Multiplier(usize),
    End,
    // no line at all
    // Kept so: `Option<Stage>` is no plainer, since each pattern on a stage would then be a pattern in `Some`.
    Nothing,
}

// What has to come behind the head and so many lines more, by the counts that the head gave.
pub(crate) fn awaited(contents: &Contents, taken: usize) -> Stage
    ensures { result ≡ stage_at contents.now.head.readings contents.now.count taken }
{
    let n = contents.head.readings as usize;
    let m = contents.count;
    if taken < n {
        Stage::Reading(taken)
    } else if taken < n + n {
        Stage::Entry(taken - n)
    } else if taken < n + n + m {
        Stage::Multiplier(taken - (n + n))
    } else if taken == n + n + m {
        Stage::End
    } else {
        Stage::Nothing
    }
}
