// Which minutes are lawful, and how large the figures of a list are.
ghost use Rattle.std.specs.Prelude.{◌≡◌};
ghost use Rattle.kinds.specs.Figures.{largest};
ghost use Rattle.kinds.specs.Minutes.{may_come, lawful};

// Whether a reading at `minute` may come next, after one at `last` or as the first.
pub fn may_come(last: Option<i64>, minute: i64) -> bool
    ensures { result ≡ may_come last minute }
{
    match last {
        None => 0 <= minute && minute <= 60,
        Some(before) => before < minute && minute <= before.saturating_add(60),
    }
}

pub fn lawful_minutes(minutes: &[i64]) -> bool
    ensures { result ≡ lawful minutes.now }
{
    // Kept so: each minute is judged by the one before it, which a closure would carry along in the same way.
    let mut last = None;
    for minute in minutes {
        if !may_come(last, *minute) {
            return false;
        }
        last = Some(*minute);
    }
    true
}

// The largest size among the figures, 0 where there are none.
pub fn largest_size(figures: &[i64]) -> u64
    ensures { result ≡ largest figures.now }
{
    // Kept so: a `fold` was tried, and takes an answer where this loop takes none.
    let mut most = 0;
    for figure in figures {
        most = figure.unsigned_abs().max(most);
    }
    most
}
