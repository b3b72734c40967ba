// What a run has done.
ghost use Rattle.std.specs.Prelude.{◌≡◌};
ghost use Rattle.weigh.specs.Counts.{counted};

use crate::answer::{Answer, No};

#[derive(Clone, Copy, PartialEq, Eq, Debug, Default)]
pub struct Tally {
    // lines that were calls
    pub calls: u64,
    // calls that were refused
    pub refused: u64,
    // lines that were no calls
    pub unknown: u64,
}

impl Tally {
    pub(crate) fn new() -> Tally
        ensures { (result.calls ≡ 0) × (result.refused ≡ 0) × (result.unknown ≡ 0) }
    {
        Tally::default()
    }

    // One line more, by its answer.
    pub(crate) fn count(&mut self, answer: &Result<Answer, No>)
        ensures { self.new ≡ counted self.old answer.now }
    {
        match answer {
            Ok(_) => self.calls = self.calls.saturating_add(1),
            Err(No::Refused(_)) => {
                self.calls = self.calls.saturating_add(1);
                self.refused = self.refused.saturating_add(1);
            }
            Err(No::NotACall) => self.unknown = self.unknown.saturating_add(1),
        }
    }
}
