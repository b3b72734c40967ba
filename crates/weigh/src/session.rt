// The lines of a text, carried out one after the other on the firing at hand.
ghost use Rattle.std.specs.Prelude.{◌≡◌, true, length, min, take, replicate, pos, is_some, None, OnOk, OnErr};
ghost use Rattle.words.specs.Arguments.{place_after};
ghost use Rattle.words.specs.Grammar.{line_of, listed_of};
ghost use Rattle.weigh.specs.Named.{named_kinds};
ghost use Rattle.weigh.specs.Answered.{told_result, maybe_told, Starts, Answers, line_answer, line_leaves, call_answer, call_leaves};
ghost use Rattle.weigh.specs.Firings.{gap_at_hand};

use crate::answer::{Answer, No};
use crate::firing::{Firing, GapOver};
use crate::named::kinds_of;
use kinds::reading::Reading;
use words::grammar::{Line, read_line};
use words::spellings::{PenaltyWord, RoughnessWord};

// How many figures of a line are kept: one more than any list that could be accepted.
const MOST: usize = 241;

#[derive(Drop, Default)]
pub struct Session {
    // none before the first kinds
    firing: Option<Firing>,
}

impl Session {
    pub(crate) fn new() -> Session
        ensures { result.firing ≡ None }
    {
        Session::default()
    }

    // Carries one line out; a blank one has no answer. Rows and columns are written into `place`.
    // Kept so: that a blank line has no answer is no error, so it stands outside of the `Result`.
    pub(crate) fn answer<'a>(
        &mut self,
        line: &[u8],
        place: &'a mut [i64],
    ) -> Option<Result<Answer<'a>, No>>
        ensures stays { is_some self.old.firing ≡ true → is_some self.new.firing ≡ true }
        ensures answered { Answers self.old.firing (line_of line.now) (place_after (listed_of line.now) (replicate 241 (pos 0))) (length place.old) (maybe_told result) self.new.firing }
    {
        let mut figures = [0; MOST];
        match read_line(line, &mut figures) {
            Line::Blank => None,
            Line::Kinds {
                roughness,
                misfit,
                bend,
            } => Some(self.start(roughness, misfit, bend)),
            said => Some(self.call(said, &figures, place)),
        }
    }

    // A new firing, if the kinds are fine; else the one at hand stays.
    fn start<'a>(
        &mut self,
        roughness: RoughnessWord,
        misfit: PenaltyWord,
        bend: PenaltyWord,
    ) -> Result<Answer<'a>, No>
        ensures { Starts self.old.firing (named_kinds roughness misfit bend) (told_result result) self.new.firing }
    {
        let kinds = kinds_of(roughness, misfit, bend)?;
        self.firing = Some(Firing::new(kinds));
        Ok(Answer::Done)
    }

    // What is said of the firing at hand; no call before there is one.
    fn call<'a>(
        &mut self,
        said: Line,
        figures: &[i64],
        place: &'a mut [i64],
    ) -> Result<Answer<'a>, No>
        ensures answered { told_result result ≡ call_answer self.old.firing said figures.now (length place.old) }
        ensures ok { OnOk result (self.new.firing ≡ call_leaves self.old.firing said figures.now) }
        ensures err { OnErr result (self.new.firing ≡ self.old.firing) }
    {
        let firing = self.firing.as_mut().ok_or(No::NotACall)?;
        carry_out(firing, said, figures, place)
    }

    // The gap between what was weighed last, once both are there.
    pub(crate) fn gap(&self) -> Option<GapOver>
        ensures { result ≡ gap_at_hand self.now.firing }
    {
        self.firing.as_ref()?.gap()
    }
}

// The first `count` figures, or all where there are fewer.
fn listed(figures: &[i64], count: usize) -> &[i64]
    ensures { result.now ≡ take (min count (length figures.now)) figures.now }
{
    &figures[..count.min(figures.len())]
}

fn carry_out<'a>(
    firing: &mut Firing,
    said: Line,
    figures: &[i64],
    place: &'a mut [i64],
) -> Result<Answer<'a>, No>
    ensures answered { told_result result ≡ line_answer firing.old said figures.now (length place.old) }
    ensures ok { OnOk result (firing.new ≡ line_leaves firing.old said figures.now) }
    ensures err { OnErr result (firing.new ≡ firing.old) }
{
    match said {
        Line::Set {
            stiffness,
            allowance,
        } => firing.set(stiffness, allowance),
        Line::Note {
            minute,
            crude,
            weight,
        } => firing.note(Reading {
            minute,
            crude,
            weight,
        }),
        Line::Table { count } => firing.table(listed(figures, count), place),
        Line::Multipliers { denominator, count } => {
            firing.multipliers(denominator, listed(figures, count), place)
        }
        Line::Kinds { .. } | Line::Blank | Line::Unknown => Err(No::NotACall),
    }
}
