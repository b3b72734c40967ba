// What the program prints: answers, gaps and the tally, each as one line.
ghost use Rattle.std.specs.Prelude.{◌≡◌};
ghost use Rattle.weigh.specs.Printed.{side_text};

use crate::answer::{Answer, No};
use crate::firing::GapOver;
use crate::tally::Tally;
use objective::gap::Gap;
use std::fmt;

// The answer of a line, with its number in the text.
#[derive(Clone, Copy)]
pub struct Reply<'a> {
    pub number: usize,
    pub answer: Result<Answer<'a>, No>,
}

impl fmt::Display for Reply<'_> {
    ghost use Rattle.std.specs.Prelude.{Some};
    ghost use Rattle.weigh.specs.Printed.{reply_text};

    ghost output = { λ reply. Some (reply_text reply) };

    fn fmt<W: fmt::Write>(&self, f: &mut fmt::Formatter<W>) -> fmt::Result {
        let number = self.number;
        match &self.answer {
            Ok(answer) => write!(f, "{answer}"),
            Err(No::Refused(refusal)) => {
                let cause = u8::from(refusal.cause);
                let at = refusal.place;
                write!(f, "no {cause} {at}")
            }
            Err(No::NotACall) => write!(f, "line {number} is not a call"),
        }
    }
}

impl fmt::Display for Answer<'_> {
    ghost use Rattle.std.specs.Prelude.{Some};
    ghost use Rattle.weigh.specs.Printed.{answer_text};

    ghost output = { λ answer. Some (answer_text answer) };

    fn fmt<W: fmt::Write>(&self, f: &mut fmt::Formatter<W>) -> fmt::Result {
        match self {
            Answer::Done => write!(f, "ok"),
            Answer::Table { cost, rows } => {
                let rows = Figures(*rows);
                write!(f, "rows{rows} cost {cost}")
            }
            Answer::Multipliers { floor, columns } => {
                let columns = Figures(*columns);
                write!(f, "columns{columns} floor {floor}")
            }
        }
    }
}

// Figures, with a space before each.
#[derive(Clone, Copy)]
struct Figures<'a>(&'a [i64]);

impl fmt::Display for Figures<'_> {
    ghost use Rattle.std.specs.Prelude.{Some};
    ghost use Rattle.weigh.specs.Printed.{figures_text};

    ghost output = { λ figures. Some (figures_text figures.0.now) };

    fn fmt<W: fmt::Write>(&self, f: &mut fmt::Formatter<W>) -> fmt::Result {
        for figure in self.0 {
            write!(f, " {figure}")?;
        }
        Ok(())
    }
}

impl fmt::Display for GapOver {
    ghost use Rattle.std.specs.Prelude.{Some};
    ghost use Rattle.weigh.specs.Printed.{gap_text};

    ghost output = { λ gap. Some (gap_text gap) };

    fn fmt<W: fmt::Write>(&self, f: &mut fmt::Formatter<W>) -> fmt::Result {
        let GapOver { gap, denominator } = self;
        let Gap { scaled, spare } = gap;
        let side = side(gap);
        let spare = spare.unsigned_abs();
        write!(
            f,
            "gap {scaled}/{denominator} {side} the allowance by {spare}/{denominator}"
        )
    }
}

// On which side of the allowance a gap lies.
fn side(gap: &Gap) -> &'static str
    ensures { result.now ≡ side_text gap.now }
{
    if gap.within() { "within" } else { "above" }
}

impl fmt::Display for Tally {
    ghost use Rattle.std.specs.Prelude.{Some};
    ghost use Rattle.weigh.specs.Printed.{tally_text};

    ghost output = { λ tally. Some (tally_text tally) };

    fn fmt<W: fmt::Write>(&self, f: &mut fmt::Formatter<W>) -> fmt::Result {
        let Tally {
            calls,
            refused,
            unknown,
        } = *self;
        write!(
            f,
            "{calls} calls, {refused} refused, {unknown} lines not understood"
        )
    }
}
