// What a line came to, and why a line was not carried out.
ghost use Rattle.std.specs.Prelude.{◌≡◌};
ghost use Rattle.weigh.specs.Counts.{is_weighed};

use kinds::refusal::Refusal;

// What a line came to that was carried out.
#[derive(Clone, Copy, PartialEq, Eq, Debug)]
pub enum Answer<'a> {
    Done,
    // the rows stand in the place that was lent for them
    Table { cost: u64, rows: &'a [i64] },
    // and so do the columns
    Multipliers { floor: i64, columns: &'a [i64] },
}

impl Answer<'_> {
    // Whether a table or multipliers were weighed.
    pub(crate) fn weighed(&self) -> bool
        ensures { result ≡ is_weighed self.now }
    {
        !matches!(self, Answer::Done)
    }
}

// Why a line was not carried out.
#[derive(Clone, Copy, PartialEq, Eq, Debug)]
pub enum No {
    Refused(Refusal),
    NotACall,
}

impl From<Refusal> for No {
    ghost use Rattle.std.specs.Prelude.{◌≡◌};
    ghost use Rattle.weigh.specs.declared.answer.No.TheVariants.{Refused};

    ghost from_gives = { λ refusal no. no ≡ Refused refusal };

    fn from(refusal: Refusal) -> No {
        No::Refused(refusal)
    }
}
