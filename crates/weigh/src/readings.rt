// The readings of a firing, in the order in which they were noted.
ghost use Rattle.std.specs.Prelude.{◌≡◌, [], ◌∷◌, ◌++◌, OnOk, OnErr};
ghost use Rattle.kinds.specs.Checks.{answer};
ghost use Rattle.weigh.specs.Steps.{next_no};

use kinds::bounded::Bounded;
use kinds::reading::Reading;
use kinds::refusal::Refusal;
use objective::checks::check_reading;
use std::marker::Model;

// At most 240 readings. Contracts see the list of them.
#[derive(Drop)]
pub struct Readings {
    noted: Bounded<Reading, 240>,
}

impl Model for Readings {
    ghost use Rattle.std.specs.Prelude.{List, take};
    ghost use Rattle.kinds.specs.declared.reading.Reading.{Reading};

    ghost Value = { List Reading };

    ghost view = { λ r. take r.noted.count r.noted.items };
}

impl Readings {
    pub(crate) fn new() -> Readings
        ensures { result ≡ [] }
    {
        // Kept so: it only fills the place; a `Default` would make a reading of it, and is no plainer.
        let blank = Reading {
            minute: 0,
            crude: 0,
            weight: 0,
        };
        Readings {
            noted: Bounded::new(blank),
        }
    }

    pub(crate) fn as_slice(&self) -> &[Reading]
        ensures { result.now ≡ self.now }
    {
        self.noted.as_slice()
    }

    // Adds a reading at the end, if it may come next.
    pub(crate) fn note(&mut self, reading: Reading) -> Result<(), Refusal>
        ensures answered { result ≡ answer (next_no self.old reading) tt }
        ensures ok { OnOk result (self.new ≡ self.old ++ reading ∷ []) }
        ensures err { OnErr result (self.new ≡ self.old) }
    {
        let noted = self.noted.as_slice();
        let last = noted.last().map(|reading| reading.minute);
        check_reading(noted.len(), 0, last, &reading)?;
        self.noted.push(reading).unwrap();
        Ok(())
    }
}
