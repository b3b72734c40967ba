// A firing that is being read: what is given, and what was weighed last under it.
ghost use Rattle.std.specs.Prelude.{◌≡◌, ◌-◌, length, OnOk, OnErr};
ghost use Rattle.kinds.specs.Checks.{answer};
ghost use Rattle.kinds.specs.Roughness.{told_reach};
ghost use Rattle.objective.specs.Checks.{settings_no};
ghost use Rattle.objective.specs.Promises.{WeighsTable, WeighsMultipliers};
ghost use Rattle.weigh.specs.Firings.{fresh, gap_told_over, firing_gap, with_settings, with_reading};
ghost use Rattle.weigh.specs.Steps.{next_no};
ghost use Rattle.weigh.specs.Named.{meaning_of};
ghost use Rattle.weigh.specs.Answered.{done, told_result, said, table_answer, table_leaves, multipliers_answer, multipliers_leave};

use crate::answer::{Answer, No};
use crate::readings::Readings;
use kinds::reading::Reading;
use kinds::refusal::Refusal;
use kinds::roughness::Roughness;
use known::trio::KnownKinds;
use objective::checks::check_settings;
use objective::gap::{Gap, gap_between};
use objective::weigh::{weigh_multipliers, weigh_table};

// What a table and multipliers are weighed under.
#[derive(Drop)]
pub struct Given {
    kinds: KnownKinds,
    stiffness: i64,
    allowance: i64,
    readings: Readings,
}

// The floor of multipliers, with their denominator.
#[derive(Clone, Copy, PartialEq, Eq, Debug)]
pub struct Floor {
    value: i64,
    denominator: i64,
}

// What was weighed last.
#[derive(Clone, Copy, PartialEq, Eq, Debug, Default)]
pub struct Weighed {
    cost: Option<u64>,
    floor: Option<Floor>,
}

// A gap, over the denominator that it was multiplied by.
#[derive(Clone, Copy, PartialEq, Eq, Debug)]
pub struct GapOver {
    pub gap: Gap,
    pub denominator: i64,
}

impl Floor {
    // How far a cost lies above this floor.
    fn gap(&self, cost: u64, allowance: i64) -> Option<GapOver>
        ensures { result ≡ gap_told_over self.now cost allowance }
    {
        let denominator = self.denominator;
        let gap = gap_between(cost, self.value, denominator, allowance).ok()?;
        Some(GapOver { gap, denominator })
    }
}

#[derive(Drop)]
pub struct Firing {
    given: Given,
    weighed: Weighed,
}

impl Given {
    // The cost of a table, with its rows at the start of `place`.
    fn cost(&self, values: &[i64], place: &mut [i64]) -> Result<u64, Refusal>
        ensures { WeighsTable (meaning_of self.now.kinds) self.now.stiffness self.now.readings values.now place.old place.new result }
    {
        weigh_table(
            &self.kinds,
            self.stiffness,
            self.readings.as_slice(),
            values,
            place,
        )
    }

    // The floor of multipliers, with their columns at the start of `place`.
    fn floor(
        &self,
        denominator: i64,
        multipliers: &[i64],
        place: &mut [i64],
    ) -> Result<i64, Refusal>
        ensures { WeighsMultipliers (meaning_of self.now.kinds) self.now.stiffness self.now.readings denominator multipliers.now place.old place.new result }
    {
        weigh_multipliers(
            &self.kinds,
            self.stiffness,
            self.readings.as_slice(),
            denominator,
            multipliers,
            place,
        )
    }

    // How many columns multipliers have.
    fn columns(&self) -> usize
        ensures { result ≡ length self.now.readings }
    {
        self.readings.as_slice().len()
    }

    // How many rows a table has.
    fn rows(&self) -> usize
        ensures { result ≡ length self.now.readings - told_reach (meaning_of self.now.kinds).roughness }
    {
        self.columns().saturating_sub(self.kinds.roughness.reach())
    }
}

impl Firing {
    pub(crate) fn new(kinds: KnownKinds) -> Firing
        ensures { result ≡ fresh kinds }
    {
        Firing {
            given: Given {
                kinds,
                stiffness: 1,
                allowance: 0,
                readings: Readings::new(),
            },
            weighed: Weighed::default(),
        }
    }

    // Other settings make what was weighed worthless.
    pub(crate) fn set<'a>(&mut self, stiffness: i64, allowance: i64) -> Result<Answer<'a>, No>
        ensures answered { told_result result ≡ said (settings_no stiffness allowance) done }
        ensures ok { OnOk result (self.new ≡ with_settings self.old stiffness allowance) }
        ensures err { OnErr result (self.new ≡ self.old) }
    {
        check_settings(stiffness, allowance)?;
        self.given.stiffness = stiffness;
        self.given.allowance = allowance;
        self.weighed = Weighed::default();
        Ok(Answer::Done)
    }

    // And so does one reading more.
    pub(crate) fn note<'a>(&mut self, reading: Reading) -> Result<Answer<'a>, No>
        ensures answered { told_result result ≡ said (next_no self.old.given.readings reading) done }
        ensures ok { OnOk result (self.new ≡ with_reading self.old reading) }
        ensures err { OnErr result (self.new ≡ self.old) }
    {
        self.given.readings.note(reading)?;
        self.weighed = Weighed::default();
        Ok(Answer::Done)
    }

    // Weighs a table and keeps its cost. The rows stand at the start of `place`.
    // Kept so: `multipliers` has the same three steps, but it weighs, keeps and answers something else at each.
    pub(crate) fn table<'a>(
        &mut self,
        values: &[i64],
        place: &'a mut [i64],
    ) -> Result<Answer<'a>, No>
        ensures answered { told_result result ≡ table_answer self.old values.now (length place.old) }
        ensures ok { OnOk result (self.new ≡ table_leaves self.old values.now) }
        ensures err { OnErr result (self.new ≡ self.old) }
    {
        let cost = self.given.cost(values, place)?;
        self.weighed.cost = Some(cost);
        Ok(Answer::Table {
            cost,
            rows: &place[..self.given.rows()],
        })
    }

    // Weighs multipliers and keeps their floor. The columns stand at the start of `place`.
    pub(crate) fn multipliers<'a>(
        &mut self,
        denominator: i64,
        multipliers: &[i64],
        place: &'a mut [i64],
    ) -> Result<Answer<'a>, No>
        ensures answered { told_result result ≡ multipliers_answer self.old denominator multipliers.now (length place.old) }
        ensures ok { OnOk result (self.new ≡ multipliers_leave self.old denominator multipliers.now) }
        ensures err { OnErr result (self.new ≡ self.old) }
    {
        let floor = self.given.floor(denominator, multipliers, place)?;
        self.weighed.floor = Some(Floor {
            value: floor,
            denominator,
        });
        Ok(Answer::Multipliers {
            floor,
            columns: &place[..self.given.columns()],
        })
    }

    // The gap between the table and the multipliers that were weighed last, once both are there.
    pub(crate) fn gap(&self) -> Option<GapOver>
        ensures { result ≡ firing_gap self.now }
    {
        let cost = self.weighed.cost?;
        self.weighed.floor?.gap(cost, self.given.allowance)
    }
}
