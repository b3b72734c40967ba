// Refusals: why a call says no, and at which place.
ghost use Rattle.std.specs.Prelude.{◌≡◌};
ghost use Rattle.kinds.specs.Refusals.{number_of};
ghost use Rattle.kinds.specs.Checks.{at};

// Why a call is turned down. Text says a cause by its number, `u8::from`.
#[derive(Clone, Copy, PartialEq, Eq, Debug)]
pub enum Cause {
    // a crude value or a weight is out of range
    Figure,
    // a minute is not lawful
    Minute,
    // there is no such place
    Place,
    // stiffness, allowance, rise or fall is out of range
    Setting,
    // a list has the wrong length, or a place is too short
    Length,
    // a value is out of range
    Value,
    // the denominator is not 1 to 1,000
    Denominator,
    // a multiplier is not an allowed slope
    Multiplier,
    // a column is not allowed
    Column,
    // the place that a file is to stand in is too short
    Room,
    // more than 240 readings
    Full,
    // growth above 2,000, or a steepness above 100
    Steep,
    // no more readings than the reach
    Short,
    // the gap is above the allowance
    Gap,
    // a line is broken
    Line,
    // a frame is out of order, of a wrong length, or has a wrong number or place
    Frame,
    // the edition or a mark differs
    Mark,
    // cost or floor differs from the one that is stated
    Stated,
}

// A cause and the place that it names, 0 where it names none.
// Kept so: text says a place with every cause, and the definitions say which causes name none.
#[derive(Clone, Copy, PartialEq, Eq, Debug)]
pub struct Refusal {
    pub cause: Cause,
    pub place: usize,
}

impl From<Cause> for u8 {
    ghost from_gives = { λ cause number. number ≡ number_of cause };

    fn from(cause: Cause) -> u8 {
        match cause {
            Cause::Figure => 1,
            Cause::Minute => 2,
            Cause::Place => 3,
            Cause::Setting => 4,
            Cause::Length => 5,
            Cause::Value => 6,
            Cause::Denominator => 7,
            Cause::Multiplier => 8,
            Cause::Column => 9,
            Cause::Room => 10,
            Cause::Full => 11,
            Cause::Steep => 12,
            Cause::Short => 13,
            Cause::Gap => 16,
            Cause::Line => 17,
            Cause::Frame => 18,
            Cause::Mark => 19,
            Cause::Stated => 20,
        }
    }
}

// A cause that names no place.
impl From<Cause> for Refusal {
    ghost from_gives = { λ cause refusal. refusal ≡ at cause 0 };

    fn from(cause: Cause) -> Refusal {
        Refusal { cause, place: 0 }
    }
}
