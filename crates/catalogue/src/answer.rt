// The line that tells an answer of the judge.
ghost use Rattle.std.specs.Prelude.{◌≡◌, ◌+◌, ◌≤◌, [], ◌++◌, length, take};
ghost use Rattle.digits.specs.Fields.{field};
ghost use Rattle.archive.specs.File.{line};
ghost use Rattle.catalogue.specs.Told.{accepted_text, refused_text, answer_line, LineTold};

use crate::head::judge_head;
use digits::write_field;
use reader::contents::Contents;
use reader::fault::Fault;

// The longest line has 42 digits and its end byte.
const LONGEST: usize = 43;

// A line of up to 43 bytes, those before `count`.
// Kept so: no `impl Model`, since a `Copy` struct that holds one cannot be used twice as it is.
#[derive(Clone, Copy)]
pub struct AnswerLine {
    bytes: [u8; LONGEST],
    count: usize,
    ghost room: { length bytes ≡ 43 },
    ghost within: { count ≤ 43 },
}

impl AnswerLine {
    fn new() -> AnswerLine
        ensures count { result.count ≡ 0 }
        ensures text { take result.count result.bytes ≡ [] }
    {
        AnswerLine {
            bytes: [0; LONGEST],
            count: 0,
        }
    }

    fn with(self, part: &[u8]) -> AnswerLine
        requires { self.count + length part.now ≤ 43 }
        ensures count { result.count ≡ self.count + length part.now }
        ensures text { take result.count result.bytes ≡ take self.count self.bytes ++ part.now }
    {
        let mut bytes = self.bytes;
        let count = self.count + part.len();
        bytes[self.count..count].copy_from_slice(part);
        AnswerLine { bytes, count }
    }

    fn with_field<const WIDTH: usize>(self, figure: u64) -> AnswerLine
        requires { self.count + WIDTH ≤ 43 }
        ensures count { result.count ≡ self.count + WIDTH }
        ensures text { take result.count result.bytes ≡ take self.count self.bytes ++ field WIDTH figure }
    {
        let mut digits = [0; WIDTH];
        write_field(&mut digits, figure);
        self.with(&digits)
    }

    // The bytes of the line, its end byte last.
    pub fn text(&self) -> &[u8]
        ensures text { result.now ≡ take self.now.count self.now.bytes }
        ensures within { length result.now ≤ 43 }
    {
        &self.bytes[0..self.count]
    }
}

fn accepted_line(contents: &Contents) -> AnswerLine
    ensures { take result.count result.bytes ≡ line (accepted_text contents.now) }
{
    AnswerLine::new()
        .with(b"AA")
        .with_field::<4>(contents.head.readings)
        .with_field::<4>(contents.head.denominator)
        .with_field::<16>(contents.cost)
        .with_field::<16>(contents.floor.cast_unsigned())
        .with(b"\n")
}

fn refused_line(fault: &Fault) -> AnswerLine
    ensures { take result.count result.bytes ≡ line (refused_text fault.now) }
{
    AnswerLine::new()
        .with(b"EE")
        .with_field::<2>(fault.layer.into())
        .with_field::<2>(fault.number.into())
        .with_field::<4>(fault.line.into())
        .with(b"\n")
}

// The line that tells an answer, with its end byte.
pub fn answer_line(answer: &Result<Contents, Fault>) -> AnswerLine
    ensures { take result.count result.bytes ≡ answer_line answer.now }
{
    match answer {
        Ok(contents) => accepted_line(contents),
        Err(fault) => refused_line(fault),
    }
}

// The line that `judge` prints for a file.
pub fn judge_line(file: &[u8]) -> AnswerLine
    ensures { LineTold file.now (take result.count result.bytes) }
{
    answer_line(&judge_head(file))
}
