// The judge with its answer in one number, as callers in C get it.
ghost use Rattle.std.specs.Prelude.{◌≡◌};
ghost use Rattle.catalogue.specs.Told.{packed, Tells};

use crate::marks::{Marks, judge_marks};
use reader::contents::Contents;
use reader::fault::Fault;

// Kept so: no `From`, since neither a number nor a `Result` is this crate's; C wants one number.
// The answer in one number: 0, or the bytes of a fault: its layer, its number and the two of its line.
fn pack(answer: &Result<Contents, Fault>) -> u32
    ensures { result ≡ packed answer.now }
{
    match answer {
        Ok(_) => 0,
        Err(fault) => {
            let [high, low] = fault.line.to_be_bytes();
            u32::from_be_bytes([fault.layer, fault.number, high, low])
        }
    }
}

// What `judge_marks` answers, in one number.
pub fn judge_packed(marks: Marks, file: &[u8]) -> u32
    ensures { Tells marks file.now result }
{
    pack(&judge_marks(marks, file))
}
