// Judges a file under the kinds that its own head names.
ghost use Rattle.catalogue.specs.Judged.{JudgedByHead};

use crate::marks::{Marks, judge_marks};
use reader::contents::Contents;
use reader::fault::Fault;
use reader::read::read_file;

// What the file carries, or the fault for which it is turned down, under the marks in its head.
pub fn judge_head(file: &[u8]) -> Result<Contents, Fault>
    ensures { JudgedByHead file.now result }
{
    match Marks::in_head(file) {
        Some(marks) => judge_marks(marks, file),
        None => read_file(file, None),
    }
}
