// Reads a whole file: first its lines, then its frames.
ghost use Rattle.reader.specs.Lines.{Whole};
ghost use Rattle.reader.specs.Order.{FramesRead};
ghost use Rattle.reader.specs.Readable.{ReadAs, ComesBack};

use crate::contents::{Contents, Wanted};
use crate::fault::Fault;
use crate::frames::read_frame;
use crate::lines::{Lines, check_lines};
use crate::machine::Machine;
use crate::stage::Stage;

// The frames of a file whose lines are good.
fn read_frames(file: &[u8], wanted: Option<Wanted>) -> Result<Contents, Fault>
    requires { Whole file.now }
    ensures { FramesRead wanted file.now result }
{
    // in good lines all bytes are known
    let mut lines = Lines::new(file, true);
    let mut machine = Machine::new();
    while let Some(line) = lines.next_line()? {
        let frame = read_frame(line, lines.taken)?;
        machine.step(wanted, frame, lines.taken)?;
    }
    match machine.stage {
        Stage::Nothing => Ok(machine.contents),
        _ => Err(Fault::disorder(lines.taken + 1)),
    }
}

// The figures of a file with the marks that are wanted. Where none are wanted, no file has them.
pub fn read_file(file: &[u8], wanted: Option<Wanted>) -> Result<Contents, Fault>
    ensures answered { ReadAs wanted file.now result }
    ensures back { ComesBack wanted file.now result }
{
    check_lines(file)?;
    read_frames(file, wanted)
}
