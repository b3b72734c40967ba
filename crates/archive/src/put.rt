// Lines of fields, each written over a part of a file's place that is as long as the line.
ghost use Rattle.std.specs.Prelude.{◌≡◌, length};
ghost use Rattle.archive.specs.File.{edition, head_text, end_text, line};
ghost use Rattle.archive.specs.Writing.{fields_text, head_width, end_width};

use crate::figures::Head;
use digits::write_field;

const EDITION: u64 = 1;

// How long the first line of a file is and how long the last, the end byte counted.
pub(crate) const HEAD_WIDTH: usize = 49;

pub(crate) const END_WIDTH: usize = 35;

// Writes fields, each of so many digits and a figure, and the end byte behind them.
pub(crate) fn put_line(part: &mut [u8], fields: &[(usize, u64)])
    requires { length part.old ≡ length (line (fields_text fields.now)) }
    ensures { part.new ≡ line (fields_text fields.now) }
{
    // Kept so: `at` is a sum of widths and no count, and the check does not cover a slice that is lent on in a loop.
    let mut at = 0;
    for (width, figure) in fields {
        let end = at + *width;
        write_field(&mut part[at..end], *figure);
        at = end;
    }
    part[at] = b'\n';
}

pub(crate) fn put_head(part: &mut [u8], head: Head)
    requires { length part.old ≡ head_width }
    ensures { part.new ≡ line (head_text edition head) }
{
    put_line(
        part,
        &[
            (2, 0x01),
            (2, EDITION),
            (4, head.roughness),
            (6, head.misfit),
            (6, head.bend),
            (4, head.readings),
            (4, head.stiffness),
            (4, head.denominator),
            (16, head.allowance),
        ],
    );
}

pub(crate) fn put_end(part: &mut [u8], cost: u64, floor: i64)
    requires { length part.old ≡ end_width }
    ensures { part.new ≡ line (end_text cost floor) }
{
    put_line(part, &[(2, 0xFF), (16, cost), (16, floor.cast_unsigned())]);
}
