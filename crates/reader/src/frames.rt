// The second layer: the frames, with their fields as parts of the file.
ghost use Rattle.std.specs.Prelude.{◌≡◌, MatchResult};
ghost use Rattle.kinds.specs.declared.refusal.Cause.{Cause};
ghost use Rattle.reader.specs.Faults.{found_by};
ghost use Rattle.reader.specs.declared.fault.Layer.{Layer};
ghost use Rattle.reader.specs.Lines.{Good};
ghost use Rattle.reader.specs.Shapes.{frame_text, NoFrame};

use crate::fault::Fault;
use crate::values::{Digits, Rest};

// The fields of a head, each a part of its line.
#[derive(Clone, Copy)]
pub(crate) struct HeadFields<'a> {
    pub edition: Digits<'a, 2>,
    pub roughness: Digits<'a, 4>,
    pub misfit: Digits<'a, 6>,
    pub bend: Digits<'a, 6>,
    pub readings: Digits<'a, 4>,
    pub stiffness: Digits<'a, 4>,
    pub denominator: Digits<'a, 4>,
    pub allowance: Digits<'a, 16>,
}

// A frame; each field is a part of its line.
#[derive(Clone, Copy)]
pub(crate) enum Frame<'a> {
    Head(HeadFields<'a>),
    Reading {
        place: Digits<'a, 4>,
        minute: Digits<'a, 8>,
        crude: Digits<'a, 4>,
        weight: Digits<'a, 4>,
    },
    Entry {
        place: Digits<'a, 4>,
        value: Digits<'a, 4>,
    },
    Multiplier {
        place: Digits<'a, 4>,
        value: Digits<'a, 8>,
    },
    End {
        cost: Digits<'a, 16>,
        floor: Digits<'a, 16>,
    },
}

// The frame that a line is, by its leading pair and how many digits follow.
pub(crate) fn read_frame<'a>(line: &'a [u8], at: usize) -> Result<Frame<'a>, Fault>
    requires { Good line.now }
    ensures { MatchResult result (λ f. line.now ≡ frame_text f) (λ e. (e ≡ found_by Layer.Frames Cause.Frame at) × NoFrame line.now) }
{
    let [a, b, rest @ ..] = line else {
        return Err(Fault::disorder(at));
    };
    let size = rest.len();
    let mut rest = Rest { bytes: rest };
    match (*a, *b, size) {
        (b'0', b'1', 46) => Ok(Frame::Head(HeadFields {
            edition: rest.field(),
            roughness: rest.field(),
            misfit: rest.field(),
            bend: rest.field(),
            readings: rest.field(),
            stiffness: rest.field(),
            denominator: rest.field(),
            allowance: rest.field(),
        })),
        (b'0', b'2', 20) => Ok(Frame::Reading {
            place: rest.field(),
            minute: rest.field(),
            crude: rest.field(),
            weight: rest.field(),
        }),
        (b'0', b'3', 8) => Ok(Frame::Entry {
            place: rest.field(),
            value: rest.field(),
        }),
        (b'0', b'4', 12) => Ok(Frame::Multiplier {
            place: rest.field(),
            value: rest.field(),
        }),
        (b'F', b'F', 32) => Ok(Frame::End {
            cost: rest.field(),
            floor: rest.field(),
        }),
        _ => Err(Fault::disorder(at)),
    }
}
