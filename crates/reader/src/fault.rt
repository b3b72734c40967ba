// A fault of a file: why it is turned down, and where.
ghost use Rattle.std.specs.Prelude.{◌≡◌};
ghost use Rattle.reader.specs.Faults.{fault, found_by};

use kinds::refusal::Cause;

// The layer that finds a fault. Text and C say it by the number that `u8::from` gives.
#[derive(Clone, Copy, PartialEq, Eq, Debug)]
pub enum Layer {
    Lines,
    Frames,
    // also the kinds, which are checked before the file
    Figures,
}

impl From<Layer> for u8 {
    ghost use Rattle.std.specs.Prelude.{◌≡◌};
    ghost use Rattle.reader.specs.Faults.{layer_number};

    ghost from_gives = { λ layer number. number ≡ layer_number layer };

    fn from(layer: Layer) -> u8 {
        match layer {
            Layer::Lines => 1,
            Layer::Frames => 2,
            Layer::Figures => 3,
        }
    }
}

// A fault in the numbers by which text and C tell it: any can be told, also one that no layer or cause has.
#[derive(Clone, Copy, PartialEq, Eq, Debug)]
pub struct Fault {
    // 1 the lines, 2 the frames, 3 the figures
    pub layer: u8,
    // the number of the cause
    pub number: u8,
    // counted from 1, 65,535 if larger; 0 where the fault is in no line
    pub line: u16,
}

impl Fault {
    pub fn new(layer: u8, cause: Cause, line: usize) -> Fault
        ensures { result ≡ fault layer cause line }
    {
        let line = u16::try_from(line).unwrap_or(u16::MAX);
        let number = cause.into();
        Fault {
            layer,
            number,
            line,
        }
    }

    // A fault that one of the three layers finds.
    pub fn found_by(layer: Layer, cause: Cause, line: usize) -> Fault
        ensures { result ≡ found_by layer cause line }
    {
        Fault::new(layer.into(), cause, line)
    }

    // A line that is no frame, or not the one that has to come.
    pub(crate) fn disorder(line: usize) -> Fault
        ensures { result ≡ found_by Layer.Frames Cause.Frame line }
    {
        Fault::found_by(Layer::Frames, Cause::Frame, line)
    }
}
