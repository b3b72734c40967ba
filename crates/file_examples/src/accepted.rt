// The file of a small firing: written, judged, and asked place by place.
use archive::figures::{Figures, Head};
use archive::file::write_file;
use kinds::reading::Reading;
use kinds::refusal::{Cause, Refusal};
use objective::trio::Kinds;
use penalties::absolute::Absolute;
use reader::fault::{Fault, Layer};
use roughness::first::First;
use roughness::raise::Raise;
use std::test::Fail;
use verdict::accepted::{entry, multiplier, reading};
use verdict::judge::judge;

const FIRING: [Reading; 3] = [
    Reading {
        minute: 0,
        crude: 100,
        weight: 1,
    },
    Reading {
        minute: 1,
        crude: 120,
        weight: 1,
    },
    Reading {
        minute: 2,
        crude: 110,
        weight: 1,
    },
];

const HEAD: Head = Head {
    roughness: 258,
    misfit: 0,
    bend: 0,
    readings: 3,
    stiffness: 1,
    denominator: 2,
    allowance: 0,
};

const FIGURES: Figures<'static> = Figures {
    head: HEAD,
    readings: &FIRING,
    entries: &[100, 105, 110],
    multipliers: &[-1],
    cost: 15,
    floor: 30,
};

// Kept so: a constant's value cannot call `into`.
const PAST: Refusal = Refusal {
    cause: Cause::Place,
    place: 0,
};

fn over<R>(roughness: R) -> Kinds<R, Absolute, Absolute> {
    Kinds {
        roughness,
        misfit: Absolute,
        bend: Absolute,
    }
}

// What the judge says of bytes under second differences: nothing, or the fault.
fn second_order(file: &[u8]) -> Option<Fault> {
    judge(&over(Raise { below: First }), file).err()
}

#[test]
fn it_is_written_and_accepted(rt: HostRuntime) -> Result<(), Fail> {
    let mut place = [7; 203];
    assert_eq!(rt; write_file(&mut place, &FIGURES), Ok(201));
    assert_eq!(rt; place[200], 10);
    assert_eq!(rt; place[201], 7);
    let Ok(contents) = judge(&over(Raise { below: First }), &place[0..201]) else {
        return Err(Fail::new("the file is refused"));
    };
    assert_eq!(rt; contents.head.readings, 3);
    assert_eq!(rt; contents.head.denominator, 2);
    assert_eq!(rt; contents.cost, 15);
    assert_eq!(rt; contents.floor, 30);
    assert_eq!(rt; reading(&contents, 1), Ok(FIRING[1]));
    assert_eq!(rt; reading(&contents, 3), Err(PAST));
    assert_eq!(rt; entry(&contents, 1), Ok(105));
    assert_eq!(rt; entry(&contents, 3), Err(PAST));
    assert_eq!(rt; multiplier(&contents, 0), Ok(-1));
    assert_eq!(rt; multiplier(&contents, 1), Err(PAST));
    Ok(())
}

#[test]
fn a_refused_file_leaves_the_place(rt: HostRuntime) {
    let mut place = [7; 201];
    let short = Figures {
        readings: &FIRING[0..2],
        ..FIGURES
    };
    assert_eq!(rt; write_file(&mut place, &short), Err(Cause::Frame));
    let large = Figures {
        entries: &[100, 65_536, 110],
        ..FIGURES
    };
    assert_eq!(rt; write_file(&mut place, &large), Err(Cause::Value));
    assert_eq!(rt; write_file(&mut place[0..200], &FIGURES), Err(Cause::Room));
    assert_eq!(rt; place[0], 7);
    assert_eq!(rt; place[200], 7);
}

// A growth of 2,048: every file is turned down, before it is looked at.
#[test]
fn too_steep_comes_first(rt: HostRuntime) {
    let twice = Raise {
        below: Raise { below: First },
    };
    let five = Raise {
        below: Raise {
            below: Raise { below: twice },
        },
    };
    let ten = Raise {
        below: Raise {
            below: Raise {
                below: Raise {
                    below: Raise { below: five },
                },
            },
        },
    };
    let steep = Fault {
        layer: 3,
        number: 12,
        line: 0,
    };
    assert_eq!(rt; judge(&over(ten), b"").err(), Some(steep));
    assert_eq!(rt; judge(&over(ten), b"no file").err(), Some(steep));
    assert_eq!(rt; steep, Fault::found_by(Layer::Figures, Cause::Steep, 0));
    let empty = Fault {
        layer: 1,
        number: 17,
        line: 1,
    };
    assert_eq!(rt; second_order(b""), Some(empty));
    assert_eq!(rt; empty, Fault::found_by(Layer::Lines, Cause::Line, 1));
}
