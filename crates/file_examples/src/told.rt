// How answers of the judge are told: any numbers, and lines that are kept and handed on.
use catalogue::answer::{AnswerLine, answer_line, judge_line};
use reader::fault::Fault;

// A line beside something else, as a caller keeps it.
#[derive(Clone, Copy)]
struct Kept {
    line: AnswerLine,
}

fn twice(kept: Kept) -> (Kept, Kept) {
    (kept, kept)
}

#[test]
fn a_number_that_no_fault_has_is_told_as_it_is(rt: HostRuntime) {
    let strange = Fault {
        layer: 9,
        number: 200,
        line: 5,
    };
    assert_eq!(rt;
        answer_line(&Err(strange)).text(),
        b"EE09C80005\n".as_slice()
    );
}

#[test]
fn a_line_that_is_kept_can_be_used_twice(rt: HostRuntime) {
    let (one, other) = twice(Kept {
        line: judge_line(b""),
    });
    assert_eq!(rt; one.line.text(), b"EE01110001\n".as_slice());
    assert_eq!(rt; other.line.text(), b"EE01110001\n".as_slice());
}
