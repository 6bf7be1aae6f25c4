//! What the calls of a list answer, and what stands in the lent list and buffer after a run.

use crate::sites::{EIGHT, EIGHT_CALLS, EIGHT_ROWS, EIGHT_SHEET, EIGHT_SURVEY, OLD};
use agreement::{Answer, Call, CallRefusal, replay};
use rules::Average;
use sheet::LONGEST;
use survey::{BookFault, LineFault, Spot, SurveyFault};
use view::Refusal;
use view::listed::Listed;
use view::square::{Grid, Square};

/// What stands in an answer list before a run.
const BEFORE: Answer = Err(CallRefusal::Book(Refusal::CountsDiffer));

/// The answers to the calls that lead to the eight stations.
fn eight_answers() -> [Answer; 20] {
    std::array::from_fn(|place| {
        let refusal = match place {
            0 | 1 => Refusal::CountOutOfRange,
            4 => Refusal::AlreadyLinked { lower: 0 },
            7 => Refusal::EqualEnds { station: 3 },
            11 => Refusal::OffSite { station: 8 },
            19 => Refusal::NotLinked { lower: 5 },
            _ => return Ok(()),
        };
        Err(CallRefusal::Book(refusal))
    })
}

#[test]
fn each_call_is_answered(rt: HostRuntime) {
    let mut answers = [BEFORE; 22];
    let mut buffer = [OLD; LONGEST];
    let view = Listed::open(EIGHT);
    let run = replay(
        &EIGHT_CALLS,
        &view,
        &Average,
        &EIGHT_SHEET,
        &mut answers,
        &mut buffer,
    );
    assert!(rt; answers.starts_with(&eight_answers()));
    assert!(rt; answers.ends_with(&[BEFORE; 2]));
    assert!(rt; buffer.starts_with(&EIGHT_SHEET));
    assert_eq!(rt; buffer[56], OLD);
    let book = run.ok().map(|run| run.book);
    assert_eq!(rt; book.and_then(|book| book.number(7)), Some(1));
}

/// A list with one entry fewer than there are calls is refused, and nothing is written.
#[test]
fn a_short_list(rt: HostRuntime) {
    let mut answers = [BEFORE; 19];
    let mut buffer = [OLD; LONGEST];
    let view = Listed::open(EIGHT);
    let run = replay(
        &EIGHT_CALLS,
        &view,
        &Average,
        &EIGHT_SHEET,
        &mut answers,
        &mut buffer,
    );
    assert_eq!(rt; run.err(), Some(Refusal::BufferShort { needed: 20 }));
    assert_eq!(rt; answers, [BEFORE; 19]);
    assert!(rt; buffer == [OLD; LONGEST]);
}

/// A survey takes the place of the book. One that is refused names where, and leaves the book.
#[test]
fn surveys(rt: HostRuntime) {
    let calls = [
        Call::ReadSurvey {
            text: b"S 8 # eight",
        },
        Call::LayOut { stations: 3 },
        Call::Link { a: 0, b: 2 },
        Call::ReadSurvey { text: EIGHT_SURVEY },
        Call::ReadSurvey {
            text: b"S 2\nL 0 1 1",
        },
    ];
    let word = LineFault::WrongWord(Spot { line: 1, byte: 5 });
    let link = LineFault::Book(BookFault {
        spot: Spot { line: 2, byte: 7 },
        refusal: Refusal::AlreadyLinked { lower: 0 },
    });
    let turned_down = |fault| Err(CallRefusal::Survey(SurveyFault::Line(fault)));
    let mut answers = [BEFORE; 5];
    let mut buffer = [OLD; LONGEST];
    let view = Square::open(Grid {
        stations: 8,
        bytes: &EIGHT_ROWS,
    });
    let run = replay(
        &calls,
        &view,
        &Average,
        &EIGHT_SHEET,
        &mut answers,
        &mut buffer,
    );
    assert_eq!(rt;
        answers,
        [turned_down(word), Ok(()), Ok(()), Ok(()), turned_down(link)]
    );
    assert!(rt; buffer.starts_with(&EIGHT_SHEET));
    assert_eq!(rt; run.map(|run| run.sheet_verdict), Ok(Ok(())));
}
