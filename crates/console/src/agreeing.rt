//! The agreement of the book with a view of its own links, and what it says of a sheet that is offered.

use crate::Desk;
use agreement::{Call, replay};
use book::Book;
use commands::{Answer, BookCall, Scoring};
use rules::{Average, Paired, Rule};
use std::alloc::{AllocError, Global};
use view::View;
use view::square::{Grid, Square};

/// The bits of a station's neighbours.
fn bits_of_row(book: &Book, s: usize) -> [u8; 64] {
    let mut row = [0; 64];
    for t in book.neighbours(s) {
        if let Some(byte) = row.get_mut(t / 8) {
            *byte |= 1 << (t % 8);
        }
    }
    row
}

/// The links of a book as rows of bits.
fn bits_of(heap: Global, book: &Book) -> Result<Vec<u8>, AllocError> {
    let stations = book.stations();
    // bounded by the room, though a book has no more than 512 stations
    let length = stations.div_ceil(8).min(64);
    let mut bytes = Vec::new(heap);
    for s in 0..stations {
        bytes.extend_from_slice(&bits_of_row(book, s)[..length])?;
    }
    Ok(bytes)
}

/// The call of a book that was read.
fn call_of(call: &BookCall) -> Call<'_> {
    match call {
        BookCall::LayOut { stations } => Call::LayOut {
            stations: *stations,
        },
        BookCall::Link { a, b } => Call::Link { a: *a, b: *b },
        BookCall::Unlink { a, b } => Call::Unlink { a: *a, b: *b },
        BookCall::ReadSurvey { text } => Call::ReadSurvey {
            text: text.as_slice(),
        },
    }
}

/// Carries out all calls again, and tells what comes of them by a rule.
fn tell_replay<R: Rule>(
    rt: &HostRuntime,
    desk: &Desk,
    rule: &R,
    offered: &[u8],
) -> anyhow::Result<()> {
    let bytes = bits_of(rt.alloc(), &desk.book)?;
    let view = Square::open(Grid {
        stations: desk.book.stations(),
        bytes: bytes.as_slice(),
    });
    let calls: Vec<Call<'_>> = desk.calls.iter().map(call_of).collect(rt.alloc())?;
    let mut answers = vec![in rt.alloc(); Ok(()); calls.len()]?;
    let mut sheet = [0; sheet::LONGEST];
    let outcome = replay(&calls, &view, rule, offered, &mut answers, &mut sheet)?;
    rt.println(Answer::BookSheet(outcome.sheet_verdict))?;
    rt.println(Answer::Offered(outcome.offered_verdict))?;
    rt.println(Answer::ChosenByBoth {
        book: outcome.book_level,
        view: outcome.view_level,
    })?;
    Ok(())
}

/// Carries out all calls again, and tells what comes of them by a named rule.
pub(crate) fn tell_agreement(
    rt: &HostRuntime,
    desk: &Desk,
    scoring: Scoring,
    offered: &[u8],
) -> anyhow::Result<()> {
    match scoring {
        Scoring::Average => tell_replay(rt, desk, &Average, offered),
        Scoring::Net(net) => tell_replay(rt, desk, &net, offered),
        Scoring::AverageThenNet(net) => {
            let rule = Paired {
                first: Average,
                second: net,
            };
            tell_replay(rt, desk, &rule, offered)
        }
        Scoring::NetThenAverage(net) => {
            let rule = Paired {
                first: net,
                second: Average,
            };
            tell_replay(rt, desk, &rule, offered)
        }
    }
}
