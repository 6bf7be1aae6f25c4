//! Sites to begin with.

use book::{Book, Refusal};

/// A group of four, a group of three linked to it, and a last one.
const EIGHT: [(usize, usize); 11] = [
    (0, 1),
    (0, 2),
    (0, 3),
    (1, 2),
    (1, 3),
    (2, 3),
    (3, 4),
    (4, 5),
    (4, 6),
    (5, 6),
    (6, 7),
];

/// The book of the eight stations, with each link set from its lower end or from its higher.
pub(crate) fn eight(from_lower: bool) -> Result<Book, Refusal> {
    let mut book = Book::new();
    book.lay_out(8)?;
    for (low, high) in EIGHT {
        if from_lower {
            book.link(low, high)?;
        } else {
            book.link(high, low)?;
        }
    }
    Ok(book)
}

/// The numbers that a book tells of its first eight stations.
pub(crate) fn numbers(book: &Book) -> [Option<u16>; 8] {
    let mut told = [None; 8];
    for s in 0..8 {
        told[s] = book.number(s);
    }
    told
}
