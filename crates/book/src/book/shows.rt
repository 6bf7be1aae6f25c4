//! A book is a view, and tells numbers.

use super::Book;
use crate::View;

impl Book {
    ghost use Rattle.std.specs.Prelude.{◌≡◌};
    ghost use Rattle.book.specs.Books.{site};
    ghost use Rattle.book.specs.Answers.{number_answer};

    /// The core number of a station, or none if it is not on the site.
    pub fn number(&self, s: usize) -> Option<u16>
        ensures { result ≡ number_answer (site self.now) s }
    {
        (s < self.table.count()).then_some(self.table.number(s))
    }
}

impl View for Book {
    ghost use Rattle.book.specs.Books.{site as site_in, row_in};

    ghost site = { site_in };

    ghost row = { row_in };

    ghost faithful = { λ book. book.current.sound.faithful };

    fn stations(&self) -> usize {
        self.table.count()
    }

    fn degree(&self, s: usize) -> usize {
        self.table.row(s).len()
    }

    fn neighbour(&self, s: usize, place: usize) -> Option<usize> {
        self.table.row(s).get(place).map(|t| usize::from(*t))
    }
}
