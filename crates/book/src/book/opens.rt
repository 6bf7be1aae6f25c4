//! Books without links.

use super::Book;
use crate::Refusal;
use crate::table::Table;
use view::counts::admit;

impl Book {
    ghost use Rattle.std.specs.Prelude.{◌≡◌, true, is_err};
    ghost use Rattle.cores.specs.Site.{laid_out, no_stations};
    ghost use Rattle.view.specs.Answers.{counted};
    ghost use Rattle.book.specs.Books.{site};
    ghost use Rattle.book.specs.Answers.{after};

    /// The book of a site without stations.
    pub fn new() -> Book
        ensures { site result ≡ no_stations }
    {
        Book {
            table: Table::laid_out(0),
        }
    }

    /// Begins the book anew, for a site of so many stations and no links.
    pub fn lay_out(&mut self, stations: usize) -> Result<(), Refusal>
        ensures answer { result ≡ counted stations }
        ensures site { site self.new ≡ after (counted stations) (laid_out stations) (site self.old) }
        ensures unaltered { is_err result ≡ true → self.new ≡ self.old }
    {
        admit(stations)?;
        *self = Book {
            table: Table::laid_out(stations),
        };
        Ok(())
    }
}
