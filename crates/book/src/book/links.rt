//! Links set and taken away.

use super::Book;
use crate::Refusal;

impl Book {
    ghost use Rattle.std.specs.Prelude.{◌≡◌, true, is_err, Ok};
    ghost use Rattle.cores.specs.Links.{joined, parted, MovesUp, MovesDown};
    ghost use Rattle.book.specs.Books.{site};
    ghost use Rattle.book.specs.Answers.{after, ends_judged, full, link_answer, unlink_answer};

    /// Judges the ends of a link.
    fn check_ends(&self, a: usize, b: usize) -> Result<(), Refusal>
        ensures { result ≡ ends_judged (site self.now) a b (Ok tt) }
    {
        let stations = self.table.count();
        if stations == 0 {
            return Err(Refusal::CountOutOfRange);
        }
        if stations <= a {
            return Err(Refusal::OffSite { station: a });
        }
        if stations <= b {
            return Err(Refusal::OffSite { station: b });
        }
        if a == b {
            return Err(Refusal::EqualEnds { station: a });
        }
        Ok(())
    }

    /// Whether a station has as many links as it can have.
    fn is_full(&self, s: usize) -> bool
        ensures { result ≡ full (site self.now) s }
    {
        32 <= self.table.row(s).len()
    }

    /// Judges a new link.
    fn check_link(&self, a: usize, b: usize) -> Result<(), Refusal>
        ensures { result ≡ link_answer (site self.now) a b }
    {
        self.check_ends(a, b)?;
        if self.table.lists(a, b) {
            return Err(Refusal::AlreadyLinked { lower: a.min(b) });
        }
        if self.is_full(a) {
            return Err(Refusal::RowFull { station: a });
        }
        if self.is_full(b) {
            return Err(Refusal::RowFull { station: b });
        }
        Ok(())
    }

    /// Judges a link that is to be taken away.
    fn check_unlink(&self, a: usize, b: usize) -> Result<(), Refusal>
        ensures { result ≡ unlink_answer (site self.now) a b }
    {
        self.check_ends(a, b)?;
        if !self.table.lists(a, b) {
            return Err(Refusal::NotLinked { lower: a.min(b) });
        }
        Ok(())
    }

    /// Sets the link between two stations, in either order. Whoever moves had the smaller number of the two, goes up by
    /// one, and hangs on an end that moves.
    pub fn link(&mut self, a: usize, b: usize) -> Result<(), Refusal>
        ensures answer { result ≡ link_answer (site self.old) a b }
        ensures site { let g = site self.old in site self.new ≡ after (link_answer g a b) (joined g a b) g }
        ensures unaltered { is_err result ≡ true → self.new ≡ self.old }
        ensures moves { MovesUp (site self.old) (site self.new) a b }
    {
        self.check_link(a, b)?;
        self.table.join(a, b);
        Ok(())
    }

    /// Takes away the link between two stations, in either order. Whoever moves had the smaller number of the two, goes
    /// down by one, and hangs on an end that moves.
    pub fn unlink(&mut self, a: usize, b: usize) -> Result<(), Refusal>
        ensures answer { result ≡ unlink_answer (site self.old) a b }
        ensures site { let g = site self.old in site self.new ≡ after (unlink_answer g a b) (parted g a b) g }
        ensures unaltered { is_err result ≡ true → self.new ≡ self.old }
        ensures moves { MovesDown (site self.old) (site self.new) a b }
    {
        self.check_unlink(a, b)?;
        self.table.part(a, b);
        Ok(())
    }
}
