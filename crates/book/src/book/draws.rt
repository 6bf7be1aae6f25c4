//! The sheet of a book.

use super::Book;
use crate::Refusal;
use drawer::draw;

impl Book {
    ghost use Rattle.std.specs.Prelude.{◌≡◌, length};
    ghost use Rattle.view.specs.Answers.{answer, left_in};
    ghost use Rattle.sheet.specs.Sites.{sheet_of};
    ghost use Rattle.drawer.specs.Calls.{written_for};
    ghost use Rattle.book.specs.Books.{site};

    /// Writes the sheet of the site to a buffer. Answers its length, which is how many bytes are written.
    pub fn write_out(&self, out: &mut [u8]) -> Result<usize, Refusal>
        ensures answer { let g = site self.now in
            result ≡ answer length (written_for g (length out.old) (sheet_of g)) }
        ensures out { let g = site self.now in
            out.new ≡ left_in (λ bytes. bytes) (written_for g (length out.old) (sheet_of g)) out.old }
    {
        draw(self, out)
    }
}
