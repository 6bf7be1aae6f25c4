//! What holds of every book.

ghost use Rattle.book.specs.Laws.{BooksKeepTheirLimits};

/// A book holds a lawful site of at most 512 stations, with at most 32 links each.
pub fn books_keep_their_limits()
    ensures { BooksKeepTheirLimits }
{}
