//! The book of a site.

ghost use Rattle.book.specs.Current.{Current};

use crate::table::Table;

mod draws;
mod links;
mod opens;
mod shows;

/// A site, and the number of each of its stations.
#[derive(Drop)]
pub struct Book {
    table: Table,
    ghost current: { Current table },
}
