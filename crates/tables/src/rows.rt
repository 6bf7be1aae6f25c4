//! Reads a table row by row.

ghost use Rattle.std.specs.Prelude.{◌≡◌, ◌+◌, ◌≤◌, true, [], ◌∷◌, length, Err, vec_len};
ghost use Rattle.text.specs.Texts.{lines};
ghost use Rattle.text.specs.Cursors.{part_of};
ghost use Rattle.view.specs.Listing.{lists};
ghost use Rattle.tables.specs.declared.fault.Unread.TheVariants.{TooLong};
ghost use Rattle.tables.specs.Listings.{station_of, rows_of, listed, is_too_long, table_of};
ghost use Rattle.tables.specs.Answered.{listing_of, giving, Meant, with_rows};

use crate::fault::Unread;
use std::alloc::Global;
use text::{Lines, Token, Tokens, decimal};
use view::listed::Listing;

/// The longest text that is read, in bytes.
const LONGEST: usize = 1_000_000;

/// The ends of the links of all stations, and where those of each station start: the form that the rules give a listed
/// table.
#[derive(Debug, Drop)]
pub struct Table {
    starts: Vec<u32>,
    ends: Vec<u16>,
}

impl Table {
    /// The two lists of the table.
    pub fn listing(&self) -> Listing<'_, '_>
        ensures { lists result ≡ listing_of self.now }
    {
        Listing {
            starts: self.starts.as_slice(),
            ends: self.ends.as_slice(),
        }
    }

    /// Adds the row of the `n`-th line.
    fn add_row(&mut self, line: &[u8], n: usize) -> Result<(), Unread>
        requires { vec_len self.old.ends + length line.now ≤ 1000000 }
        ensures row { Meant (with_rows (listing_of self.old) (rows_of n (line.now ∷ []))) (giving (λ _. listing_of self.new) result) }
        ensures few { vec_len self.new.ends ≤ vec_len self.old.ends + length line.now }
    {
        for token in Tokens::new(line) {
            self.ends.push(station(token, n)?)?;
        }
        // proved to fit, as there are at most a million; `try_from` would want a fault that never comes
        self.starts.push(self.ends.len() as u32)?;
        Ok(())
    }
}

/// The station that a word of the `n`-th line names.
fn station(token: Token, n: usize) -> Result<u16, Unread>
    ensures { Meant (station_of n (part_of token.entry)) result }
{
    decimal(token.bytes, 5).ok_or(Unread::NotAStation {
        line: n,
        byte: token.byte,
    })
}

/// The table of the rows of a text.
fn read_rows(heap: Global, text: &[u8]) -> Result<Table, Unread>
    requires { length text.now ≤ 1000000 }
    ensures { Meant (listed (rows_of 1 (lines text.now))) (giving listing_of result) }
{
    let mut table = Table {
        starts: vec![in heap; 0]?,
        ends: Vec::new(heap),
    };
    for (i, line) in Lines::new(text).enumerate() {
        table.add_row(line, i + 1)?;
    }
    Ok(table)
}

/// The table that a text of at most a million bytes writes; its first line is that of station 0.
pub fn read(heap: Global, text: &[u8]) -> Result<Table, Unread>
    ensures table { Meant (table_of text.now) (giving listing_of result) }
    ensures too_long { is_too_long text.now ≡ true → result ≡ Err TooLong }
{
    if text.len() > LONGEST {
        return Err(Unread::TooLong);
    }
    read_rows(heap, text)
}
