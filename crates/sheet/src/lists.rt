//! The stations and the order of a sheet, one after the other.

ghost use Rattle.std.specs.Prelude.{◌≡◌, ◌≤◌, length, take, nat_lt};
ghost use Rattle.sheet.specs.Decoding.{entries_at, order_at};
ghost use Rattle.sheet.specs.Parts.{table_reading_of};

use crate::entry::Entry;
use crate::fields::{Fault, entry, word};
use crate::roll::Roll;

/// What a sheet of so many stations says of each, into the front of a table.
pub(crate) fn entries<'a>(
    table: &mut [Entry],
    count: u16,
    bytes: &'a [u8],
) -> Result<&'a [u8], Fault<'a>>
    requires { count ≤ length table.old }
    ensures { table_reading_of (take count table.new) result
        ≡ entries_at count count 0 bytes.now }
{
    let mut rest = bytes;
    for s in 0..count {
        let (entry, behind) = entry(count, s, rest)?;
        table[usize::from(s)] = entry;
        rest = behind;
    }
    Ok(rest)
}

/// The order on a sheet of so many stations, into the front of a table.
pub(crate) fn order<'a>(
    table: &mut [u16],
    count: u16,
    bytes: &'a [u8],
) -> Result<&'a [u8], Fault<'a>>
    requires room { count ≤ length table.old }
    requires few { count ≤ 512 }
    ensures { table_reading_of (take count table.new) result
        ≡ order_at (λ t. nat_lt t count) count bytes.now }
{
    let places = usize::from(count);
    let mut roll = Roll::new(places);
    let mut rest = bytes;
    for slot in &mut table[..places] {
        let (station, behind) = word(rest)?;
        if !roll.name(station) {
            return Err(Fault { from: rest });
        }
        *slot = station;
        rest = behind;
    }
    Ok(rest)
}
