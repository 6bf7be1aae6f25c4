//! The fields of a sheet, read from the left.

ghost use Rattle.std.specs.Prelude.{◌≡◌, ◌≤◌, IfOk};
ghost use Rattle.cores.specs.Site.{sized};
ghost use Rattle.sheet.specs.Fields.{word_at, field_at, is_map, fields_of, map_at, value_at, up_at};
ghost use Rattle.sheet.specs.Decoding.{entry_at};
ghost use Rattle.sheet.specs.Parts.{reading_of};

use crate::entry::{Entry, Present};
use view::counts::is_sized;

/// Bytes that are no sheet, from the field at fault on: none where they are cut.
#[derive(Clone, Copy)]
pub(crate) struct Fault<'a> {
    pub(crate) from: &'a [u8],
}

/// What stands at the front of some bytes, and the bytes behind it.
pub(crate) type Reading<'a, T> = Result<(T, &'a [u8]), Fault<'a>>;

/// Two bytes, the low one first.
#[tactic(auto, unfolding(crate::specs::Fields::word_at))]
pub(crate) fn word(bytes: &[u8]) -> Reading<'_, u16>
    ensures { reading_of result ≡ word_at bytes.now }
{
    match bytes {
        [low, high, rest @ ..] => Ok((u16::from_le_bytes([*low, *high]), rest)),
        _ => Err(Fault { from: &[] }),
    }
}

/// The station count of a sheet: 1 to 512.
#[tactic(auto, unfolding(crate::specs::Fields::field_at))]
pub(crate) fn count(bytes: &[u8]) -> Reading<'_, u16>
    ensures value { reading_of result ≡ field_at sized bytes.now }
    ensures few { IfOk result (λ read. read.0 ≤ 512) }
{
    let (count, rest) = word(bytes)?;
    if is_sized(usize::from(count)) {
        Ok((count, rest))
    } else {
        Err(Fault { from: bytes })
    }
}

/// Whether a byte has bits 1 and 2 not both, and bits 3 to 7 clear.
fn is_map(byte: u8) -> bool
    ensures { result ≡ is_map byte }
{
    byte < 8 && byte & 0b110 != 0b110
}

/// Which fields a map byte says are present.
fn fields_of(map: u8) -> Present
    ensures { result ≡ fields_of map }
{
    Present {
        number: map & 0b001 != 0,
        home: map & 0b010 != 0,
        up: map & 0b100 != 0,
    }
}

/// The map byte of a station.
#[tactic(auto, unfolding(crate::specs::Fields::map_at))]
fn map(bytes: &[u8]) -> Reading<'_, Present>
    ensures { reading_of result ≡ map_at bytes.now }
{
    match bytes {
        [byte, rest @ ..] if is_map(*byte) => Ok((fields_of(*byte), rest)),
        _ => Err(Fault { from: bytes }),
    }
}

/// A field that is left out for its usual value, on a sheet of so many stations.
#[tactic(auto, unfolding(crate::specs::Fields::value_at, crate::specs::Fields::field_at))]
fn value(count: u16, usual: u16, present: bool, bytes: &[u8]) -> Reading<'_, u16>
    ensures { reading_of result ≡ value_at count usual present bytes.now }
{
    if !present {
        return Ok((usual, bytes));
    }
    let (value, rest) = word(bytes)?;
    if value < count && value != usual {
        Ok((value, rest))
    } else {
        Err(Fault { from: bytes })
    }
}

/// An up, if one is present.
#[tactic(auto, unfolding(crate::specs::Fields::up_at, crate::specs::Fields::field_at))]
fn up(count: u16, present: bool, bytes: &[u8]) -> Reading<'_, Option<u16>>
    ensures { reading_of result ≡ up_at count present bytes.now }
{
    if !present {
        return Ok((None, bytes));
    }
    let (up, rest) = word(bytes)?;
    if up < count {
        Ok((Some(up), rest))
    } else {
        Err(Fault { from: bytes })
    }
}

/// What a sheet of so many stations says of station s.
#[tactic(auto, unfolding(crate::specs::Decoding::entry_at))]
pub(crate) fn entry(count: u16, s: u16, bytes: &[u8]) -> Reading<'_, Entry>
    ensures { reading_of result ≡ entry_at count s bytes.now }
{
    let (has, rest) = map(bytes)?;
    let (number, rest) = value(count, 0, has.number, rest)?;
    let (home, rest) = value(count, s, has.home, rest)?;
    let (up, rest) = up(count, has.up, rest)?;
    Ok((Entry { number, home, up }, rest))
}
