//! Bytes as hexadecimal digits.

ghost use Rattle.std.specs.Prelude.{◌≡◌, true, Some, Err, vec_items};
ghost use Rattle.std.specs.Char.{is_ascii_uppercase};
ghost use Rattle.std.specs.List.{list_any};
ghost use Rattle.commands.specs.declared.unread.Unread.TheVariants.{NotUnderstood};
ghost use Rattle.commands.specs.Meanings.{Meant, giving};
ghost use Rattle.commands.specs.Hexadecimals.{decoded, encoded};

use crate::unread::Unread;
use hex::FromHexError;
use std::alloc::Global;
use std::fmt;

/// Whether some digit is in upper case.
fn has_capital(digits: &[u8]) -> bool
    ensures { result ≡ list_any is_ascii_uppercase digits.now }
{
    digits.iter().any(|digit| digit.is_ascii_uppercase())
}

/// The bytes that digits write, in lower case and without spaces; `-` writes none.
pub fn decode(heap: Global, digits: &[u8]) -> Result<Vec<u8>, Unread>
    ensures bytes { Meant (decoded digits.now) (giving vec_items result) }
    ensures capital { list_any is_ascii_uppercase digits.now ≡ true → result ≡ Err NotUnderstood }
{
    if digits == b"-".as_slice() {
        return Ok(Vec::new(heap));
    }
    // the decoder would take them
    if has_capital(digits) {
        return Err(Unread::NotUnderstood);
    }
    match hex::decode(heap, digits) {
        Ok(bytes) => Ok(bytes),
        Err(FromHexError::OutOfMemory) => Err(Unread::NoMemory),
        Err(_) => Err(Unread::NotUnderstood),
    }
}

/// Bytes, each by two digits, or `-` if there are none.
#[derive(Clone, Copy, PartialEq, Eq, Debug)]
pub struct Hexadecimal<'a>(pub &'a [u8]);

impl fmt::Display for Hexadecimal<'_> {
    ghost output = { λ bytes. Some (encoded bytes.0.now) };

    #[tactic(auto, using(std::proofs::lemmas::Grind::common_steps, std::proofs::lemmas::Fmt::hex_byte))]
    fn fmt<W: fmt::Write>(&self, f: &mut fmt::Formatter<W>) -> fmt::Result {
        if self.0.is_empty() {
            return write!(f, "-");
        }
        for &byte in self.0 {
            write!(f, "{byte:02x}")?;
        }
        Ok(())
    }
}
