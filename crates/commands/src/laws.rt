//! The law of hexadecimal digits, on a contract of its own.

ghost use Rattle.commands.specs.Hexadecimals.{EncodedAndDecodedIsTheSame};

/// Bytes that were encoded and are decoded are the same bytes.
#[tactic(auto, using(crate::proofs::Digits::encoded_and_decoded))]
pub fn encoded_and_decoded_is_the_same()
    ensures { EncodedAndDecodedIsTheSame }
{}
