//! Numbers of a line, and lists of them.

ghost use Rattle.std.specs.Prelude.{◌≡◌, ℕ, ◌-◌, ◌^◌, map, vec_items};
ghost use Rattle.std.specs.Option.{option_map};
ghost use Rattle.text.specs.Texts.{number_up_to};
ghost use Rattle.commands.specs.Meanings.{Meant, Understood, giving};
ghost use Rattle.commands.specs.Numerals.{numbers_up_to, bytes_of, is_slash, cut_at_slash};
ghost use Rattle.std.specs.List.{position};

use crate::unread::Unread;
use std::alloc::Global;
use text::natural;

/// A type of numbers that words write in decimal digits.
pub trait Number: Copy {
    /// The greatest number.
    ghost most: { ℕ };

    /// Which number a value is.
    ghost value: { Self → ℕ };

    /// The number that a word writes, if it is not too great. Leading zeros are allowed.
    fn read(word: &[u8]) -> Option<Self>
        ensures { option_map value result ≡ number_up_to most word.now };
}

impl Number for usize {
    ghost most = { 2 ^ 64 - 1 };

    ghost value = { λ n. n };

    fn read(word: &[u8]) -> Option<usize> {
        natural(word)
    }
}

impl Number for u32 {
    ghost most = { 2 ^ 32 - 1 };

    ghost value = { λ n. n };

    fn read(word: &[u8]) -> Option<u32> {
        u32::try_from(natural(word)?).ok()
    }
}

impl Number for u16 {
    ghost most = { 65535 };

    ghost value = { λ n. n };

    fn read(word: &[u8]) -> Option<u16> {
        u16::try_from(natural(word)?).ok()
    }
}

/// The number that a word writes.
pub(crate) fn read_number<T: Number>(word: &[u8]) -> Result<T, Unread>
    ensures { Understood (number_up_to T.most word.now) (giving T.value result) }
{
    T::read(word).ok_or(Unread::NotUnderstood)
}

/// The numbers that words write.
pub(crate) fn read_numbers<T: Number>(heap: Global, words: &[&[u8]]) -> Result<Vec<T>, Unread>
    ensures { Meant (numbers_up_to T.most (bytes_of words.now)) (giving (λ list. map T.value (vec_items list)) result) }
{
    let mut list = Vec::new(heap);
    for word in words {
        list.push(read_number(word)?)?;
    }
    Ok(list)
}

/// Where the first `/` stands.
fn find_slash(words: &[&[u8]]) -> Option<usize>
    ensures { result ≡ position is_slash (bytes_of words.now) }
{
    words.iter().position(|word| *word == b"/".as_slice())
}

/// The words in front of the first `/`, and those behind it.
pub(crate) fn before_slash<'a, 'b>(
    words: &'a [&'b [u8]],
) -> Result<(&'a [&'b [u8]], &'a [&'b [u8]]), Unread>
    ensures { Understood (cut_at_slash (bytes_of words.now)) (giving (λ parts. (bytes_of parts.0.now, bytes_of parts.1.now)) result) }
{
    let slash = find_slash(words).ok_or(Unread::NotUnderstood)?;
    Ok((&words[..slash], &words[slash + 1..]))
}
