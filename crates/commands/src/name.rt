//! The words that commands begin with.

ghost use Rattle.std.specs.Prelude.{◌≡◌};
ghost use Rattle.std.specs.Option.{option_map};
ghost use Rattle.commands.specs.Numerals.{bytes_of};
ghost use Rattle.commands.specs.Names.{phrase_of, named, behind};

/// Which command it is.
#[derive(Clone, Copy, PartialEq, Eq, Debug)]
pub(crate) enum Name {
    LayOut,
    Link,
    Unlink,
    Survey,
    Numbers,
    WriteOut,
    Draw,
    Inspect,
    Cards,
    Read,
    Put,
    Tally,
    CheckListed,
    CheckSquare,
    Choose,
    Agree,
}

/// All names.
const NAMES: [Name; 16] = [
    Name::LayOut,
    Name::Link,
    Name::Unlink,
    Name::Survey,
    Name::Numbers,
    Name::WriteOut,
    Name::Draw,
    Name::Inspect,
    Name::Cards,
    Name::Read,
    Name::Put,
    Name::Tally,
    Name::CheckListed,
    Name::CheckSquare,
    Name::Choose,
    Name::Agree,
];

/// The words behind a phrase, if some words begin with it.
fn behind<'a, 'b>(words: &'a [&'b [u8]], phrase: &[&[u8]]) -> Option<&'a [&'b [u8]]>
    ensures { option_map (λ others. bytes_of others.now) result ≡ behind (bytes_of phrase.now) (bytes_of words.now) }
{
    let (front, others) = words.split_at_checked(phrase.len())?;
    (front == phrase).then_some(others)
}

impl Name {
    /// The words of the name.
    fn phrase(self) -> &'static [&'static [u8]]
        ensures { bytes_of result.now ≡ phrase_of self }
    {
        match self {
            Name::LayOut => &[b"lay", b"out"],
            Name::Link => &[b"link"],
            Name::Unlink => &[b"unlink"],
            Name::Survey => &[b"survey"],
            Name::Numbers => &[b"numbers"],
            Name::WriteOut => &[b"write", b"out"],
            Name::Draw => &[b"draw", b"struck"],
            Name::Inspect => &[b"inspect"],
            Name::Cards => &[b"cards"],
            Name::Read => &[b"read"],
            Name::Put => &[b"put"],
            Name::Tally => &[b"tally"],
            Name::CheckListed => &[b"check", b"listed"],
            Name::CheckSquare => &[b"check", b"square"],
            Name::Choose => &[b"choose"],
            Name::Agree => &[b"agree"],
        }
    }

    /// The name that words begin with, and the words behind it.
    pub(crate) fn of<'a, 'b>(words: &'a [&'b [u8]]) -> Option<(Name, &'a [&'b [u8]])>
        ensures { option_map (λ found. (found.0, bytes_of found.1.now)) result ≡ named (bytes_of words.now) }
    {
        for name in NAMES {
            if let Some(others) = behind(words, name.phrase()) {
                return Some((name, others));
            }
        }
        None
    }
}
