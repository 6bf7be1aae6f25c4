//! Cuts a text into its lines, and a line into its words.

ghost use Rattle.std.specs.Prelude.{◌≡◌, ◌≤◌, length, not, ◌==◌};
ghost use Rattle.std.specs.List.{position, position_or_len};
ghost use Rattle.std.specs.Iterator.{at_most};
ghost use Rattle.text.specs.Texts.{lines, tokens_of};

/// Where `stop` stands first, or the end.
fn until(bytes: &[u8], stop: u8) -> usize
    ensures within { result ≤ length bytes.now }
    ensures first { result ≡ position_or_len (λ b. b == stop) bytes.now }
{
    bytes.iter().position(|b| *b == stop).unwrap_or(bytes.len())
}

/// Where the first word begins, if there is one.
fn word_start(bytes: &[u8]) -> Option<usize>
    ensures { result ≡ position (λ b. not (b == 32)) bytes.now }
{
    bytes.iter().position(|b| *b != b' ')
}

/// The lines of a text that are still to come, each without its LF.
#[derive(Debug, Drop)]
pub struct Lines<'a> {
    rest: &'a [u8],
}

impl<'a> Lines<'a> {
    ghost use Rattle.text.specs.Cursors.{lines_left, unread};

    pub fn new(text: &'a [u8]) -> Lines<'a>
        ensures left { lines_left result ≡ lines text.now }
        ensures all { unread result ≡ length text.now }
    {
        Lines { rest: text }
    }
}

impl<'a> Iterator for Lines<'a> {
    ghost use Rattle.text.specs.Cursors.{unread, GivesLine};

    type Item = &'a [u8];

    ghost next_gives = { GivesLine };

    ghost remaining = { λ s. at_most (unread s) };

    fn next(&mut self) -> Option<&'a [u8]> {
        if self.rest.is_empty() {
            return None;
        }
        let (line, behind) = self.rest.split_at(until(self.rest, b'\n'));
        // The last line may end without an LF to step over.
        self.rest = behind.get(1..).unwrap_or_default();
        Some(line)
    }
}

/// A word of a line, and the place of its first byte, counted from 1.
#[derive(Clone, Copy, PartialEq, Eq, Debug)]
pub struct Token<'a> {
    pub byte: usize,
    pub bytes: &'a [u8],
}

/// The words of a line that are still to come.
#[derive(Clone, Copy, Debug)]
pub struct Tokens<'a> {
    line: &'a [u8],
    at: usize,

    ghost within: { at ≤ length line.now },
}

impl<'a> Tokens<'a> {
    ghost use Rattle.text.specs.Cursors.{tokens_left, unread_of};

    pub fn new(line: &'a [u8]) -> Tokens<'a>
        ensures left { tokens_left result ≡ tokens_of line.now }
        ensures all { unread_of result ≡ length line.now }
    {
        Tokens { line, at: 0 }
    }
}

impl<'a> Iterator for Tokens<'a> {
    ghost use Rattle.text.specs.Cursors.{unread_of, GivesToken};

    type Item = Token<'a>;

    ghost next_gives = { GivesToken };

    ghost remaining = { λ s. at_most (unread_of s) };

    fn next(&mut self) -> Option<Token<'a>> {
        let start = self.at + word_start(&self.line[self.at..])?;
        let end = start + until(&self.line[start..], b' ');
        self.at = end;
        Some(Token {
            byte: start + 1,
            bytes: &self.line[start..end],
        })
    }
}
