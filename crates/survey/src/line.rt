//! A line of a survey.

use crate::faults::{BookFault, LineFault, Spot};
use crate::word::Word;
use book::{Book, Refusal, View};
use text::{Token, Tokens};

/// A line of a survey, and which one it is, counted from 1.
#[derive(Clone, Copy)]
pub(crate) struct Line<'a> {
    pub(crate) number: usize,
    pub(crate) bytes: &'a [u8],
}

impl Line<'_> {
    ghost use Rattle.std.specs.Prelude.{◌≡◌, [], Ok};
    ghost use Rattle.std.specs.Result.{result_unwrap_or};
    ghost use Rattle.text.specs.Cursors.{part_of, tokens_left};
    ghost use Rattle.text.specs.Laws.{Stands};
    ghost use Rattle.text.specs.Texts.{tokens_of};
    ghost use Rattle.book.specs.Books.{site};
    ghost use Rattle.survey.specs.declared.faults.LineFault.TheVariants.{WrongCount, Misplaced};
    ghost use Rattle.survey.specs.Surveys.{and_then, spot_of, word_fault, number_in, numbers, placed, size_read, linked_with, links_read, line_read};
    ghost use Rattle.survey.specs.Words.{lead_by};
    ghost use Rattle.survey.specs.Reached.{answered, reached};

    /// Where a word of the line stands.
    fn spot(&self, token: Token) -> Spot
        ensures { result ≡ spot_of self.now.number (part_of token.entry) }
    {
        Spot {
            line: self.number,
            byte: token.byte,
        }
    }

    /// The fault of a word that is not what has to stand there.
    fn wrong(&self, token: Token) -> LineFault
        ensures { result ≡ word_fault self.now.number (part_of token.entry) }
    {
        LineFault::WrongWord(self.spot(token))
    }

    /// The fault of a line with too few or too many words.
    fn miscounted(&self) -> LineFault
        ensures { result ≡ WrongCount self.now.number }
    {
        LineFault::WrongCount { line: self.number }
    }

    /// The fault of a line that comes too early or too late.
    fn misplaced(&self) -> LineFault
        ensures { result ≡ Misplaced self.now.number }
    {
        LineFault::Misplaced { line: self.number }
    }

    /// The number that a word of the line has to write.
    fn number_in(&self, token: Token) -> Result<usize, LineFault>
        ensures { result ≡ number_in self.now.number (part_of token.entry) }
    {
        match Word::read(token.bytes).and_then(Word::value) {
            Some(value) => Ok(usize::from(value)),
            None => Err(self.wrong(token)),
        }
    }

    /// What the book answers to a call, with the place of the word that asks for it.
    fn placed(&self, token: Token, answer: Result<(), Refusal>) -> Result<(), BookFault>
        ensures { result ≡ placed (spot_of self.now.number (part_of token.entry)) answer }
    {
        let spot = self.spot(token);
        answer.map_err(|refusal| BookFault { spot, refusal })
    }

    /// Judges whether words of the line are numbers.
    fn check_numbers(&self, words: Tokens) -> Result<(), LineFault>
        ensures { result ≡ answered (numbers self.now.number (tokens_left words.entry)) }
    {
        for token in words {
            self.number_in(token)?;
        }
        Ok(())
    }

    /// Lays the book out by the words behind the letter.
    fn read_size(&self, mut words: Tokens, book: &mut Book) -> Result<(), LineFault>
        ensures { reached result (site book.new) ≡ and_then (numbers self.now.number (tokens_left words.entry)) (size_read self.now.number (site book.old)) }
    {
        self.check_numbers(words)?;
        let Some(size) = words.next() else {
            return Err(self.miscounted());
        };
        if words.next().is_some() {
            return Err(self.miscounted());
        }
        if book.stations() != 0 {
            return Err(self.misplaced());
        }
        let stations = self.number_in(size)?;
        self.placed(size, book.lay_out(stations))?;
        Ok(())
    }

    /// Links a station with those that the other words of the line name.
    fn link_with(&self, station: usize, others: Tokens, book: &mut Book) -> Result<(), LineFault>
        requires { answered (numbers self.now.number (tokens_left others)) ≡ Ok tt }
        ensures { reached result (site book.new) ≡ linked_with station (site book.old) (result_unwrap_or (numbers self.now.number (tokens_left others.entry)) []) }
    {
        for token in others {
            let other = self.number_in(token)?;
            self.placed(token, book.link(station, other))?;
        }
        Ok(())
    }

    /// Sets the links that the words behind the letter name.
    fn read_links(&self, mut words: Tokens, book: &mut Book) -> Result<(), LineFault>
        ensures { reached result (site book.new) ≡ and_then (numbers self.now.number (tokens_left words.entry)) (links_read self.now.number (site book.old)) }
    {
        self.check_numbers(words)?;
        let Some(first) = words.next() else {
            return Err(self.miscounted());
        };
        // a copy, as the second number is read with the others
        let mut ahead = words;
        if ahead.next().is_none() {
            return Err(self.miscounted());
        }
        if book.stations() == 0 {
            return Err(self.misplaced());
        }
        let station = self.number_in(first)?;
        self.link_with(station, words, book)
    }

    /// The byte that leads the line, if its first word is a letter or a comment.
    fn lead(&self, first: Token) -> Option<u8>
        requires { Stands self.now.bytes.now (part_of first) }
        ensures { result ≡ lead_by (part_of first.entry).bytes }
    {
        Word::first(self.bytes, first)?.lead()
    }

    /// Reads the line into a book that holds what the lines before it say.
    pub(crate) fn read(&self, book: &mut Book) -> Result<(), LineFault>
        ensures { reached result (site book.new) ≡ line_read self.now.number (site book.old) (tokens_of self.now.bytes.now) }
    {
        let mut words = Tokens::new(self.bytes);
        let Some(first) = words.next() else {
            return Ok(());
        };
        let Some(lead) = self.lead(first) else {
            return Err(self.wrong(first));
        };
        match lead as char {
            'S' => self.read_size(words, book),
            'L' => self.read_links(words, book),
            '#' => Ok(()),
            _ => Err(self.wrong(first)),
        }
    }
}
