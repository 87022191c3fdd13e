//! A text, line by line. Each line ends with a new line, which is not a part of it. The library's `lines` would give a
//! last line without one too, and leave out a carriage return.
ghost use Rattle.std.specs.Prelude.{◌≡◌, ◌∷◌, ◌++◌, ◌^◌, ◌<◌, length, IfSome, IfOk, MatchOption};
ghost use Rattle.std.specs.Iterator.{at_most};
ghost use Rattle.replay.specs.Lined.{NoLine, FirstLine, Fielded};

use crate::error::BlockError;
use crate::fields::{FromFields, parse_line};

// Seen by its fields: clauses speak of the text that is left, and `number` of the count, which no view would join.
#[derive(Clone, Copy)]
pub struct Lines<'a> {
    // the text that is left
    rest: &'a str,
    // how many lines were taken, for errors; past the largest number it stays there
    taken: usize,
}

impl<'a> Lines<'a> {
    pub fn new(text: &'a str) -> Lines<'a>
        ensures { result.rest.now ≡ text.now }
    {
        Lines {
            rest: text,
            taken: 0,
        }
    }

    /// The number of the line that was taken last, from 1.
    pub fn number(&self) -> usize
        ensures { result ≡ self.now.taken }
    {
        self.taken
    }

    /// Takes a line that begins with the word: its fields, the text after the word and a blank.
    pub fn fields(&mut self, word: &str) -> Result<&'a str, BlockError>
        ensures { IfOk result (λ x. Fielded self.old.rest.now word.now x.now self.new.rest.now) }
    {
        let line = self.next().ok_or(BlockError::EarlyEnd)?;
        fields_of(line, word).ok_or(BlockError::OtherLine)
    }

    /// Takes a line if it begins with the word.
    pub fn fields_if(&mut self, word: &str) -> Option<&'a str>
        ensures { MatchOption result (self.new.rest.now ≡ self.old.rest.now) (λ x. Fielded self.old.rest.now word.now x.now self.new.rest.now) }
    {
        let mut ahead = *self;
        let fields = fields_of(ahead.next()?, word)?;
        *self = ahead;
        Some(fields)
    }

    /// The fields of the lines from here on that begin with the word, up to one that does not. The bound lets them
    /// be counted.
    pub fn starting<'l>(&'l mut self, word: &'l str) -> Starting<'l, 'a>
        ensures rest { result.lines.now.rest.now ≡ self.old.rest.now }
        ensures word { result.word.now ≡ word.now }
        ensures bound { length self.old.rest.now < 2 ^ 64 }
    {
        Starting { lines: self, word }
    }

    /// Takes a line that begins with the word: what its fields say.
    pub fn line<T: FromFields>(&mut self, word: &str) -> Result<T, BlockError> {
        parse_line(self.fields(word)?)
    }

    /// The same, if the line begins with the word.
    pub fn line_if<T: FromFields>(&mut self, word: &str) -> Result<Option<T>, BlockError> {
        match self.fields_if(word) {
            Some(fields) => Ok(Some(parse_line(fields)?)),
            None => Ok(None),
        }
    }
}

impl<'a> Iterator for Lines<'a> {
    type Item = &'a str;

    ghost next_gives = { λ s r t. MatchOption r (NoLine s.rest.now t.rest.now) (λ x. FirstLine s.rest.now x.now t.rest.now) };

    ghost remaining = { λ s. at_most (length s.rest.now) };

    fn next(&mut self) -> Option<&'a str> {
        let (line, rest) = self.rest.split_once('\n')?;
        self.rest = rest;
        self.taken = self.taken.saturating_add(1);
        Some(line)
    }
}

/// The lines at the front of others that begin with a word, by their fields.
#[derive(Drop)]
pub struct Starting<'l, 'a> {
    lines: &'l mut Lines<'a>,
    word: &'l str,
}

impl<'a> Iterator for Starting<'_, 'a> {
    type Item = &'a str;

    ghost next_gives = { λ s r t. MatchOption r (t.lines.now.rest.now ≡ s.lines.now.rest.now) (λ x. Fielded s.lines.now.rest.now s.word.now x.now t.lines.now.rest.now) };

    ghost remaining = { λ s. at_most (length s.lines.now.rest.now) };

    fn next(&mut self) -> Option<&'a str> {
        self.lines.fields_if(self.word)
    }
}

// What a line has after the word and a blank.
fn fields_of<'a>(line: &'a str, word: &str) -> Option<&'a str>
    ensures { IfSome result (λ x. line.now ≡ word.now ++ (32 ∷ x.now)) }
{
    line.strip_prefix(word)?.strip_prefix(' ')
}
