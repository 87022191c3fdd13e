//! The fields of a line, one blank between them.
ghost use Rattle.std.specs.Prelude.{◌≡◌, ◌≢◌, Bool, MatchResult};
ghost use Rattle.replay.specs.Words.{flag_word};

use crate::error::BlockError;
use crate::items::Place;
use lexer::token::{Part, Span};
use pages::rows::Name;
use std::str::FromStr;

/// The fields that are left. A text, and no iterator over it: of those that split a text none is Copy.
#[derive(Clone, Copy)]
pub struct Fields<'a> {
    // None after the last field
    rest: Option<&'a str>,
}

impl<'a> Fields<'a> {
    fn new(line: &'a str) -> Fields<'a> {
        Fields { rest: Some(line) }
    }

    /// Takes a field as it is written.
    pub fn word(&mut self) -> Result<&'a str, BlockError> {
        let text = self.rest.ok_or(BlockError::FewFields)?;
        match text.split_once(' ') {
            Some((word, rest)) => {
                self.rest = Some(rest);
                Ok(word)
            }
            None => {
                self.rest = None;
                Ok(text)
            }
        }
    }

    /// Takes what the next fields say.
    pub fn take<T: FromFields>(&mut self) -> Result<T, BlockError> {
        T::from_fields(self)
    }

    /// Takes a name that is no string: a part and a span.
    pub fn plain(&mut self) -> Result<Name, BlockError> {
        Ok(Name {
            text: self.take()?,
            span: self.take()?,
            string: false,
        })
    }

    /// Takes what the next fields say, and lets go of it.
    pub fn skip<T: FromFields>(&mut self) -> Result<(), BlockError> {
        self.take::<T>()?;
        Ok(())
    }

    // An error where a field is left.
    fn end(self) -> Result<(), BlockError> {
        match self.rest {
            Some(_) => Err(BlockError::ManyFields),
            None => Ok(()),
        }
    }
}

/// What one field says, or several.
pub trait FromFields: Sized + Drop {
    fn from_fields(fields: &mut Fields) -> Result<Self, BlockError>;
}

/// What all fields of a line say.
pub fn parse_line<T: FromFields>(line: &str) -> Result<T, BlockError> {
    let mut fields = Fields::new(line);
    let value = fields.take()?;
    fields.end()?;
    Ok(value)
}

impl FromFields for u32 {
    fn from_fields(fields: &mut Fields) -> Result<u32, BlockError> {
        Ok(fields.word()?.parse()?)
    }
}

impl FromFields for bool {
    fn from_fields(fields: &mut Fields) -> Result<bool, BlockError> {
        let Flag(flag) = fields.word()?.parse()?;
        Ok(flag)
    }
}

impl FromFields for Span {
    fn from_fields(fields: &mut Fields) -> Result<Span, BlockError> {
        let Place(span) = fields.word()?.parse()?;
        Ok(span)
    }
}

// What may be missing at the end of a line.
impl<T: FromFields> FromFields for Option<T> {
    fn from_fields(fields: &mut Fields) -> Result<Option<T>, BlockError> {
        if fields.rest.is_none() {
            return Ok(None);
        }
        Ok(Some(fields.take()?))
    }
}

// The place and the length of a part.
impl FromFields for Part {
    fn from_fields(fields: &mut Fields) -> Result<Part, BlockError> {
        Ok(Part {
            place: fields.take()?,
            len: fields.take()?,
        })
    }
}

// A plain name, and the flag that tells of a string.
impl FromFields for Name {
    fn from_fields(fields: &mut Fields) -> Result<Name, BlockError> {
        let name = fields.plain()?;
        Ok(Name {
            string: fields.take()?,
            ..name
        })
    }
}

/// A line that is a plain name alone.
#[derive(Clone, Copy)]
pub struct Plain(pub Name);

impl FromFields for Plain {
    fn from_fields(fields: &mut Fields) -> Result<Plain, BlockError> {
        Ok(Plain(fields.plain()?))
    }
}

// Yes as 1, no as 0.
#[derive(Clone, Copy)]
struct Flag(bool);

impl FromStr for Flag {
    type Err = BlockError;

    ghost from_str_gives = { λ field r. MatchResult r (λ flag. flag_word flag.0 ≡ field) (λ _. (b : Bool) → flag_word b ≢ field) };

    fn from_str(field: &str) -> Result<Flag, BlockError> {
        match field {
            "0" => Ok(Flag(false)),
            "1" => Ok(Flag(true)),
            _ => Err(BlockError::NoFlag),
        }
    }
}
