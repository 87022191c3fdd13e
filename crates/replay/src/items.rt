//! Parts of a line of the record.
use crate::error::BlockError;
use crate::hex::Hex;
use lexer::token::Span;
use record_rules::rows::{ExportImport, ExportName, ImportName, LocalName, NameSpan};
use std::fmt;
use std::str::FromStr;

/// A span as two numbers, a hyphen between them.
#[derive(Clone, Copy)]
pub struct Place(pub Span);

impl fmt::Display for Place {
    fn fmt<W: fmt::Write>(&self, f: &mut fmt::Formatter<W>) -> fmt::Result {
        let Span { start, end } = self.0;
        write!(f, "{start}-{end}")
    }
}

impl FromStr for Place {
    type Err = BlockError;

    fn from_str(field: &str) -> Result<Place, BlockError> {
        let (start, end) = field.split_once('-').ok_or(BlockError::NoSpan)?;
        Ok(Place(Span {
            start: start.parse()?,
            end: end.parse()?,
        }))
    }
}

/// A name's text and where it stands.
#[derive(Clone, Copy)]
pub struct Named<'a> {
    text: &'a [u8],
    span: Span,
}

impl<'a> Named<'a> {
    pub fn new(text: &'a [u8], name: NameSpan) -> Named<'a> {
        Named {
            text: name.text.of(text),
            span: name.span,
        }
    }
}

// What stands where there is no text.
impl From<Span> for Named<'_> {
    fn from(span: Span) -> Self {
        Named { text: &[], span }
    }
}

impl fmt::Display for Named<'_> {
    fn fmt<W: fmt::Write>(&self, f: &mut fmt::Formatter<W>) -> fmt::Result {
        let text = Hex(self.text);
        let span = Place(self.span);
        write!(f, "{text} {span}")
    }
}

/// A name with the word for what kind it is.
#[derive(Clone, Copy)]
pub struct Item<'a> {
    word: &'static str,
    name: Named<'a>,
}

impl<'a> Item<'a> {
    fn named(word: &'static str, text: &'a [u8], name: NameSpan) -> Item<'a> {
        Item {
            word,
            name: Named::new(text, name),
        }
    }

    fn at(word: &'static str, span: Span) -> Item<'a> {
        Item {
            word,
            name: Named::from(span),
        }
    }

    // A word alone: neither a text nor a span.
    fn bare(word: &'static str) -> Item<'a> {
        Item::at(word, Span::default())
    }
}

impl fmt::Display for Item<'_> {
    fn fmt<W: fmt::Write>(&self, f: &mut fmt::Formatter<W>) -> fmt::Result {
        let Item { word, name } = *self;
        write!(f, "{word} {name}")
    }
}

/// What a row has that is written as an item, its texts those of the module.
pub trait ToItem {
    fn item<'a>(self, text: &'a [u8]) -> Item<'a>;
}

// What an import takes from its module.
impl ToItem for ImportName {
    fn item<'a>(self, text: &'a [u8]) -> Item<'a> {
        match self {
            ImportName::Name(name) => Item::named("name", text, name),
            ImportName::Namespace => Item::bare("namespace"),
            ImportName::Default(span) => Item::at("default", span),
        }
    }
}

// The module that an export comes from.
impl ToItem for Option<NameSpan> {
    fn item<'a>(self, text: &'a [u8]) -> Item<'a> {
        match self {
            Some(name) => Item::named("request", text, name),
            None => Item::bare("none"),
        }
    }
}

// What an export takes from another module.
impl ToItem for ExportImport {
    fn item<'a>(self, text: &'a [u8]) -> Item<'a> {
        match self {
            ExportImport::Absent => Item::bare("none"),
            ExportImport::Name(name) => Item::named("name", text, name),
            ExportImport::Default(span) => Item::at("default", span),
            ExportImport::All => Item::bare("all"),
            ExportImport::AllButDefault => Item::bare("all-but-default"),
        }
    }
}

// The name that an export has to the outside.
impl ToItem for ExportName {
    fn item<'a>(self, text: &'a [u8]) -> Item<'a> {
        match self {
            ExportName::Absent => Item::bare("none"),
            ExportName::Name(name) => Item::named("name", text, name),
            ExportName::Default(span) => Item::at("default", span),
        }
    }
}

// The name that an export has in its module.
impl ToItem for LocalName {
    fn item<'a>(self, text: &'a [u8]) -> Item<'a> {
        match self {
            LocalName::Absent => Item::bare("none"),
            LocalName::Name(name) => Item::named("name", text, name),
            LocalName::Default(name) => Item::named("plain", text, name),
        }
    }
}
