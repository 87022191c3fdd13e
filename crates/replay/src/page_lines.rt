//! The pages of a block, from their lines.
ghost use Rattle.std.specs.Iterator.{IsFinite};

use crate::error::BlockError;
use crate::fields::{Fields, FromFields, Plain, parse_line};
use crate::lines::Lines;
use crate::words::{Word, layer_of, page_fault};
use lexer::token::Span;
use pages::fault::Fault;
use pages::page::{DefaultName, Page, PageKind, Phase};
use pages::rows::{Attribute, Binding, Name, Request, Specifier};
use pages::table::Table;

/// Takes the lines of a page after its first. Each kind has lines of its own, which the match shows.
pub fn read_page(lines: &mut Lines, head: Head) -> Result<Page, BlockError> {
    let mut page = Page::blank();
    page.kind = head.kind;
    page.span = head.span;
    page.phase = head.phase;
    match page.kind {
        PageKind::Blank | PageKind::Statement => {}
        PageKind::Import | PageKind::ExportFrom => {
            page.source = lines.line("source")?;
            read_specifiers(lines, &mut page.specifiers)?;
            read_attributes(lines, &mut page.attributes)?;
        }
        PageKind::ExportAll => {
            page.source = lines.line("source")?;
            page.exported = lines.line_if("exported")?;
            read_attributes(lines, &mut page.attributes)?;
        }
        PageKind::Braces => read_specifiers(lines, &mut page.specifiers)?,
        PageKind::Declaration => {
            page.body = lines.line("body")?;
            fill(&mut page.names, lines.starting("declared").map(plain_name))?;
        }
        PageKind::Default => {
            page.keyword = lines.line("keyword")?;
            page.body = lines.line("body")?;
            page.default = lines.line("how")?;
        }
    }
    fill(&mut page.faults, lines.starting("fault").map(parse_line))?;
    Ok(page)
}

// Adds the rows that lines say to a table of the page, where it stands: a table made anew would be written twice. An
// error where a line says none, and where the table has no room.
fn fill<T: Copy, const N: usize, I: Iterator<Item = Result<T, BlockError>> + Drop>(
    table: &mut Table<T, N>,
    rows: I,
) -> Result<(), BlockError>
    requires can { I.can_next rows }
    requires ends { IsFinite (I.remaining rows) }
{
    for row in rows {
        table.push(row?)?;
    }
    Ok(())
}

/// What the first line of a page says. Of its first token and how many it has, a page keeps nothing.
#[derive(Clone, Copy)]
pub struct Head {
    kind: PageKind,
    span: Span,
    phase: Phase,
}

impl FromFields for Head {
    fn from_fields(fields: &mut Fields) -> Result<Head, BlockError> {
        let kind = PageKind::named(fields.word()?).ok_or(BlockError::NoPageKind)?;
        let span = fields.take()?;
        fields.skip::<u32>()?;
        fields.skip::<u32>()?;
        let phase = Phase::named(fields.word()?).ok_or(BlockError::NoPhase)?;
        Ok(Head { kind, span, phase })
    }
}

impl FromFields for Request {
    fn from_fields(fields: &mut Fields) -> Result<Request, BlockError> {
        Ok(Request {
            text: fields.take()?,
            span: fields.take()?,
            lone: fields.take()?,
        })
    }
}

// How a default is named.
impl FromFields for DefaultName {
    fn from_fields(fields: &mut Fields) -> Result<DefaultName, BlockError> {
        match fields.word()? {
            "plain" => Ok(DefaultName::Plain(fields.plain()?)),
            "named" => Ok(DefaultName::Named(fields.plain()?)),
            "absent" => Ok(DefaultName::Absent),
            _ => Err(BlockError::NoDefaultName),
        }
    }
}

// Takes the lines of specifiers: how many there are, then each. Every one of them has to be there, so this is no `take`
// of the lines that begin so.
fn read_specifiers(
    lines: &mut Lines,
    specifiers: &mut Table<Specifier, 128>,
) -> Result<(), BlockError> {
    let count = specifier_count(lines.fields("specifiers")?)?;
    fill(specifiers, (0..count).map(|_| lines.line("specifier")))
}

fn specifier_count(field: &str) -> Result<u32, BlockError> {
    match field {
        "none" => Ok(0),
        _ => Ok(field.parse()?),
    }
}

impl FromFields for Specifier {
    fn from_fields(fields: &mut Fields) -> Result<Specifier, BlockError> {
        let (binding, name, alias) = match fields.word()? {
            "default" => {
                let name = fields.plain()?;
                (Binding::Default, name, name)
            }
            "namespace" => {
                let name = fields.plain()?;
                (Binding::Namespace, name, name)
            }
            "import" => (Binding::Named, fields.take()?, fields.plain()?),
            "export" => (Binding::Named, fields.take()?, fields.take()?),
            _ => return Err(BlockError::NoSpecifier),
        };
        Ok(Specifier {
            span: fields.take()?,
            binding,
            name,
            alias,
        })
    }
}

// A name that a declaration binds.
fn plain_name(line: &str) -> Result<Name, BlockError> {
    let Plain(name) = parse_line(line)?;
    Ok(name)
}

// Takes the lines of attributes, if there are any: the word, the braces and how many there are, then each, as those of
// specifiers.
fn read_attributes(
    lines: &mut Lines,
    attributes: &mut Table<Attribute, 32>,
) -> Result<(), BlockError> {
    let Some(Attributes(count)) = lines.line_if("attributes")? else {
        return Ok(());
    };
    fill(attributes, (0..count).map(|_| lines.line("attribute")))
}

// How many attributes follow.
#[derive(Clone, Copy)]
struct Attributes(u32);

impl FromFields for Attributes {
    fn from_fields(fields: &mut Fields) -> Result<Attributes, BlockError> {
        match fields.word()? {
            "with" | "assert" => {}
            _ => return Err(BlockError::NoAttributes),
        }
        fields.skip::<Span>()?;
        Ok(Attributes(fields.take()?))
    }
}

// A key and a value, which is a string, with the flag of a lone surrogate and the span of both.
impl FromFields for Attribute {
    fn from_fields(fields: &mut Fields) -> Result<Attribute, BlockError> {
        let key = fields.take()?;
        let value = Name {
            string: true,
            ..fields.plain()?
        };
        fields.skip::<bool>()?;
        fields.skip::<Span>()?;
        Ok(Attribute { key, value })
    }
}

// A fault: its number, its layer, and its place or two.
impl FromFields for Fault {
    fn from_fields(fields: &mut Fields) -> Result<Fault, BlockError> {
        let kind = page_fault(fields.take()?).ok_or(BlockError::NoPageFault)?;
        if layer_of(fields.take()?) != Some(kind.layer()) {
            return Err(BlockError::OtherLayer);
        }
        let first = fields.take()?;
        match fields.take()? {
            Some(second) => Ok(Fault::with(kind, first, second)),
            None => Ok(Fault::at(kind, first)),
        }
    }
}
