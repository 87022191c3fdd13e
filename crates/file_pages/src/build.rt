//! Pages of a module, by where their parts stand in its text.
use lexer::token::{Part, Span};
use pages::page::{DefaultName, Page, PageKind, Phase};
use pages::rows::{Binding, Name, Request, Specifier};
use pages::table::Full;

pub fn span(start: u32, end: u32) -> Span {
    Span { start, end }
}

/// The name that stands there.
pub fn name(start: u32, end: u32) -> Name {
    Name {
        text: Part {
            place: start,
            len: end.saturating_sub(start),
        },
        span: span(start, end),
        string: false,
    }
}

/// The module that the string there names, without its quotes.
pub fn module(start: u32, end: u32) -> Request {
    let text = Part {
        place: start.saturating_add(1),
        len: end.saturating_sub(start).saturating_sub(2),
    };
    Request {
        text,
        span: span(start, end),
        lone: false,
    }
}

/// A name by itself.
pub fn plain(name: Name) -> Specifier {
    renamed(name, name)
}

/// `name as alias`
pub fn renamed(name: Name, alias: Name) -> Specifier {
    Specifier {
        span: span(name.span.start, alias.span.end),
        binding: Binding::Named,
        name,
        alias,
    }
}

/// The local name of a module's default or of its namespace.
pub fn bound(binding: Binding, name: Name) -> Specifier {
    Specifier {
        binding,
        ..plain(name)
    }
}

fn with_specifiers(mut page: Page, specifiers: &[Specifier]) -> Result<Page, Full> {
    specifiers
        .iter()
        .try_for_each(|specifier| page.specifiers.push(*specifier))?;
    Ok(page)
}

pub fn import(
    span: Span,
    phase: Phase,
    source: Request,
    specifiers: &[Specifier],
) -> Result<Page, Full> {
    let page = Page {
        kind: PageKind::Import,
        span,
        phase,
        source,
        ..Page::default()
    };
    with_specifiers(page, specifiers)
}

pub fn export_all(span: Span, source: Request, exported: Option<Name>) -> Page {
    Page {
        kind: PageKind::ExportAll,
        span,
        source,
        exported,
        ..Page::default()
    }
}

pub fn export_from(span: Span, source: Request, specifiers: &[Specifier]) -> Result<Page, Full> {
    let page = Page {
        kind: PageKind::ExportFrom,
        span,
        source,
        ..Page::default()
    };
    with_specifiers(page, specifiers)
}

pub fn braces(span: Span, specifiers: &[Specifier]) -> Result<Page, Full> {
    let page = Page {
        kind: PageKind::Braces,
        span,
        ..Page::default()
    };
    with_specifiers(page, specifiers)
}

pub fn declaration(span: Span, body: Span, names: &[Name]) -> Result<Page, Full> {
    let mut page = Page {
        kind: PageKind::Declaration,
        span,
        body,
        ..Page::default()
    };
    names.iter().try_for_each(|name| page.names.push(*name))?;
    Ok(page)
}

pub fn default(span: Span, keyword: Span, body: Span, local: DefaultName) -> Page {
    Page {
        kind: PageKind::Default,
        span,
        keyword,
        body,
        default: local,
        ..Page::default()
    }
}
