//! Rows of a record in words, with their names out of the text of its module. The library's rows have no words of their
//! own: they hold places, and what stands there a text says.
use lexer::token::{Part, Span};
use module_record::all::Refusal;
use pages::fault::{Fault, FaultKind};
use pages::page::Phase;
use record_rules::rows::{
    Clause, ExportImport, ExportName, ExportRow, ImportName, ImportRow, LocalName, RequestRow,
};
use std::fmt::{self, Display};
use std::str::from_utf8;

/// A value whose places are those of a text.
#[derive(Clone, Copy)]
pub struct InText<'a, T> {
    pub text: &'a [u8],
    pub value: T,
}

impl<'a, T> InText<'a, T> {
    // Another value, in the same text.
    fn at<U>(&self, value: U) -> InText<'a, U> {
        InText {
            text: self.text,
            value,
        }
    }
}

// What stands there, in quotes.
impl fmt::Display for InText<'_, Part> {
    fn fmt<W: fmt::Write>(&self, f: &mut fmt::Formatter<W>) -> fmt::Result {
        match from_utf8(self.value.of(self.text)) {
            Ok(name) => write!(f, "{name:?}"),
            Err(_) => f.write_str("a text that is no UTF-8"),
        }
    }
}

// Where it begins and where it ends.
impl fmt::Display for InText<'_, Span> {
    fn fmt<W: fmt::Write>(&self, f: &mut fmt::Formatter<W>) -> fmt::Result {
        let Span { start, end } = self.value;
        write!(f, "{start} to {end}")
    }
}

impl fmt::Display for InText<'_, ImportRow> {
    fn fmt<W: fmt::Write>(&self, f: &mut fmt::Formatter<W>) -> fmt::Result {
        let local = self.at(self.value.local.text);
        let what = self.at(self.value.import_name);
        let request = self.at(self.value.request.text);
        let phase = match self.value.phase {
            Phase::Evaluation => "",
            Phase::Defer => ", deferred",
            Phase::Source => ", as its source",
        };
        let place = self.at(self.value.statement);
        write!(f, "{local} is {what} of {request}{phase}, at {place}")
    }
}

// What an import takes.
impl fmt::Display for InText<'_, ImportName> {
    fn fmt<W: fmt::Write>(&self, f: &mut fmt::Formatter<W>) -> fmt::Result {
        match self.value {
            ImportName::Name(name) => self.at(name.text).fmt(f),
            ImportName::Namespace => f.write_str("the namespace"),
            ImportName::Default(_) => f.write_str("the default"),
        }
    }
}

impl fmt::Display for InText<'_, RequestRow> {
    fn fmt<W: fmt::Write>(&self, f: &mut fmt::Formatter<W>) -> fmt::Result {
        let module = self.at(self.value.text);
        let clause = match self.value.clause {
            Clause::Import => "import",
            Clause::Export => "export",
        };
        let place = self.at(self.value.span);
        write!(f, "{module}, by an {clause}, at {place}")
    }
}

impl fmt::Display for InText<'_, ExportRow> {
    fn fmt<W: fmt::Write>(&self, f: &mut fmt::Formatter<W>) -> fmt::Result {
        let exported = self.at(self.value.export_name);
        let place = self.at(self.value.span);
        match self.value.request {
            Some(request) => {
                let what = self.at(self.value.import_name);
                let module = self.at(request.text);
                write!(f, "{exported}: {what} of {module}, at {place}")
            }
            None => {
                let local = self.at(self.value.local);
                write!(f, "{exported}: {local}, at {place}")
            }
        }
    }
}

// What an export is called.
impl fmt::Display for InText<'_, ExportName> {
    fn fmt<W: fmt::Write>(&self, f: &mut fmt::Formatter<W>) -> fmt::Result {
        match self.value {
            ExportName::Name(name) => self.at(name.text).fmt(f),
            ExportName::Default(_) => f.write_str("the default"),
            ExportName::Absent => f.write_str("without a name"),
        }
    }
}

// What an export takes from another module.
impl fmt::Display for InText<'_, ExportImport> {
    fn fmt<W: fmt::Write>(&self, f: &mut fmt::Formatter<W>) -> fmt::Result {
        match self.value {
            ExportImport::Name(name) => self.at(name.text).fmt(f),
            ExportImport::Default(_) => f.write_str("the default"),
            ExportImport::All => f.write_str("the namespace"),
            ExportImport::AllButDefault => f.write_str("all but the default"),
            ExportImport::Absent => f.write_str("nothing"),
        }
    }
}

// What an export is in its own module.
impl fmt::Display for InText<'_, LocalName> {
    fn fmt<W: fmt::Write>(&self, f: &mut fmt::Formatter<W>) -> fmt::Result {
        match self.value {
            LocalName::Name(name) => {
                let name = self.at(name.text);
                write!(f, "the local {name}")
            }
            LocalName::Default(name) => {
                let name = self.at(name.text);
                write!(f, "the value of {name}")
            }
            LocalName::Absent => f.write_str("a value without a name"),
        }
    }
}

impl fmt::Display for InText<'_, Fault> {
    fn fmt<W: fmt::Write>(&self, f: &mut fmt::Formatter<W>) -> fmt::Result {
        let kind = self.value.kind;
        let number = u8::from(kind);
        let first = self.at(self.value.first);
        write!(f, "{number}: {kind}")?;
        match (kind, self.value.second) {
            (FaultKind::BlankPage | FaultKind::Full, _) => Ok(()),
            (FaultKind::SeveralDefaults, _) => write!(f, ", one at {first}"),
            (_, Some(last)) => {
                let last = self.at(last);
                write!(f, ", at {first} and last at {last}")
            }
            (_, None) => write!(f, ", at {first}"),
        }
    }
}

impl fmt::Display for InText<'_, Refusal> {
    fn fmt<W: fmt::Write>(&self, f: &mut fmt::Formatter<W>) -> fmt::Result {
        let page = self.value.page;
        let fault = self.at(self.value.fault);
        write!(f, "page {page} is, with {fault}")
    }
}
