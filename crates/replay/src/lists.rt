//! The lists of a module's record, as the lines of a vector.
use crate::items::{Named, Place, ToItem};
use crate::words::Word;
use module_record::closed::ClosedRecord;
use module_record::record::ModuleRecord;
use pages::fault::Fault;
use pages::page::Page;
use record_rules::rows::{ExportRow, ImportRow, NameSpan, RequestRow};
use std::alloc::{AllocError, Global};
use std::fmt::Write;

/// The lines of the record that the pages are filed into, one after the other. A page that it refuses has a line,
/// which no vector has.
pub fn record_lines(heap: Global, text: &[u8], pages: &[Page]) -> Result<String, AllocError> {
    let mut listing = Listing::new(heap, text);
    let mut record = ModuleRecord::open();
    // page by page: filing them all keeps the first refusal alone, and closes the record, whose names are wanted open
    for page in pages {
        if let Err(fault) = record.file(text, page) {
            let number = u8::from(fault.kind);
            writeln!(listing.lines, "refused {number}")?;
        }
    }
    let faults = pages.iter().fold(
        0usize,
        |count, page| count.saturating_add(page.faults.len()),
    );
    let mut names = Listing::new(heap, text);
    names.names(record.names())?;
    let closed = record.close(text);
    let mark = closed.module_syntax;
    writeln!(listing.lines, "mark {mark}\nfaults {faults}")?;
    listing.closed(&closed, names.lines.as_str())?;
    Ok(listing.lines)
}

// Lines of lists, and the text that their names lie in.
#[derive(Drop)]
struct Listing<'a> {
    lines: String,
    text: &'a [u8],
}

impl<'a> Listing<'a> {
    fn new(heap: Global, text: &'a [u8]) -> Listing<'a> {
        Listing {
            lines: String::new(heap),
            text,
        }
    }

    // The lists of a closed record, with the lines of the exported names among them.
    fn closed(&mut self, closed: &ClosedRecord, names: &str) -> Result<(), AllocError> {
        self.imports(closed.imports.as_slice())?;
        self.requests(closed.requests.as_slice())?;
        self.lines.push_str(names)?;
        self.exports("local", closed.exports.local.as_slice())?;
        self.exports("indirect", closed.exports.indirect.as_slice())?;
        self.exports("star", closed.exports.star.as_slice())?;
        self.faults(closed.faults.as_slice())
    }

    fn imports(&mut self, rows: &[ImportRow]) -> Result<(), AllocError> {
        for row in rows {
            let statement = Place(row.statement);
            let request = Named::new(self.text, row.request);
            let taken = row.import_name.item(self.text);
            let local = Named::new(self.text, row.local);
            let phase = row.phase.word();
            writeln!(
                self.lines,
                "import {statement} {request} {taken} {local} {phase}"
            )?;
        }
        Ok(())
    }

    fn requests(&mut self, rows: &[RequestRow]) -> Result<(), AllocError> {
        for row in rows {
            let name = NameSpan {
                text: row.text,
                span: row.span,
            };
            let request = Named::new(self.text, name);
            let statement = Place(row.statement);
            let clause = row.clause.word();
            writeln!(self.lines, "request {request} {statement} {clause}")?;
        }
        Ok(())
    }

    // The exported names.
    fn names(&mut self, rows: &[NameSpan]) -> Result<(), AllocError> {
        for row in rows {
            let name = Named::new(self.text, *row);
            writeln!(self.lines, "name {name}")?;
        }
        Ok(())
    }

    fn exports(&mut self, list: &str, rows: &[ExportRow]) -> Result<(), AllocError> {
        for row in rows {
            let statement = Place(row.statement);
            let span = Place(row.span);
            let request = row.request.item(self.text);
            let import = row.import_name.item(self.text);
            let exported = row.export_name.item(self.text);
            let local = row.local.item(self.text);
            writeln!(
                self.lines,
                "{list} {statement} {span} {request} {import} {exported} {local}"
            )?;
        }
        Ok(())
    }

    fn faults(&mut self, faults: &[Fault]) -> Result<(), AllocError> {
        for fault in faults {
            let number = u8::from(fault.kind);
            let layer = u8::from(fault.layer);
            let first = Place(fault.first);
            write!(self.lines, "closefault {number} {layer} {first}")?;
            if let Some(second) = fault.second {
                let second = Place(second);
                write!(self.lines, " {second}")?;
            }
            writeln!(self.lines)?;
        }
        Ok(())
    }
}
