//! A closed record, in words.
use crate::in_text::InText;
use module_record::all::{Refusal, Refusals, file_all};
use module_record::record::ModuleRecord;
use pages::page::Page;
use std::{fmt, io};

/// Files the pages of a module and prints what they come to.
pub fn show(rt: &HostRuntime, text: &str, pages: &[Page]) -> io::Result<()> {
    let filed = file_all(text.as_bytes(), pages);
    let closed = &filed.record;
    let lists = Lists {
        rt,
        text: text.as_bytes(),
    };
    println!(rt; "{text}")?;
    lists.rows("imports", closed.imports.as_slice(), MANY)?;
    lists.rows("requests", closed.requests.as_slice(), MANY)?;
    lists.rows("local exports", closed.exports.local.as_slice(), MANY)?;
    lists.rows("indirect exports", closed.exports.indirect.as_slice(), MANY)?;
    lists.rows("star exports", closed.exports.star.as_slice(), MANY)?;
    lists.rows("faults", closed.faults.as_slice(), usize::MAX)?;
    lists.refusals(pages, filed.refusals)?;
    let syntax = if closed.module_syntax { "yes" } else { "no" };
    println!(rt; "  module syntax: {syntax}")?;
    println!(rt; "")
}

// How many rows of a list are printed; of faults all.
const MANY: usize = 8;

// Prints lists, with their names out of a text.
#[derive(Clone, Copy)]
struct Lists<'a> {
    rt: &'a HostRuntime,
    text: &'a [u8],
}

impl<'a> Lists<'a> {
    // How many rows there are, and so many of them, the first.
    fn rows<T: Copy>(self, list: &str, rows: &[T], many: usize) -> io::Result<()>
    where
        InText<'a, T>: fmt::Display,
    {
        let count = rows.len();
        println!(self.rt; "  {list}: {count}")?;
        for row in rows.iter().take(many) {
            let row = InText {
                text: self.text,
                value: *row,
            };
            println!(self.rt; "    {row}")?;
        }
        Ok(())
    }

    // How many pages were refused, and each of them with why. Filing them all keeps the first refusal alone, so that
    // they are filed once more, into a record that is let go.
    fn refusals(self, pages: &[Page], refusals: Refusals) -> io::Result<()> {
        let count = refusals.count;
        println!(self.rt; "  pages refused: {count}")?;
        let mut again = ModuleRecord::open();
        for (page, filed) in pages.iter().enumerate() {
            if let Err(fault) = again.file(self.text, filed) {
                let refusal = InText {
                    text: self.text,
                    value: Refusal { page, fault },
                };
                println!(self.rt; "    {refusal}")?;
            }
        }
        Ok(())
    }
}
