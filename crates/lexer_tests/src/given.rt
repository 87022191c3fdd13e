//! What the tests are given: records, and what a file of them reads as.
use kinds::kind::Kind;
use lexer::entry::Ending;
use lexer::file::TokenFile;
use lexer::record::Record;
use lexer::source::Source;
use lexer::walk::walk;
use std::alloc::{AllocError, Global};

/// An identifier of three bytes at the start of the text `abc`.
pub const NAME: Record = Record {
    kind: 4,
    marks: 0,
    start: 0,
    length: 3,
    place: 0,
    text_length: 3,
};

pub const EOF: Record = Record {
    kind: 0,
    marks: 0,
    start: 0,
    length: 0,
    place: 0,
    text_length: 0,
};

/// The bytes of a file of these records.
pub fn file_of(heap: Global, records: &[Record]) -> Result<Vec<u8>, AllocError> {
    let mut file = Vec::new(heap);
    for record in records {
        write(&mut file, record)?;
    }
    Ok(file)
}

// Writes a record at the end of a file.
fn write(file: &mut Vec<u8>, record: &Record) -> Result<(), AllocError> {
    file.push(record.kind)?;
    file.push(record.marks)?;
    file.extend_from_slice(&record.start.to_le_bytes())?;
    file.extend_from_slice(&record.length.to_le_bytes())?;
    file.extend_from_slice(&record.place.to_le_bytes())?;
    file.extend_from_slice(&record.text_length.to_le_bytes())
}

/// What a file reads as: how many tokens it has, the last one's kind, its ending.
#[derive(Clone, Copy, Debug, PartialEq)]
pub struct Reading {
    pub count: usize,
    pub last: Option<Kind>,
    pub ending: Ending,
}

/// What the bytes read as, over the text `abc`.
pub fn read(heap: Global, bytes: &[u8]) -> Result<Reading, AllocError> {
    let file = TokenFile::new(bytes, b"abc");
    let all = walk(heap, &file)?;
    Ok(Reading {
        count: all.len(),
        last: all.last().map(|placed| placed.token.kind),
        ending: file.ending(),
    })
}
