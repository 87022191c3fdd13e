//! One token file, line by line.
use crate::error::ShowError;
use lexer::entry::{Broken, Ending};
use lexer::file::TokenFile;
use lexer::placed::Placed;
use lexer::record::RECORD_BYTES;
use lexer::walk::walk;
use std::str::from_utf8;
use std::{fmt, fs};

/// Prints the tokens of a file and where their list ends.
pub fn show(rt: &HostRuntime, tokens_path: &str, text_path: &str) -> Result<(), ShowError> {
    let bytes = read(rt, tokens_path)?;
    let text = read(rt, text_path)?;
    let file = TokenFile::new(bytes.as_slice(), text.as_slice());
    let all = walk(rt.alloc(), &file)?;
    println!(rt; "{tokens_path}, with its text in {text_path}")?;
    for (number, placed) in all.iter().enumerate() {
        let Placed { place, token } = *placed;
        let kind = token.kind;
        let start = token.span.start;
        let end = token.span.end;
        let line = mark('n', token.new_line);
        let escaped = mark('e', token.escaped);
        let lone = mark('l', token.lone);
        let name = Quoted(token.text.of(text.as_slice()));
        println!(rt;
            "{number:>5} {place:>6} {start:>7} {end:>7} {line}{escaped}{lone} {kind:?} {name}"
        )?;
    }
    let count = all.len();
    let size = bytes.len();
    let end = End(file.ending());
    println!(rt; "{count} tokens in {size} bytes; the list ends {end}.")?;
    println!(rt; "")?;
    Ok(())
}

fn read(rt: &HostRuntime, path: &str) -> Result<Vec<u8>, ShowError> {
    fs::read(rt, path).try_map_err(|reason| {
        let path = path.to_string(rt.alloc())?;
        Ok(ShowError::Unread { path, reason })
    })
}

// The letter of a mark, or a dot where a token has it not.
fn mark(letter: char, is_set: bool) -> char {
    if is_set { letter } else { '.' }
}

// A token's text in quotes, with escapes; bytes that are no UTF-8 as hexadecimal numbers.
#[derive(Clone, Copy)]
struct Quoted<'a>(&'a [u8]);

impl fmt::Display for Quoted<'_> {
    fn fmt<W: fmt::Write>(&self, f: &mut fmt::Formatter<W>) -> fmt::Result {
        match from_utf8(self.0) {
            Ok(text) => write!(f, "{text:?}"),
            Err(_) => write_bytes(f, self.0),
        }
    }
}

// Writes bytes in quotes, each as a hexadecimal number.
fn write_bytes<W: fmt::Write>(f: &mut fmt::Formatter<W>, bytes: &[u8]) -> fmt::Result {
    write!(f, "\"")?;
    for byte in bytes {
        write!(f, "\\x{byte:02x}")?;
    }
    write!(f, "\"")
}

// Where the list of a token file ends, in words: at a byte, where the library has the number of an entry, of a table's
// rows too.
#[derive(Clone, Copy)]
struct End(Ending);

impl fmt::Display for End {
    fn fmt<W: fmt::Write>(&self, f: &mut fmt::Formatter<W>) -> fmt::Result {
        let place = self.0.entry().saturating_mul(RECORD_BYTES);
        match self.0 {
            Ending::AtEof(_) => write!(f, "at an Eof, in the record at byte {place}"),
            Ending::AtEnd(_) => write!(f, "at the end of the bytes"),
            Ending::AtBad(_, broken) => {
                let rule = u8::from(broken);
                let words = Rule(broken);
                write!(
                    f,
                    "at a bad record, at byte {place}, by rule {rule}: {words}"
                )
            }
        }
    }
}

// What a bad record has wrong, in words that are a token file's: the library's rules are those of a table's rows too,
// where an end may lie before its start.
#[derive(Clone, Copy)]
struct Rule(Broken);

impl fmt::Display for Rule {
    fn fmt<W: fmt::Write>(&self, f: &mut fmt::Formatter<W>) -> fmt::Result {
        match self.0 {
            Broken::CutShort => write!(f, "it has fewer than {RECORD_BYTES} bytes"),
            Broken::NoKind => write!(f, "its kind is beyond At, 168"),
            Broken::OtherMark => write!(f, "it has a mark bit besides 1, 2 and 4"),
            Broken::BadEnd => write!(f, "it ends past 4,294,967,295"),
            Broken::OutsideText => write!(f, "its text lies outside the text file"),
        }
    }
}
