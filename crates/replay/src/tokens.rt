//! The token list of a module, from both token sources, as the lines of a vector.
ghost use Rattle.std.specs.Prelude.{◌≡◌, length, IfOk, string_bytes};
ghost use Rattle.lexer.specs.Entries.{listed, ending_of, row_entries};
ghost use Rattle.lexer.specs.Records.{entries};
ghost use Rattle.replay.specs.Shown.{marks, token_line, placed_lines, list_lines};

use crate::ends::found_end;
use lexer::entry::Ending;
use lexer::file::TokenFile;
use lexer::placed::Placed;
use lexer::records::{ESCAPED, LONE, NEW_LINE};
use lexer::source::Source;
use lexer::table::TokenTable;
use lexer::token::{Part, Span, Token};
use lexer::walk::{Tokens, walk};
use std::alloc::{AllocError, Global};

/// The lines of the token list that a token file means. The bytes and the text go to it as they came.
pub fn file_lines(heap: Global, bytes: &[u8], text: &[u8]) -> Result<String, AllocError>
    ensures { IfOk result (λ s. string_bytes s ≡ list_lines (listed (entries (length text.now) bytes.now)) (ending_of (entries (length text.now) bytes.now))) }
{
    let file = TokenFile::new(bytes, text);
    let ending = file.ending();
    list_lines(heap, &file, ending)
}

/// The lines of the same list from a table whose rows are the file's tokens. None where the list ends with a bad record.
pub fn table_lines(heap: Global, bytes: &[u8], text: &[u8]) -> Result<Option<String>, AllocError> {
    let file = TokenFile::new(bytes, text);
    let mut rows = rows_of(heap, &file)?;
    match file.ending() {
        Ending::AtBad(_, _) => return Ok(None),
        Ending::AtEof(_) => rows.push(Token::ended())?,
        Ending::AtEnd(_) => {}
    }
    Ok(Some(row_lines(heap, rows.as_slice(), text)?))
}

// The lines of the token list that the rows mean. As those of a file: where its list ends is asked of each kind of
// source itself, as no function of every source.
fn row_lines(heap: Global, rows: &[Token], text: &[u8]) -> Result<String, AllocError>
    ensures { IfOk result (λ s. string_bytes s ≡ list_lines (listed (row_entries (length text.now) rows.now)) (ending_of (row_entries (length text.now) rows.now))) }
{
    let table = TokenTable::new(rows, text);
    let ending = table.ending();
    list_lines(heap, &table, ending)
}

// The tokens of a source without their places.
fn rows_of<S: Source>(heap: Global, source: &S) -> Result<Vec<Token>, AllocError> {
    Tokens::of(source).map(|placed| placed.token).collect(heap)
}

// A line for each token of a source, and one for where its list ends.
#[tactic(auto, using(crate::proofs::Listing::placed_lines_lem))]
fn list_lines<S: Source>(heap: Global, source: &S, ending: Ending) -> Result<String, AllocError>
    ensures { IfOk result (λ s. string_bytes s ≡ list_lines (S.Source.tokens source.now) ending) }
{
    let tokens = walk(heap, source)?;
    let mut lines = token_lines(heap, tokens.as_slice())?;
    let end = found_end(heap, ending)?;
    lines.push_str(end.as_str())?;
    Ok(lines)
}

// A line for each token.
fn token_lines(heap: Global, tokens: &[Placed]) -> Result<String, AllocError>
    ensures { IfOk result (λ s. string_bytes s ≡ placed_lines tokens.now) }
{
    let mut lines = String::new(heap);
    for placed in tokens {
        let line = token_line(heap, placed.token)?;
        lines.push_str(line.as_str())?;
    }
    Ok(lines)
}

// A token as a line: kind, span, part, marks.
fn token_line(heap: Global, token: Token) -> Result<String, AllocError>
    ensures { IfOk result (λ s. string_bytes s ≡ token_line token) }
{
    let kind = u8::from(token.kind);
    let Span { start, end } = token.span;
    let Part { place, len } = token.text;
    let marks = marks_of(token);
    format!(in heap; "token {kind} {start}-{end} {place} {len} {marks}\n")
}

// The marks as a number, by the bits of a record.
fn marks_of(token: Token) -> u8
    ensures { result ≡ marks token }
{
    NEW_LINE * u8::from(token.new_line)
        + ESCAPED * u8::from(token.escaped)
        + LONE * u8::from(token.lone)
}
