//! The line that says where a list of tokens ends.
ghost use Rattle.std.specs.Prelude.{◌≡◌, IfOk, string_bytes};
ghost use Rattle.replay.specs.Rules.{earlier};
ghost use Rattle.replay.specs.Shown.{end_line};

use crate::error::BlockError;
use crate::words::Word;
use lexer::entry::{Broken, Ending};
use lexer::record::RECORD_BYTES;
use std::alloc::{AllocError, Global};

/// The fields of a line `ends`, of several broken rules only the first in the library's order.
pub fn expected_end(heap: Global, fields: &str) -> Result<String, BlockError> {
    let Some(bad) = fields.strip_prefix("bad ") else {
        return Ok(format!(in heap; "ends {fields}\n")?);
    };
    let (offset, words) = bad.split_once(' ').ok_or(BlockError::NoRules)?;
    let word = first_rule(words).ok_or(BlockError::NoRule)?.word();
    Ok(format!(in heap; "ends bad {offset} {word}\n")?)
}

/// The line for where the library says that a list ends.
pub fn found_end(heap: Global, ending: Ending) -> Result<String, AllocError>
    ensures { IfOk result (λ s. string_bytes s ≡ end_line ending) }
{
    let offset = ending.entry().saturating_mul(RECORD_BYTES);
    match ending {
        Ending::AtEof(_) => format!(in heap; "ends eof {offset}\n"),
        Ending::AtEnd(_) => format!(in heap; "ends bytes {offset}\n"),
        Ending::AtBad(_, rule) => {
            let word = rule.word();
            format!(in heap; "ends bad {offset} {word}\n")
        }
    }
}

// The first of the named rules in the library's order; None where a word names none.
fn first_rule(words: &str) -> Option<Broken> {
    words
        .split(' ')
        .map(Broken::named)
        .reduce(earlier)
        .flatten()
}

// Of two rules the one that comes first; None where one is none. The chain could end in `min`: this says by the rules'
// numbers what that is.
fn earlier(one: Option<Broken>, other: Option<Broken>) -> Option<Broken>
    ensures { result ≡ earlier one other }
{
    one.min(other)
}
