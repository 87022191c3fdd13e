//! Takes token files apart: every token, and where and why each list of tokens ends.
#![tactic(auto)]

mod error;
mod show;

use crate::error::ShowError;
use crate::show::show;
use std::env;

const HELP: &str = "\
usage: show_tokens TOKENS TEXT [TOKENS TEXT]..

Prints the tokens of each token file TOKENS over its text file TEXT, a line each:
number, place, start, end, marks (n new line, e escaped, l lone), kind, text.
Then it says how many tokens there are, and whether the list ends at an Eof, at the
end of the bytes, or at a bad record, which rule that breaks, and at which byte.";

// The error that ends the program is printed as `anyhow` keeps it: a message of more than 120 bytes is cut, and ends
// with three dots.
// The command line is read as it stands: what clap makes of one has another help text, and other texts where a file is
// missing.
fn main(rt: HostRuntime) -> anyhow::Result<()> {
    let words: Vec<String> = env::args(&rt)?.skip(1).collect(rt.alloc())?;
    if words.is_empty() {
        println!(rt; "{HELP}")?;
        return Err(ShowError::NoTokens.into());
    }
    for pair in words.chunks(2) {
        match pair {
            [only] if only.as_str() == "--help" => println!(rt; "{HELP}")?,
            [tokens, text] => show(&rt, tokens.as_str(), text.as_str())?,
            _ => return Err(ShowError::NoText.into()),
        }
    }
    Ok(())
}
