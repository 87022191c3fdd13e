//! Replays vectors: modules with the answers that the library has to give, held against those that it gives.
#![tactic(auto)]

mod block;
mod difference;
mod ends;
mod error;
mod fields;
mod hex;
mod input;
mod items;
mod lines;
mod lists;
mod page_lines;
mod replay;
mod tally;
mod tokens;
mod words;

use crate::error::ReplayError;
use crate::replay::replay_file;
use crate::tally::Tally;
use std::env;

const HELP: &str = "\
usage: replay FILE..

Reads the modules of each vector file FILE, or of standard input where FILE is -, and
compares what the library makes of a module's bytes and text, and of its pages, with the
lines of its block.
Says for each file how many modules agree and of what, and shows the first that do not.
The status is 1 where one does not agree, and where a line cannot be read.";

// The error that ends the program is printed as `anyhow` keeps it: a message of more than 120 bytes is cut, and ends
// with three dots.
fn main(rt: HostRuntime) -> anyhow::Result<()> {
    let names: Vec<String> = env::args(&rt)?.skip(1).collect(rt.alloc())?;
    if names.is_empty() {
        println!(rt; "{HELP}")?;
        return Err(ReplayError::NoFile.into());
    }
    let mut total = Tally::default();
    for name in &names {
        let tally = replay_file(&rt, name.as_str())?;
        println!(rt; "{name}: {tally}")?;
        total += tally;
    }
    println!(rt; "total: {total}")?;
    if total.differences() == 0 {
        Ok(())
    } else {
        Err(ReplayError::Differs.into())
    }
}
