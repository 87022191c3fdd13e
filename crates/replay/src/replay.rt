//! Vector files, block by block. A part of the answers is lines that the block has, lines that the library's answer is
//! written as, and a score: a further part is read in `Reader::block`, and compared and counted in `Replay::block`.
use crate::block::{Outcome, Reader};
use crate::difference::first_difference;
use crate::error::{BlockError, ReplayError};
use crate::input::next_block;
use crate::lists::record_lines;
use crate::tally::Tally;
use crate::tokens::{file_lines, table_lines};
use std::alloc::AllocError;
use std::fs::File;
use std::io::{BufRead, BufReader};
use std::{fmt, io, iter};

// How many differences of a file are shown.
const SHOWN: usize = 5;

/// Replays a file, or standard input where its name is -.
pub fn replay_file(rt: &HostRuntime, name: &str) -> Result<Tally, ReplayError> {
    let replay = Replay::new(rt, name);
    if name == "-" {
        return replay.blocks(BufReader::new(rt.alloc(), rt.stdin())?);
    }
    let file = File::open(rt, name).try_map_err(|error| replay.unread(error))?;
    replay.blocks(BufReader::new(rt.alloc(), file)?)
}

// A vector file that is replayed, and what has been counted so far.
#[derive(Drop)]
struct Replay<'a> {
    rt: &'a HostRuntime,
    name: &'a str,
    tally: Tally,
}

impl<'a> Replay<'a> {
    fn new(rt: &'a HostRuntime, name: &'a str) -> Replay<'a> {
        Replay {
            rt,
            name,
            tally: Tally::default(),
        }
    }

    // Replays the blocks of an input, of which there has to be one.
    fn blocks<R: BufRead + Drop>(mut self, mut input: R) -> Result<Tally, ReplayError> {
        let heap = self.rt.alloc();
        let blocks = iter::from_fn(|| next_block(heap, &mut input).transpose());
        let mut line = 0usize;
        // as many as there are: a loop over an input, which may never end, wants a bound
        for block in blocks.take(usize::MAX) {
            let text = block.try_map_err(|error| self.unread(error))?;
            let mut reader = Reader::new(heap, text.as_str());
            let replayed = self.block(&mut reader);
            line = line.saturating_add(reader.line());
            replayed.try_map_err(|error| self.stopped(line, error))?;
        }
        if self.tally.modules == 0 {
            let name = self.name()?;
            return Err(ReplayError::NoModule { name });
        }
        Ok(self.tally)
    }

    // The error of an input that cannot be read.
    fn unread(&self, error: io::Error) -> Result<ReplayError, ReplayError> {
        let name = self.name()?;
        Ok(ReplayError::Unread { name, error })
    }

    // The error of a block, with the line at which it came.
    fn stopped(&self, line: usize, error: BlockError) -> Result<ReplayError, ReplayError> {
        let name = self.name()?;
        Ok(ReplayError::Block { name, line, error })
    }

    fn name(&self) -> Result<String, AllocError> {
        String::from_str(self.rt.alloc(), self.name)
    }

    // Reads a block, replays its module, and counts what agrees.
    fn block(&mut self, reader: &mut Reader) -> Result<(), BlockError> {
        let heap = self.rt.alloc();
        let block = reader.block()?;
        self.tally.module(block.later);
        let bytes = block.bytes.as_slice();
        let text = block.text.as_slice();
        let part = |name| Part {
            module: block.name,
            name,
        };
        let found = file_lines(heap, bytes, text)?;
        let agrees = self.compare(part("token list"), block.tokens.as_str(), found.as_str())?;
        self.tally.lists.count(agrees);
        if let Some(found) = table_lines(heap, bytes, text)? {
            let agrees = self.compare(part("token table"), block.tokens.as_str(), found.as_str())?;
            self.tally.tables.count(agrees);
        }
        match &block.outcome {
            Outcome::Stopped => self.tally.stop(),
            Outcome::Refused => self.tally.refuse(),
            Outcome::Read(answer) => {
                let found = record_lines(heap, text, answer.pages.as_slice())?;
                let agrees = self.compare(part("record"), answer.record.as_str(), found.as_str())?;
                self.tally.file(answer.page_lines, agrees);
            }
        }
        Ok(())
    }

    // Whether a part of a module's answers agrees; shows the difference, if it is one of the first.
    fn compare(&self, part: Part, expected: &str, found: &str) -> io::Result<bool> {
        let Some(difference) = first_difference(expected, found) else {
            return Ok(true);
        };
        if self.tally.differences() < SHOWN {
            println!(self.rt; "{part}\n{difference}")?;
        }
        Ok(false)
    }
}

// A part of a module's answers, by the module's name and its own.
#[derive(Clone, Copy)]
struct Part<'a> {
    module: &'a str,
    name: &'static str,
}

impl fmt::Display for Part<'_> {
    fn fmt<W: fmt::Write>(&self, f: &mut fmt::Formatter<W>) -> fmt::Result {
        let Part { module, name } = *self;
        write!(f, "{module}, {name}")
    }
}
