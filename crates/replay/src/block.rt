//! A block of a vector file: a module and the answers that the library has to give.
ghost use Rattle.std.specs.Prelude.{◌≡◌};

use crate::ends::expected_end;
use crate::error::BlockError;
use crate::fields::{Fields, FromFields};
use crate::hex::bytes_of;
use crate::lines::Lines;
use crate::page_lines::read_page;
use crate::words::layer_of;
use lexer::token::Span;
use pages::fault::Layer;
use pages::page::Page;
use std::alloc::{AllocError, Global};
use std::fmt::Write;

#[derive(Drop)]
pub struct Block<'a> {
    pub name: &'a str,
    pub bytes: Vec<u8>,
    pub text: Vec<u8>,
    /// the lines of its token list, each with its new line, the last saying where the list ends
    pub tokens: String,
    pub outcome: Outcome,
    /// how many lines follow that are not replayed
    pub later: usize,
}

/// What a module comes to.
#[derive(Drop)]
pub enum Outcome {
    /// reading stopped
    Stopped,
    /// reading stopped at a page that the record refuses
    Refused,
    Read(Answer),
}

impl Outcome {
    // How many of its lines are not replayed: the line of a stop.
    fn later(&self) -> usize {
        match self {
            Outcome::Stopped | Outcome::Refused => 1,
            Outcome::Read(_) => 0,
        }
    }
}

/// What the block of a module that is read to its end has.
#[derive(Drop)]
pub struct Answer {
    pub pages: Vec<Page>,
    /// how many lines the pages have
    pub page_lines: usize,
    /// the lines of the record, each with its new line
    pub record: String,
}

/// A reader of a block.
#[derive(Drop)]
pub struct Reader<'a> {
    heap: Global,
    lines: Lines<'a>,
}

impl<'a> Reader<'a> {
    pub fn new(heap: Global, text: &'a str) -> Reader<'a> {
        Reader {
            heap,
            lines: Lines::new(text),
        }
    }

    /// The number of the line that was taken last, from 1.
    pub fn line(&self) -> usize
        ensures { result ≡ self.now.lines.taken }
    {
        self.lines.number()
    }

    /// Takes the lines of a block, from `module` to `end`.
    pub fn block(&mut self) -> Result<Block<'a>, BlockError> {
        let head = self.lines.fields("module")?;
        let (name, _) = head.split_once(' ').ok_or(BlockError::NoClass)?;
        let bytes = bytes_of(self.heap, self.lines.fields("bytes")?)?;
        let text = bytes_of(self.heap, self.lines.fields("text")?)?;
        self.pass_js(text.len())?;
        let tokens = self.tokens()?;
        let asked = self.lines.starting("ask").count();
        let outcome = self.outcome()?;
        let ruled = self.lines.starting("rule").count();
        self.pass_end()?;
        let later = asked.saturating_add(outcome.later()).saturating_add(ruled);
        Ok(Block {
            name,
            bytes,
            text,
            tokens,
            outcome,
            later,
        })
    }

    // Takes the line `js`, if there is one: how many bytes of the text are JavaScript.
    fn pass_js(&mut self, size: usize) -> Result<(), BlockError> {
        match self.lines.fields_if("js") {
            Some(field) if field.parse::<usize>()? > size => Err(BlockError::LongScript),
            _ => Ok(()),
        }
    }

    // Takes the lines `token` and the line `ends`.
    fn tokens(&mut self) -> Result<String, BlockError> {
        let mut tokens = String::new(self.heap);
        self.take_lines(&mut tokens, "token")?;
        let end = expected_end(self.heap, self.lines.fields("ends")?)?;
        tokens.push_str(end.as_str())?;
        Ok(tokens)
    }

    // Takes the line `stop`, or the lines of pages and of a record.
    fn outcome(&mut self) -> Result<Outcome, BlockError> {
        if let Some(stop) = self.lines.line_if::<Stop>("stop")? {
            return Ok(Outcome::from(stop));
        }
        let before = self.line();
        let pages = self.pages()?;
        let page_lines = self.line().saturating_sub(before);
        let record = self.record()?;
        Ok(Outcome::Read(Answer {
            pages,
            page_lines,
            record,
        }))
    }

    // Takes the lines of the pages, as many as there are. A loop and no chain, whose steps would each move a page of
    // 11 KB on. No contract says that a page takes a line, so the loop has a bound of its own.
    fn pages(&mut self) -> Result<Vec<Page>, BlockError> {
        let mut pages = Vec::new(self.heap);
        for _ in 0..u64::MAX {
            let Some(head) = self.lines.line_if("page")? else {
                break;
            };
            pages.push(read_page(&mut self.lines, head)?)?;
        }
        Ok(pages)
    }

    // Takes the lines of a record.
    fn record(&mut self) -> Result<String, AllocError> {
        let mut record = String::new(self.heap);
        for word in &RECORD_WORDS {
            self.take_lines(&mut record, word)?;
        }
        Ok(record)
    }

    // Takes the lines that begin with the word, and writes them down.
    fn take_lines(&mut self, taken: &mut String, word: &str) -> Result<(), AllocError> {
        for fields in self.lines.starting(word) {
            writeln!(taken, "{word} {fields}")?;
        }
        Ok(())
    }

    // Takes the line `end`.
    fn pass_end(&mut self) -> Result<(), BlockError> {
        match self.lines.next() {
            Some("end") => Ok(()),
            Some(_) => Err(BlockError::OtherLine),
            None => Err(BlockError::NoEnd),
        }
    }
}

// The words that lines of a record begin with, in the order of the lines.
const RECORD_WORDS: [&str; 9] = [
    "mark",
    "faults",
    "import",
    "request",
    "name",
    "local",
    "indirect",
    "star",
    "closefault",
];

// The layer at which reading stopped, if the library has it.
#[derive(Clone, Copy)]
struct Stop(Option<Layer>);

// A stop: its number, its layer, the host's code, and its place or two.
impl FromFields for Stop {
    fn from_fields(fields: &mut Fields) -> Result<Stop, BlockError> {
        fields.skip::<u32>()?;
        let layer = layer_of(fields.take()?);
        fields.skip::<u32>()?;
        fields.skip::<Span>()?;
        fields.skip::<Option<Span>>()?;
        Ok(Stop(layer))
    }
}

impl From<Stop> for Outcome {
    fn from(Stop(layer): Stop) -> Outcome {
        match layer {
            Some(Layer::Record) => Outcome::Refused,
            _ => Outcome::Stopped,
        }
    }
}
