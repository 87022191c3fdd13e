//! What stops a replay.
use pages::table::Full;
use std::alloc::AllocError;
use std::io;
use std::num::ParseIntError;
use thiserror::Error;

/// Why the program stops. A reason is a part of the message, as no error of the kit has a source to print.
#[derive(Debug, Drop, Error)]
pub enum ReplayError {
    #[error("no vector file was named")]
    NoFile,
    #[error("cannot read {name}: {error}")]
    Unread {
        name: String,
        error: io::Error,
    },
    #[error("{name}, line {line}: {error}")]
    Block {
        name: String,
        line: usize,
        error: BlockError,
    },
    #[error("{name} has no module")]
    NoModule {
        name: String,
    },
    #[error("the library does not agree with the vectors")]
    Differs,
    #[error(transparent)]
    Output(#[from] io::Error),
    #[error(transparent)]
    Memory(#[from(alloc)] AllocError),
}

/// Why a block cannot be replayed.
#[derive(Debug, Drop, Error)]
pub enum BlockError {
    /// of its lines
    #[error("the block ends too early")]
    EarlyEnd,
    #[error("a block has another line here")]
    OtherLine,
    #[error("the block has no line `end`")]
    NoEnd,
    /// of fields
    #[error("a line has too few fields")]
    FewFields,
    #[error("a line has too many fields")]
    ManyFields,
    #[error(transparent)]
    Number(#[from] ParseIntError),
    #[error("a flag is 0 or 1")]
    NoFlag,
    #[error("a span has a start and an end")]
    NoSpan,
    #[error("a field is empty")]
    EmptyField,
    #[error("an odd count of hexadecimal digits")]
    OddDigits,
    #[error("a byte that is no lower-case hexadecimal digit")]
    NoDigit,
    /// of a module and its tokens
    #[error("a module has a name and a class")]
    NoClass,
    #[error("more JavaScript than text")]
    LongScript,
    #[error("a bad record has an offset and the rules that it breaks")]
    NoRules,
    #[error("no such rule of a record")]
    NoRule,
    /// of pages
    #[error("no such kind of a page")]
    NoPageKind,
    #[error("no such phase")]
    NoPhase,
    #[error("no such name of a default")]
    NoDefaultName,
    #[error("no such specifier")]
    NoSpecifier,
    #[error("attributes follow `with` or `assert`")]
    NoAttributes,
    #[error("no such fault of a page")]
    NoPageFault,
    #[error("a fault is of another layer")]
    OtherLayer,
    #[error("a page has more rows than it holds")]
    FullPage(#[from] Full),
    /// of the program's own work
    #[error(transparent)]
    Output(#[from] io::Error),
    #[error(transparent)]
    Memory(#[from(alloc)] AllocError),
}
