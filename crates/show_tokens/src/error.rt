//! Why token files are not shown, or not all of them. A reason is a part of the message, as no error of the kit has a
//! source to print.
use std::alloc::AllocError;
use std::io;
use thiserror::Error;

#[derive(Debug, Drop, Error)]
pub enum ShowError {
    #[error("no token file was named")]
    NoTokens,
    #[error("a token file was named without its text file")]
    NoText,
    #[error("cannot read {path}: {reason}")]
    Unread { path: String, reason: io::Error },
    #[error(transparent)]
    Output(#[from] io::Error),
    #[error(transparent)]
    Memory(#[from(alloc)] AllocError),
}
