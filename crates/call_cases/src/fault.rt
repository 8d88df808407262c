// Why a line has no answer.
use std::alloc::AllocError;
use std::num::{ParseIntError, TryFromIntError};
use std::str::Utf8Error;
use thiserror::Error;

#[derive(Debug, Drop, Error)]
pub enum Fault {
    // The line is none of the format.
    #[error("unreadable")]
    Unreadable,
    #[error("unreadable")]
    Text(#[from] Utf8Error),
    #[error("unreadable")]
    Digits(#[from] ParseIntError),
    // A number too large for its place.
    #[error("unreadable")]
    Range(#[from] TryFromIntError),
    #[error(transparent)]
    Memory(#[from(alloc)] AllocError),
}
