// Why a text gives no value.
ghost use Rattle.std.specs.Prelude.{◌≡◌, Some, alloc_error};
ghost use Rattle.scripts.specs.declared.error.ParseError.TheVariants.{OutOfMemory};
ghost use Rattle.scripts.specs.Reading.{error_text};

use std::alloc::{AllocError, AllocFailed};
use std::error::Error;
use std::fmt;

// An error of memory goes on as it came.
#[derive(Debug, Clone, Copy)]
pub enum ParseError {
    NotUnderstood,
    OutOfMemory(AllocError),
}

impl fmt::Display for ParseError {
    ghost output = { λ e. Some (error_text e) };

    fn fmt<W: fmt::Write>(&self, f: &mut fmt::Formatter<W>) -> fmt::Result {
        match self {
            ParseError::NotUnderstood => write!(f, "not understood"),
            ParseError::OutOfMemory(_) => write!(f, "out of memory"),
        }
    }
}

impl Error for ParseError {}

impl From<AllocError> for ParseError {
    ghost from_gives = { λ a e. e ≡ OutOfMemory a };

    fn from(error: AllocError) -> ParseError {
        ParseError::OutOfMemory(error)
    }
}

impl<T: Drop> From<AllocFailed<T>> for ParseError {
    ghost from_gives = { λ _ e. e ≡ OutOfMemory alloc_error };

    fn from(failed: AllocFailed<T>) -> ParseError {
        ParseError::OutOfMemory(AllocError::from(failed))
    }
}
