// The errors of reads and writes of bytes, in few bytes.
ghost use Rattle.std.specs.Prelude.{◌≡◌};
ghost use Rattle.scroll_formats.specs.SmallErrors.{small_error, IsErrorOf};

use crate::located::At;
use scroll::Error;
use std::{fmt, io};

/// Why a read or a write of bytes failed: [`Error`] without what owns memory or comes from a
/// stream, in at most 32 bytes.
///
/// A function that returns it has less to write back: `?` converts the error of each call. The
/// first three variants have the fields and the printed lines of [`Error`]'s.
#[derive(Clone, Copy, Debug, PartialEq, Eq)]
pub enum SmallError {
    /// As [`Error::TooBig`].
    TooBig { size: usize, len: usize },
    /// As [`Error::BadOffset`].
    BadOffset(usize),
    /// As [`Error::BadInput`].
    BadInput { size: usize, msg: &'static str },
    /// A caller's own message, an error of a stream, or an allocation that failed.
    Other,
}

impl fmt::Display for SmallError {
    ghost use Rattle.scroll_formats.specs.SmallErrors.{small_line_of};

    ghost output = { small_line_of };

    fn fmt<W: fmt::Write>(&self, f: &mut fmt::Formatter<W>) -> fmt::Result {
        match self {
            SmallError::Other => f.write_str("other error"),
            small => write!(f, "{}", Error::from(*small)),
        }
    }
}

impl std::error::Error for SmallError {}

impl From<Error> for SmallError {
    ghost from_gives = { λ error small. small ≡ small_error error };

    /// Returns the variant of the same name, and [`SmallError::Other`] for the errors that have
    /// none.
    #[inline]
    fn from(error: Error) -> SmallError {
        match &error {
            Error::TooBig { size, len } => SmallError::TooBig {
                size: *size,
                len: *len,
            },
            Error::BadOffset(offset) => SmallError::BadOffset(*offset),
            Error::BadInput { size, msg } => SmallError::BadInput {
                size: *size,
                msg: *msg,
            },
            Error::Custom(_) => SmallError::Other,
            Error::IO(_) => SmallError::Other,
            Error::NoMemory => SmallError::Other,
        }
    }
}

impl From<SmallError> for Error {
    ghost from_gives = { IsErrorOf };

    /// Returns the variant of the same name with the same fields. [`SmallError::Other`] becomes an
    /// [`Error::IO`] of the kind `Other`, which prints the same line.
    fn from(small: SmallError) -> Error {
        match small {
            SmallError::TooBig { size, len } => Error::TooBig { size, len },
            SmallError::BadOffset(offset) => Error::BadOffset(offset),
            SmallError::BadInput { size, msg } => Error::BadInput { size, msg },
            SmallError::Other => Error::IO(io::Error::from(io::ErrorKind::Other)),
        }
    }
}

/// Keeps the offset.
impl From<At<Error>> for At<SmallError> {
    ghost from_gives = { λ located small.
        (small.offset ≡ located.offset) × (small.error ≡ small_error located.error) };

    #[inline]
    fn from(located: At<Error>) -> At<SmallError> {
        At {
            offset: located.offset,
            error: SmallError::from(located.error),
        }
    }
}

/// Drops the offset.
impl From<At<SmallError>> for SmallError {
    ghost from_gives = { λ located small. small ≡ located.error };

    #[inline]
    fn from(located: At<SmallError>) -> SmallError {
        located.error
    }
}
