// Errors with the offset at which they occurred.
ghost use Rattle.std.specs.Prelude.{◌≡◌, IfOk, IfErr, Ok, Err};

use scroll::Error;
use std::result::Result;

/// An error, and the offset in bytes at which it occurred.
#[derive(Debug, Drop)]
pub struct At<E> {
    /// The offset in bytes.
    pub offset: usize,
    /// The error that occurred there.
    pub error: E,
}

/// Drops the offset.
impl From<At<Error>> for Error {
    ghost from_gives = { λ located e. e ≡ located.error };

    fn from(located: At<Error>) -> Error {
        located.error
    }
}

/// Adds an offset to an error: `file.gread_with(&mut offset, LE).at(offset)?`.
pub trait LocateError<T, E>: Sized {
    // Holds of a result and its value.
    ghost has_value: { Self → T → Type 0 };

    // Holds of a result and its error.
    ghost has_error: { Self → E → Type 0 };

    /// Returns the value, or the error together with `offset`.
    ///
    /// After a failed call with a cursor, the cursor is the offset at which the value that failed
    /// should start:
    ///
    /// ```rust
    /// let file: &[u8] = &[1, 2, 3];
    /// let mut offset = 2;
    /// let refused = file.gread_with::<u16>(&mut offset, LE).at(offset).err();
    /// assert!(rt; matches!(&refused, Some(At { offset: 2, error: Error::TooBig { .. } })));
    /// ```
    fn at(self, offset: usize) -> Result<T, At<E>>
        ensures value { IfOk result (λ x. has_value self x) }
        ensures error { IfErr result (λ located. has_error self located.error) }
        ensures offset { IfErr result (λ located. located.offset ≡ offset) };
}

impl<T, E> LocateError<T, E> for Result<T, E> {
    ghost has_value = { λ r x. r ≡ Ok x };

    ghost has_error = { λ r e. r ≡ Err e };

    #[inline]
    fn at(self, offset: usize) -> Result<T, At<E>> {
        match self {
            Ok(value) => Ok(value),
            Err(error) => Err(At { offset, error }),
        }
    }
}
