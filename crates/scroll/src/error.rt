// The errors of reads and writes.
ghost use Rattle.std.specs.Prelude.{◌≡◌, ◌≤◌, ◌<◌, OnOk, IfErr};
ghost use Rattle.scroll.specs.declared.error.Error.TheVariants.{IO, TooBig};

use std::{fmt, io, result};

/// Why a read or a write failed.
///
/// No error allocates memory except [`Custom`](Error::Custom), whose creator allocates its text.
#[derive(Debug, Drop)]
pub enum Error {
    /// A value of `size` bytes doesn't fit the `len` bytes that are left. For a truncated number in
    /// LEB128, these are 1 and 0.
    TooBig { size: usize, len: usize },
    /// This offset, in bytes, is past the end.
    BadOffset(usize),
    /// The bytes are not a valid value; `msg` says why. The type that was read, or
    /// [`CString::new`](crate::cstr::CString::new), says what `size` counts.
    BadInput { size: usize, msg: &'static str },
    /// A message of a caller's own type.
    Custom(String),
    /// An error of a stream.
    IO(io::Error),
    /// An allocation failed.
    NoMemory,
}

/// The result of a call whose error is [`Error`].
pub type Result<T> = result::Result<T, Error>;

/// Checks that `len` bytes are enough for a value of `size` bytes, and returns [`Error::TooBig`]
/// with the two numbers where they are not.
///
/// After one such check, [`Cread`](crate::Cread) and [`Cwrite`](crate::Cwrite) return no error.
///
/// ```rust
/// let file: &[u8] = &[2, 1, 0, 0, 0, 0, 0, 0];
/// check_room(8, file.len())?;
/// assert_eq!(rt; file.cread_with::<u16>(0, LE), 258);
/// assert!(rt; matches!(&check_room(8, 7), Err(Error::TooBig { size: 8, len: 7 })));
/// ```
#[inline]
pub fn check_room(size: usize, len: usize) -> Result<()>
    ensures enough { OnOk result (size ≤ len) }
    ensures short { IfErr result (λ e. (len < size) × (e ≡ TooBig size len)) }
{
    if len < size {
        return Err(Error::TooBig { size, len });
    }
    Ok(())
}

impl fmt::Display for Error {
    ghost use Rattle.scroll.specs.Errors.{line_of};

    ghost output = { line_of };

    fn fmt<W: fmt::Write>(&self, f: &mut fmt::Formatter<W>) -> fmt::Result {
        match self {
            Error::TooBig { size, len } => write!(f, "type is too big ({size}) for {len}"),
            Error::BadOffset(offset) => write!(f, "bad offset {offset}"),
            Error::BadInput { size, msg } => write!(f, "bad input {msg} ({size})"),
            Error::Custom(text) => f.write_str(text),
            Error::IO(error) => write!(f, "{error}"),
            Error::NoMemory => f.write_str("out of memory"),
        }
    }
}

impl std::error::Error for Error {}

impl From<io::Error> for Error {
    ghost from_gives = { λ fault e. e ≡ IO fault };

    /// Wraps the error of a stream as [`Error::IO`].
    fn from(fault: io::Error) -> Error {
        Error::IO(fault)
    }
}
