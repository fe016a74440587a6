//! The bytes of the input.
ghost use Rattle.std.specs.Prelude.{◌≡◌, ◌≤◌, ◌<◌, ◌++◌, IfOk, IfErr, OnOk, OnErr, vec_len};
ghost use Rattle.std.specs.Io.KnownBytes.{Consumes, IsAtEnd};
ghost use Rattle.scroll_run.specs.Input.{EndsReading};
ghost use Rattle.scroll_run.specs.declared.input.ReadError.TheVariants.{NoMemory};

use crate::memory::Memory;
use std::alloc::AllocError;
use std::io;
use std::io::{ErrorKind, Read};

/// The maximum number of bytes that are read: one more than an input may have.
pub const MAX_READ: usize = 65_537;

// The maximum number of calls of the reader.
const MAX_CALLS: usize = 131_072;

// The number of bytes that one call of the reader asks for.
const CHUNK: usize = 4096;

/// Why reading the input failed.
#[derive(Drop)]
pub enum ReadError {
    /// There was no memory for the bytes.
    NoMemory,
    /// The error of the reader, or too many calls.
    Io(io::Error),
}

impl From<AllocError> for ReadError {
    ghost from_gives = { λ _ e. e ≡ NoMemory };

    fn from(_error: AllocError) -> ReadError {
        ReadError::NoMemory
    }
}

/// Reads the input up to its end, but at most its first [`MAX_READ`] bytes.
///
/// An interrupted call of the reader is repeated. After too many calls, it returns an error of kind
/// `Other`.
pub fn read_input<M: Memory, R: Read>(memory: M, input: &mut R) -> Result<Vec<u8>, ReadError>
    ensures bound { IfOk result (λ bytes. vec_len bytes ≤ 65537) }
    ensures taken { IfOk result (λ bytes.
        Consumes (R.remaining input.old) (R.remaining input.new) bytes.items) }
    ensures whole { IfOk result (λ bytes. vec_len bytes < 65537 → IsAtEnd (R.remaining input.new)) }
    ensures refused { IfErr result (EndsReading (M.refuses memory)) }
{
    let mut bytes = Vec::new(memory.alloc());
    let mut chunk = [0u8; CHUNK];
    for _ in 0..MAX_CALLS {
        let room = (MAX_READ - bytes.len()).min(CHUNK);
        match input.read(&mut chunk[..room]) {
            Ok(0) => return Ok(bytes),
            Ok(count) => {
                append(memory, &mut bytes, &chunk[..count])?;
                if bytes.len() == MAX_READ {
                    return Ok(bytes);
                }
            }
            Err(e) if e.kind() == ErrorKind::Interrupted => {}
            Err(e) => return Err(ReadError::Io(e)),
        }
    }
    Err(ReadError::Io(io::Error::from(ErrorKind::Other)))
}

// Appends the bytes.
fn append<M: Memory>(memory: M, bytes: &mut Vec<u8>, more: &[u8]) -> Result<(), AllocError>
    ensures items { OnOk result (bytes.new.items ≡ bytes.old.items ++ more.now) }
    ensures refused { OnErr result (M.refuses memory) }
{
    memory.reserve(bytes, more.len())?;
    bytes.extend_from_slice(more)
}
