//! The entries of git's index, version 2, as in git's own documentation `gitformat-index`.
//!
//! An entry says what git saw of a file when it was added: its times, owner and size, the name of
//! the object with its contents, and its path, which need not be UTF-8. The extensions and the
//! checksum after the entries are neither read nor written.
//!
//! ```rust
//! let entries = read_index(rt.alloc(), &file)?;
//! for entry in &entries {
//!     let path = entry.path.to_bytes();
//! }
//! ```
#![tactic(auto)]

ghost use Rattle.std.specs.Prelude.{◌≡◌, IfOk, IfErr, OnOk};
ghost use Rattle.git_index.specs.Entries.{HasEntries};
ghost use Rattle.git_index.specs.Indexes.{IsIndex, RefusesIndex, HasHeader, RefusesHeader, entry_count};
ghost use Rattle.git_index.specs.declared.IndexError.TheVariants.{Short, Refused};

use scroll::{BE, Cread, Error, check_room};
use scroll_formats::{At, read_many};
use scroll_layouts::ReadPart;
use std::alloc::Global;

mod entry;
mod header;
#[cfg(test)]
mod tests;
mod write;

pub use crate::entry::{Entry, Stat};
pub use crate::write::{WriteError, write_index};

/// Why reading an index failed.
#[derive(Debug, Drop)]
pub enum IndexError {
    /// The file is shorter than a header.
    Short(Error),
    /// The file doesn't begin with `DIRC`; these are its first four bytes, big-endian.
    BadSignature(u32),
    /// The version, which isn't 2.
    BadVersion(u32),
    /// An entry that is truncated or malformed, or for which there was no memory, and its offset.
    Refused(At<Error>),
}

impl From<Error> for IndexError {
    ghost from_gives = { λ error e. e ≡ Short error };

    fn from(error: Error) -> IndexError {
        IndexError::Short(error)
    }
}

impl From<At<Error>> for IndexError {
    ghost from_gives = { λ located e. e ≡ Refused located };

    fn from(located: At<Error>) -> IndexError {
        IndexError::Refused(located)
    }
}

const HEADER: usize = 12;

const SIGNATURE: u32 = 0x4449_5243;

// Returns the number of entries, from the header.
fn read_header(file: &[u8]) -> Result<u32, IndexError>
    ensures header { OnOk result (HasHeader file.now) }
    ensures count { IfOk result (λ count. count ≡ entry_count file.now) }
    ensures refused { IfErr result (RefusesHeader file.now) }
{
    check_room(HEADER, file.len())?;
    let signature: u32 = file.cread_with(0, BE);
    if signature != SIGNATURE {
        return Err(IndexError::BadSignature(signature));
    }
    let version: u32 = file.cread_with(4, BE);
    if version != 2 {
        return Err(IndexError::BadVersion(version));
    }
    Ok(file.cread_with(8, BE))
}

/// Reads the entries of an index, in order.
pub fn read_index<'a>(alloc: Global, file: &'a [u8]) -> Result<Vec<Entry<'a>>, IndexError>
    ensures read { IfOk result (λ entries. IsIndex
        (⟦<Entry<'a> as ReadPart<'a, (), Error>>⟧.format tt) file.now entries.items) }
    ensures fields { IfOk result (λ entries. HasEntries file.now entries.items) }
    ensures refused { IfErr result (RefusesIndex
        (⟦<Entry<'a> as ReadPart<'a, (), Error>>⟧.format tt) file.now) }
{
    let count = read_header(file)?;
    let mut offset = HEADER;
    match read_many(alloc, file, &mut offset, count as usize, BE) {
        Ok(entries) => Ok(entries),
        Err(located) => Err(IndexError::Refused(located)),
    }
}
