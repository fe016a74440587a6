// Writes of an index.
ghost use Rattle.std.specs.Prelude.{◌≡◌, IfOk, IfErr, OnOk, length};
ghost use Rattle.scroll.specs.Bytes.{WritesPrefix};
ghost use Rattle.git_index.specs.Indexes.{IsIndex, index_bytes, RefusesWrite};

use crate::SIGNATURE;
use crate::entry::Entry;
use crate::header::Header;
use scroll::{BE, Error};
use scroll_layouts::{Field, Part, Run, write_list};

/// Why writing an index failed.
#[derive(Debug, Drop)]
pub enum WriteError {
    /// The number of entries, which doesn't fit 32 bits.
    TooMany(usize),
    /// The target is shorter than the index: its size and that of the target.
    Short(Error),
}

/// Writes the header of an index and its entries to the start of a target, and returns their size.
/// The target then reads as an index of these entries. On an error it is unchanged.
///
/// In a file the SHA-1 of these bytes follows.
pub fn write_index<'a>(target: &mut [u8], entries: &[Entry<'a>]) -> Result<usize, WriteError>
    ensures wrote { IfOk result (WritesPrefix (length
        (index_bytes (⟦<Entry<'a> as Part<(), Error>>⟧.format tt) entries.now))
        (index_bytes (⟦<Entry<'a> as Part<(), Error>>⟧.format tt) entries.now) target.old
        target.new) }
    ensures again { OnOk result (IsIndex (⟦<Entry<'a> as Part<(), Error>>⟧.format tt) target.new
        entries.now) }
    ensures refused { IfErr result (RefusesWrite (⟦<Entry<'a> as Part<(), Error>>⟧.format tt)
        entries.now target.old target.new) }
{
    let Ok(count) = u32::try_from(entries.len()) else {
        return Err(WriteError::TooMany(entries.len()));
    };
    let header = Header {
        signature: SIGNATURE,
        version: 2,
        count,
    };
    match write_list::<(), (), Error, Run<Field<Header>>, Entry<'a>>(
        &Run(Field(header)),
        entries,
        target,
        BE,
        &(),
        &(),
    ) {
        Ok(size) => Ok(size),
        Err(error) => Err(WriteError::Short(error)),
    }
}
