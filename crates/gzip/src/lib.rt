//! gzip files (RFC 1952): the header of a member with each of its optional parts, and the trailer
//! behind its data. Nothing is compressed or inflated, and no checksum is counted.
//!
//! ```rust
//! let mut offset = 0;
//! let header = read_header(file, &mut offset)?;
//! let trailer = read_trailer(file)?;
//! let data = &file[offset..file.len() - TRAILER];
//! ```
#![tactic(auto)]

ghost use Rattle.std.specs.Prelude.{◌≡◌, ◌+◌, ◌-◌, ◌<◌, IfOk, IfErr, IfSome, OnOk, OnErr, length, drop};
ghost use Rattle.scroll.specs.Errors.{IsBadOffset};
ghost use Rattle.scroll.specs.Numbers.{number};
ghost use Rattle.scroll.specs.Reads.{ReadsBetween, RefusesAt};
ghost use Rattle.scroll.specs.Writes.{WritesAt, RefusesWriteAt};
ghost use Rattle.scroll.specs.declared.endian.Endian.TheVariants.{Little};
ghost use Rattle.scroll.specs.declared.error.Error.TheVariants.{TooBig};

mod member;
#[cfg(test)]
mod tests;

pub use crate::member::{Extra, ExtraField, ExtraFields, Header, Trailer};
use scroll::ctx::{TryFromCtx, TryIntoCtx};
use scroll::{Cread, Endian, LE, Pread, Result, check_room, slice};

/// The size of a trailer.
pub const TRAILER: usize = 8;

/// Reads the header of a member at the cursor, and advances the cursor past it. The bytes between are
/// those by which it is written. On an error the cursor is unchanged.
pub fn read_header<'a>(file: &'a [u8], offset: &mut usize) -> Result<Header<'a>>
    ensures read { IfOk result (ReadsBetween (⟦<Header<'a> as TryFromCtx<'a, Endian>>⟧.reads Little)
        file.now offset.old offset.new) }
    ensures method { IfOk result (λ x. x.method ≡ number Little 1 (drop (offset.old + 2) file.now)) }
    ensures flags { IfOk result (λ x. x.flags ≡ number Little 1 (drop (offset.old + 3) file.now)) }
    ensures modified { IfOk result (λ x. x.modified
        ≡ number Little 4 (drop (offset.old + 4) file.now)) }
    ensures extra_len { IfOk result (λ x. IfSome x.extra (λ extra. extra.len
        ≡ number Little 2 (drop (offset.old + 10) file.now))) }
    ensures refused { IfErr result (RefusesAt
        (⟦<Header<'a> as TryFromCtx<'a, Endian>>⟧.refuses Little) IsBadOffset file.now offset.old) }
    ensures stays { OnErr result (offset.new ≡ offset.old) }
{
    let header: Header<'a> = file.gread_with(offset, LE)?;
    Ok(header)
}

/// Writes the header of a member at the cursor, advances the cursor past it, and returns its size in
/// bytes. It reads back, whatever stands behind it. A header whose flags don't agree with its parts
/// is refused, and one that has no room; then the target and the cursor are unchanged.
pub fn write_header<'a>(target: &mut [u8], offset: &mut usize, header: Header<'a>) -> Result<usize>
    ensures wrote { IfOk result (WritesAt
        (⟦<Header<'a> as TryIntoCtx<Endian>>⟧.writes Little header.entry) target.old offset.old
        target.new) }
    ensures moves { IfOk result (λ size. offset.new ≡ offset.old + size) }
    ensures refused { IfErr result (RefusesWriteAt
        (⟦<Header<'a> as TryIntoCtx<Endian>>⟧.refuses Little header.entry) IsBadOffset target.old
        offset.old target.new) }
    ensures stays { OnErr result (offset.new ≡ offset.old) }
{
    let size = slice::gwrite_with(target, header, offset, LE)?;
    Ok(size)
}

/// Reads the trailer of a file of one member, its last eight bytes.
pub fn read_trailer(file: &[u8]) -> Result<Trailer>
    ensures checksum { IfOk result (λ x. x.checksum
        ≡ number Little 4 (drop (length file.now - 8) file.now)) }
    ensures size { IfOk result (λ x. x.size
        ≡ number Little 4 (drop (length file.now - 4) file.now)) }
    ensures refused { IfErr result (λ e. (length file.now < 8) × (e ≡ TooBig 8 (length file.now))) }
{
    check_room(TRAILER, file.len())?;
    let start = file.len() - TRAILER;
    Ok(Trailer {
        checksum: file.cread_with(start, LE),
        size: file.cread_with(start + 4, LE),
    })
}
