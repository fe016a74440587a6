// Structs of any size at offsets other than 0, through each call that reads and writes.
ghost use Rattle.std.specs.Prelude.{◌≡◌, ◌<◌, ◌≤◌, ◌+◌, ◌-◌, length, take, drop, IfOk, IfErr, OnOk, OnErr};
ghost use Rattle.scroll.specs.Numbers.{number};
ghost use Rattle.scroll.specs.declared.endian.Endian.TheVariants.{Little};
ghost use Rattle.scroll.specs.declared.error.Error.TheVariants.{TooBig, BadOffset};

use crate::tests::stored::StoredFile;
use scroll::{Endian, LE, Pread, Result, slice};

/// Reads the file at an offset: its name and contents stand where its lengths say.
pub fn read_file_at(archive: &[u8], at: usize) -> Result<StoredFile>
    ensures name { IfOk result
        (λ file. file.name.now ≡ take file.name_len (drop (at + 14) archive.now)) }
    ensures contents { IfOk result (λ file. file.contents.now
        ≡ take file.packed (drop (at + 14 + file.name_len + file.extra_len) archive.now)) }
    ensures signature { IfOk result
        (λ file. number Little 4 (drop at archive.now) ≡ 0x04034b50) }
    ensures past { length archive.now < at → IfErr result (λ e. e ≡ BadOffset at) }
    ensures short { at ≤ length archive.now → length archive.now < at + 14
        → IfErr result (λ e. e ≡ TooBig 14 (length archive.now - at)) }
{
    archive.pread_with(at, LE)
}

/// Reads two files, one after the other from an offset.
pub fn read_two_files(archive: &[u8], at: usize) -> Result<(StoredFile, StoredFile)>
    ensures first { IfOk result
        (λ files. files.0.name.now ≡ take files.0.name_len (drop (at + 14) archive.now)) }
    ensures second { IfOk result (λ files. files.1.name.now ≡ take files.1.name_len
        (drop (at + (14 + files.0.name_len + files.0.extra_len + files.0.packed) + 14) archive.now)) }
{
    let mut offset = at;
    let first: StoredFile = archive.gread_with(&mut offset, LE)?;
    let second: StoredFile = archive.gread_with(&mut offset, LE)?;
    Ok((first, second))
}

/// Reads a number, and a file behind it.
pub fn read_behind(from: &[u8], order: Endian) -> Result<(u32, StoredFile)>
    ensures number { IfOk result (λ r. r.0 ≡ number order 4 from.now) }
    ensures name { IfOk result (λ r. r.1.name.now ≡ take r.1.name_len (drop 18 from.now)) }
{
    let mut offset = 0;
    let number: u32 = from.gread_with(&mut offset, order)?;
    let file: StoredFile = from.gread_with(&mut offset, order)?;
    Ok((number, file))
}

/// Writes a file at an offset, and reads it there: its contents are the same.
pub fn contents_again_at<'a>(archive: &'a mut [u8], file: StoredFile, at: usize) -> Result<&'a [u8]>
    ensures { IfOk result (λ contents. contents.now ≡ file.entry.contents.now) }
{
    slice::pwrite_with(archive, file, at, LE)?;
    let again: StoredFile = (&*archive).pread_with(at, LE)?;
    Ok(again.contents)
}

/// Writes a file at a cursor, which moves behind it: no byte before it changes, and none at all on
/// an error.
pub fn write_file_at(archive: &mut [u8], file: StoredFile, at: &mut usize) -> Result<usize>
    ensures before { OnOk result (take at.old archive.new ≡ take at.old archive.old) }
    ensures moves { OnOk result (at.new ≡ at.old
        + (14 + file.entry.name_len + file.entry.extra_len + file.entry.packed)) }
    ensures same_before { OnErr result (take at.old archive.new ≡ take at.old archive.old) }
    ensures same_after { OnErr result (drop at.old archive.new ≡ drop at.old archive.old) }
    ensures stays { OnErr result (at.new ≡ at.old) }
{
    slice::gwrite_with(archive, file, at, LE)
}
