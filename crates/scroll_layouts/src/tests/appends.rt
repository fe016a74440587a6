// Structs of any size that are appended to a vector, and read where they were appended.
ghost use Rattle.std.specs.Prelude.{◌≡◌, IfOk};

use crate::tests::stored::StoredFile;
use crate::{Borrowed, Part, Run, Uleb, append_each, append_whole, read_whole};
use scroll::{Error, LE, Pread, Result};

/// Appends a file, and reads it where it stands: its contents are the same.
pub fn appended_contents<'a>(out: &'a mut Vec<u8>, file: &StoredFile) -> Result<&'a [u8]>
    ensures { IfOk result (λ contents. contents.now ≡ file.now.contents.now) }
{
    let at = out.len();
    append_whole::<(), Error, StoredFile>(out, file, LE, &())?;
    let again: StoredFile = out.as_slice().pread_with(at, LE)?;
    Ok(again.contents)
}

/// Appends a tag, a number in LEB128 and a file, and reads them: the file's name is the same.
pub fn appended_name<'a>(
    out: &'a mut Vec<u8>,
    tag: u8,
    code: Uleb,
    file: &StoredFile,
) -> Result<&'a [u8]>
    ensures { IfOk result (λ name. name.now ≡ file.now.name.now) }
{
    let at = out.len();
    append_whole::<((), ((), Borrowed<()>)), Error, (Run<u8>, (Uleb, &StoredFile))>(
        out,
        &(Run(tag), (code, file)),
        LE,
        &((), ((), Borrowed(()))),
    )?;
    let bytes = &out.as_slice()[at..];
    let (again, _) = read_whole::<((), ((), ())), Error, (Run<u8>, (Uleb, StoredFile))>(
        bytes,
        LE,
        &((), ((), ())),
    )?;
    Ok(again.1.1.name)
}

/// Appends two files at once, and reads the first where it stands: its contents are the same.
pub fn first_contents<'a>(
    out: &'a mut Vec<u8>,
    first: StoredFile,
    second: StoredFile,
) -> Result<&'a [u8]>
    ensures { IfOk result (λ contents. contents.now ≡ first.entry.contents.now) }
{
    let at = out.len();
    append_each::<(), Error, StoredFile>(out, &[first, second], LE, &())?;
    let again: StoredFile = out.as_slice().pread_with(at, LE)?;
    Ok(again.contents)
}
