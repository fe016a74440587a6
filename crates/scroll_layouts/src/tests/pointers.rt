// Pointers: what stands at an offset that a struct of any size, or of a fixed size, says.
mod derived;

ghost use Rattle.std.specs.Prelude.{◌≡◌, ◌<◌, ◌^◌, drop, IfOk, IfErr};
ghost use Rattle.scroll.specs.Numbers.{number};
ghost use Rattle.scroll.specs.declared.endian.Endian.TheVariants.{Little};

use super::results::{Parts, check_eq, check_error, check_value};
use crate::{Field, Pointer, Run};
use scroll::{Error, LE, Pread, Result, slice};
use scroll_formats::{At, Table};
use std::result;

/// A text behind its length.
// #[derive(Pread, Pwrite)]
#[derive(Clone, Copy)]
pub struct Label<'a> {
    pub len: u8,
    // #[scroll(ctx = len as usize)]
    pub text: &'a [u8],
}

// #[derive(Pread, Pwrite)]
// #[scroll(items = Label)]
pub struct Labels;

/// An entry of a fixed size.
// #[derive(Pread, Pwrite)]
#[derive(Clone, Copy)]
pub struct Entry {
    pub id: u16,
    pub label: Pointer<u32, Labels>,
}

/// A header, with a label at its name's offset, and perhaps another.
// #[derive(Pread, Pwrite, Kept)]
#[derive(Clone, Copy)]
pub struct Header<'a> {
    // #[scroll(is = b"PT")]
    pub magic: [u8; 2],
    pub name: Pointer<u16, Labels>,
    pub count: u8,
    // #[scroll(if = count != 0)]
    pub more: Option<Pointer<u64, Labels>>,
    // #[scroll(ctx = count as usize)]
    pub entries: Table<'a, Entry>,
}

/// A value, and where the next one is.
// #[derive(Pread, Pwrite)]
#[derive(Clone, Copy)]
pub struct Link {
    pub value: u8,
    pub next: Pointer<u16, Links>,
}

// #[derive(Pread, Pwrite)]
// #[scroll(items = Link)]
pub struct Links;

/// Reads the link behind the first one.
pub fn second_link(file: &[u8]) -> result::Result<Link, At<Error>> {
    let first: Pointer<u16, Link> = Pointer::new(0);
    let Run(Field(second)) = first.read_fixed(file, LE)?.next.read(file, LE)?;
    Ok(second)
}

/// Reads an entry, and says where its label is.
pub fn entry_at(file: &[u8], at: usize) -> Result<Entry>
    ensures { IfOk result (λ x. x.label.offset ≡ number Little 4 (drop 2 (drop at file.now))) }
{
    file.pread_with(at, LE)
}

/// Reads the name that a header points to. An error has its offset in the file.
pub fn read_name(file: &[u8]) -> result::Result<Label, At<Error>>
    ensures { IfErr result (λ located. located.offset < 2 ^ 16) }
{
    let header: Header = match file.pread_with(0, LE) {
        Ok(header) => header,
        Err(error) => return Err(At { offset: 0, error }),
    };
    let name = header.name.read(file, LE)?;
    Ok(name)
}

/// Writes a header, and reads it back: it points to the same name.
pub fn name_again(target: &mut [u8], header: Header) -> Result<u16>
    ensures { IfOk result (λ offset. offset ≡ header.entry.name.offset) }
{
    slice::gwrite_with(target, header, &mut 0, LE)?;
    let again: Header = (&*target).pread_with(0, LE)?;
    Ok(again.name.offset)
}

// A header with one entry, a label at 19, and one at 22 that has fewer bytes than it says.
static FILE: [u8; 24] = *b"PT\x13\0\x01\x16\0\0\0\0\0\0\0\x07\0\x19\0\0\0\x02ab\x09c";

// Returns where a read fails, or 0, and its result without that.
fn told<'a>(outcome: result::Result<Label<'a>, At<Error>>) -> (usize, Result<&'a [u8]>) {
    match outcome {
        Ok(label) => (0, Ok(label.text)),
        Err(At { offset, error }) => (offset, Err(error)),
    }
}

#[test]
fn an_offset_is_read_in_the_whole_file(rt: HostRuntime) {
    static ROWS: [(u64, usize, Parts<'static>); 4] = [
        (19, 0, ("Ok", 0, 0)),
        (22, 22, ("TooBig", 9, 1)),
        (24, 24, ("TooBig", 1, 0)),
        (25, 25, ("BadOffset", 25, 0)),
    ];
    for (offset, wanted_at, wanted) in ROWS {
        let pointer: Pointer<u64, Labels> = Pointer::new(offset);
        let (at, outcome) = told(pointer.read(&FILE, LE));
        check_eq(&rt, at, wanted_at);
        check_error(&rt, outcome, wanted);
    }
}

#[test]
fn pointers_stand_in_structs(rt: HostRuntime) -> Result<()> {
    let header: Header = FILE.pread_with(0, LE)?;
    check_value(&rt, told(header.name.read(&FILE, LE)).1, b"ab");
    let entry = header.entries.get(0);
    check_eq(&rt, entry.map(|entry| entry.label.offset), Some(25));
    check_eq(&rt, header.more.map(|more| more.offset), Some(22));
    let second = second_link(b"\x01\x05\0\0\0\x02\0\0");
    check_eq(&rt, second.ok().map(|link| link.value), Some(2));
    Ok(())
}
