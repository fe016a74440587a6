// Lists whose values are walked where they lie: fields behind a length in LEB128, and names.
mod derived;

ghost use Rattle.std.specs.Prelude.{◌≡◌, IfOk, IfNone, option_map};
ghost use Rattle.scroll.specs.Numbers.{number};
ghost use Rattle.scroll.specs.declared.endian.Endian.TheVariants.{Little};

use crate::{Items, Uleb};
use scroll::cstr::CStr;
use scroll::{LE, Pread, Result, slice};
use std::result;
use std::test::Fail;

/// A field of any size, as Protocol Buffers have them: a number, a length in LEB128, and so many
/// bytes.
// #[derive(Pread, Pwrite)]
#[derive(Clone, Copy)]
pub struct MessageField<'a> {
    pub number: u8,
    pub len: Uleb,
    // #[scroll(ctx = len as usize)]
    pub data: &'a [u8],
}

// #[derive(Pread, Pwrite)]
// #[scroll(items = MessageField)]
pub struct FieldKind;

/// A message: its name, and its fields within a length.
// #[derive(Pread, Pwrite)]
#[derive(Clone, Copy)]
pub struct Message<'a> {
    pub size: u16,
    pub name: CStr<'a>,
    // #[scroll(ctx = size as usize)]
    pub fields: Items<'a, FieldKind>,
}

/// A message whose fields may be absent.
// #[derive(Pread, Pwrite)]
#[derive(Clone, Copy)]
pub struct Reply<'a> {
    pub size: u16,
    // #[scroll(if = size != 0, ctx = size as usize)]
    pub fields: Option<Items<'a, FieldKind>>,
}

/// Returns the number of a message's first field. There is none only where the fields have no byte.
pub fn first_number(source: &[u8]) -> Result<Option<u8>>
    ensures { IfOk result (λ found. IfNone found (number Little 2 source.now ≡ 0)) }
{
    let message: Message = source.pread_with(0, LE)?;
    match message.fields.values().next() {
        Some(field) => Ok(Some(field.number)),
        None => Ok(None),
    }
}

/// Writes a reply, and reads it back: its fields are the same.
pub fn fields_again<'a>(target: &'a mut [u8], reply: Reply) -> Result<Option<Items<'a, FieldKind>>>
    ensures { IfOk result (λ fields. option_map (λ v. v.bytes.now) fields
        ≡ option_map (λ v. v.bytes.now) reply.entry.fields) }
{
    slice::gwrite_with(target, reply, &mut 0, LE)?;
    let again: Reply = (&*target).pread_with(0, LE)?;
    Ok(again.fields)
}

/// Adds up the lengths of a message's fields. No field is refused.
pub fn add_lengths(source: &[u8]) -> Result<u64> {
    let message: Message = source.pread_with(0, LE)?;
    let mut sum: u64 = 0;
    for field in message.fields.values() {
        sum = sum.wrapping_add(field.data.len() as u64);
    }
    Ok(sum)
}

#[test]
fn fields_are_walked(rt: HostRuntime) -> result::Result<(), Fail> {
    assert_eq!(rt;
        add_lengths(b"\x0d\0m\0\x01\x02ab\x02\x00\x03\x83\x80\x00abc")?,
        5
    );
    Ok(())
}
