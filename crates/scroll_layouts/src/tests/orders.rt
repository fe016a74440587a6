// Lists of numbers: a caller's contract says the order in which they were read, and how many they
// are.
mod derived;

ghost use Rattle.std.specs.Prelude.{◌≡◌, drop, IfOk, IfSome};
ghost use Rattle.scroll.specs.Numbers.{number};
ghost use Rattle.scroll.specs.declared.endian.Endian.TheVariants.{Big};

use crate::{Items, Run};
use scroll::{BE, Endian, Error, LE, Pread, Result, slice};
use scroll_formats::Table;
use std::result;
use std::test::Fail;

// #[derive(Pread, Pwrite)]
// #[scroll(items = u16)]
#[derive(Clone, Copy)]
pub struct Codes;

/// Numbers behind their count.
// #[derive(Pread, Pwrite)]
#[derive(Clone, Copy)]
pub struct CodeList<'a> {
    pub count: u8,
    // #[scroll(ctx = Count(count as usize))]
    pub codes: Items<'a, Codes>,
}

/// Numbers behind the number of their bytes.
// #[derive(Pread, Pwrite)]
#[derive(Clone, Copy)]
pub struct CodeBlock<'a> {
    pub size: u8,
    // #[scroll(ctx = size as usize)]
    pub codes: Items<'a, Codes>,
}

/// Numbers of one size behind their count.
// #[derive(Pread, Pwrite)]
#[derive(Clone, Copy)]
pub struct CodeTable<'a> {
    pub count: u8,
    // #[scroll(ctx = count as usize)]
    pub codes: Table<'a, u16>,
}

/// Returns the order in which the numbers of a list are read.
pub fn order_of(source: &[u8]) -> Result<Endian>
    ensures { IfOk result (λ order. order ≡ Big) }
{
    let list: CodeList = source.pread_with(0, BE)?;
    Ok(list.codes.order)
}

/// Returns how many numbers a list has.
pub fn count_of(source: &[u8]) -> Result<usize>
    ensures { IfOk result (λ count. count ≡ number Big 1 source.now) }
{
    let list: CodeList = source.pread_with(0, BE)?;
    Ok(list.codes.count)
}

/// Returns the first number of a list.
#[tactic(auto, unfolding(scroll::specs::Numbers::number))]
pub fn first_code(source: &[u8]) -> Result<Option<u16>>
    ensures { IfOk result (λ found. IfSome found (λ code.
        code ≡ number Big 2 (drop 1 source.now))) }
{
    let list: CodeList = source.pread_with(0, BE)?;
    match list.codes.values().next() {
        Some(Run(code)) => Ok(Some(code)),
        None => Ok(None),
    }
}

/// Returns the order in which the numbers of a block are read.
pub fn block_order(source: &[u8]) -> Result<Endian>
    ensures { IfOk result (λ order. order ≡ Big) }
{
    let block: CodeBlock = source.pread_with(0, BE)?;
    Ok(block.codes.order)
}

/// Returns the order in which the numbers of a table are read.
pub fn table_order(source: &[u8]) -> Result<Endian>
    ensures { IfOk result (λ order. order ≡ Big) }
{
    let table: CodeTable = source.pread_with(0, BE)?;
    Ok(table.codes.order)
}

/// Returns the second number of a table.
#[tactic(auto, unfolding(scroll::specs::Numbers::number))]
pub fn second_in_table(source: &[u8]) -> Result<Option<u16>>
    ensures { IfOk result (λ found. IfSome found (λ code.
        code ≡ number Big 2 (drop 3 source.now))) }
{
    let table: CodeTable = source.pread_with(0, BE)?;
    Ok(table.codes.get(1))
}

/// Writes a table, and reads it back: its order is the same.
pub fn table_again<'a>(target: &'a mut [u8], table: CodeTable) -> Result<Table<'a, u16>>
    ensures bytes { IfOk result (λ codes. codes.bytes.now ≡ table.entry.codes.bytes.now) }
    ensures order { IfOk result (λ codes. codes.order ≡ table.entry.codes.order) }
{
    slice::gwrite_with(target, table, &mut 0, LE)?;
    let again: CodeTable = (&*target).pread_with(0, LE)?;
    Ok(again.codes)
}

/// Writes numbers, and reads them back: they are as many, in the same order.
pub fn codes_again<'a>(target: &'a mut [u8], list: CodeList) -> Result<Items<'a, Codes>>
    ensures bytes { IfOk result (λ codes. codes.bytes.now ≡ list.entry.codes.bytes.now) }
    ensures order { IfOk result (λ codes. codes.order ≡ list.entry.codes.order) }
    ensures count { IfOk result (λ codes. codes.count ≡ list.entry.codes.count) }
{
    slice::gwrite_with(target, list, &mut 0, LE)?;
    let again: CodeList = (&*target).pread_with(0, LE)?;
    Ok(again.codes)
}

/// Writes a block of numbers, and reads it back: they are as many, in the same order.
pub fn block_again<'a>(target: &'a mut [u8], block: CodeBlock) -> Result<Items<'a, Codes>>
    ensures bytes { IfOk result (λ codes. codes.bytes.now ≡ block.entry.codes.bytes.now) }
    ensures order { IfOk result (λ codes. codes.order ≡ block.entry.codes.order) }
    ensures count { IfOk result (λ codes. codes.count ≡ block.entry.codes.count) }
{
    slice::gwrite_with(target, block, &mut 0, LE)?;
    let again: CodeBlock = (&*target).pread_with(0, LE)?;
    Ok(again.codes)
}

#[test]
fn numbers_are_walked_in_their_order(rt: HostRuntime) -> result::Result<(), Fail> {
    let bytes = b"\x02\x01\x02\x03\x04";
    assert_eq!(rt; first_code(bytes)?, Some(0x102));
    let list: CodeList = bytes.pread_with(0, LE)?;
    let other = slice::gwrite_with(&mut [0u8; 8], list, &mut 0, BE);
    assert!(rt;
        matches!(
            other,
            Err(Error::BadInput {
                size: 4,
                msg: "another byte order than its values"
            })
        )
    );
    Ok(())
}

#[test]
fn a_table_keeps_its_order(rt: HostRuntime) -> result::Result<(), Fail> {
    let bytes = b"\x02\x01\x02\x03\x04";
    assert_eq!(rt; second_in_table(bytes)?, Some(0x304));
    let table: CodeTable = bytes.pread_with(0, LE)?;
    let other = slice::gwrite_with(&mut [0u8; 8], table, &mut 0, BE);
    assert!(rt;
        matches!(
            other,
            Err(Error::BadInput {
                size: 4,
                msg: "another byte order than its values"
            })
        )
    );
    Ok(())
}

#[test]
fn lists_of_another_number_are_refused(rt: HostRuntime) -> result::Result<(), Fail> {
    let list = CodeList {
        count: 1,
        codes: Items::new(b"\x01\x02\x03\x04", LE)?,
    };
    let other = slice::gwrite_with(&mut [0u8; 8], list, &mut 0, LE);
    assert!(rt;
        matches!(
            other,
            Err(Error::BadInput {
                size: 2,
                msg: "another number of values than its count"
            })
        )
    );
    Ok(())
}
