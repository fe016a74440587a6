// Lists whose last value says that it is the last: blocks with a flag for it.
mod derived;

ghost use Rattle.std.specs.Prelude.{◌≡◌, IfOk};

use crate::Items;
use scroll::{BE, Error, LE, Pread, Result, slice};
use std::result;
use std::test::Fail;

/// A block: whether it is the last one, and its number, in 16 bits; and bytes behind their length.
// #[derive(Pread, Pwrite)]
#[derive(Clone, Copy)]
pub struct Block<'a> {
    // #[scroll(bits = 1)]
    pub is_last: u16,
    // #[scroll(bits = 15)]
    pub number: u16,
    pub len: u8,
    // #[scroll(ctx = len as usize)]
    pub data: &'a [u8],
}

// #[derive(Pread, Pwrite)]
// #[scroll(items = Block, last = is_last == 1)]
#[derive(Clone, Copy)]
pub struct Blocks;

/// Blocks, and a byte behind them.
// #[derive(Pread, Pwrite)]
#[derive(Clone, Copy)]
pub struct Metadata<'a> {
    // #[scroll(ctx = ToLast)]
    pub blocks: Items<'a, Blocks>,
    pub rest: u8,
}

/// Writes blocks, and reads them back: they are the same.
pub fn blocks_again<'a>(target: &'a mut [u8], metadata: Metadata) -> Result<Items<'a, Blocks>>
    ensures { IfOk result (λ blocks. blocks.bytes.now ≡ metadata.entry.blocks.bytes.now) }
{
    slice::gwrite_with(target, metadata, &mut 0, LE)?;
    let again: Metadata = (&*target).pread_with(0, LE)?;
    Ok(again.blocks)
}

/// Adds up the numbers of some blocks. No block is refused.
pub fn add_numbers(source: &[u8]) -> Result<u64> {
    let metadata: Metadata = source.pread_with(0, BE)?;
    let mut sum: u64 = 0;
    for block in metadata.blocks.values_to_last() {
        sum = sum.wrapping_add(block.number as u64);
    }
    Ok(sum)
}

#[test]
fn blocks_end_with_the_one_that_says_so(rt: HostRuntime) -> result::Result<(), Fail> {
    // (a block of 2 bytes, the last one, and what isn't theirs)
    let bytes = b"\0\x05\x02ab\x80\x07\x00\x80\x01";
    assert_eq!(rt; add_numbers(bytes)?, 12);
    let metadata: Metadata = bytes.pread_with(0, BE)?;
    assert_eq!(rt;
        (
            metadata.blocks.bytes.len(),
            metadata.blocks.count,
            metadata.rest
        ),
        (8, 2, 0x80)
    );
    let mut target = [0u8; 16];
    assert_eq!(rt; slice::gwrite_with(&mut target, metadata, &mut 0, BE)?, 9);
    assert_eq!(rt; target[..9], bytes[..9]);
    Ok(())
}

#[test]
fn lists_without_a_last_block_are_refused(rt: HostRuntime) -> result::Result<(), Fail> {
    let cut = b"\0\x05\x02ab".as_slice();
    let no_last: Result<Metadata> = cut.pread_with(0, BE);
    assert!(rt; matches!(no_last, Err(Error::TooBig { size: 2, len: 0 })));
    // (a list that was read in one order isn't written in the other)
    let metadata: Metadata = b"\x80\0\0\x01".pread_with(0, BE)?;
    let other = slice::gwrite_with(&mut [0u8; 4], metadata, &mut 0, LE);
    assert!(rt;
        matches!(
            other,
            Err(Error::BadInput {
                size: 3,
                msg: "another byte order than its values"
            })
        )
    );
    let whole = Items::<Blocks>::to_last(b"\x80\0\0", BE)?;
    assert_eq!(rt; whole.count, 1);
    let more = Items::<Blocks>::to_last(b"\x80\0\0\x01", BE);
    assert!(rt;
        matches!(
            more,
            Err(Error::BadInput {
                size: 3,
                msg: "another length than its values"
            })
        )
    );
    Ok(())
}
