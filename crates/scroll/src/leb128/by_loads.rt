// LEB128 by counted loads, the first of which takes eight bytes at once.
ghost use Rattle.std.specs.Prelude.{◌≡◌, ◌-◌, ◌<◌, ◌≤◌, ◌^◌, length, take, IfOk, IfErr, IfSome, IfNone};
ghost use Rattle.scroll.specs.Leb128.{end_of, IsTruncated, ReadsUleb, ReadsSleb, HasGroups, RefusesUleb, RefusesSleb};
ghost use Rattle.scroll.specs.Reads.{Loaded, max_loads};

use super::block::{block_groups, sleb_block, uleb_block};
use super::groups::{Groups, signed, unsigned};
use crate::error::Result;
use crate::loads::Loads;

/// Returns what a read of a [`Uleb128`](super::Uleb128) returns, as a value and a size in bytes,
/// errors included. It makes at most three loads or, if the source has fewer than eight bytes, at
/// most one for each byte. The caller ensures that fewer than 2^62 loads were made before.
#[inline(always)]
pub fn uleb_loads(src: &mut Loads<'_>) -> Result<(u64, usize)>
    requires { src.old.made < 2 ^ 62 }
    ensures read { IfOk result (λ read. ReadsUleb src.old.bytes read.0 read.1) }
    ensures refused { IfErr result (RefusesUleb src.old.bytes) }
    ensures loads { Loaded src.old src.new (max_loads src.old.bytes) }
{
    if src.len() < 8 {
        return unsigned(short_groups(src), src.len());
    }
    let Some(block) = src.word() else {
        unreachable!()
    };
    if let Some(read) = uleb_block(block) {
        return Ok(read);
    }
    unsigned(long_groups(src, block), src.len())
}

/// Returns what a read of a [`Sleb128`](super::Sleb128) returns, as a value and a size in bytes,
/// errors included. It makes at most three loads or, if the source has fewer than eight bytes, at
/// most one for each byte. The caller ensures that fewer than 2^62 loads were made before.
#[inline(always)]
pub fn sleb_loads(src: &mut Loads<'_>) -> Result<(i64, usize)>
    requires { src.old.made < 2 ^ 62 }
    ensures read { IfOk result (λ read. ReadsSleb src.old.bytes read.0 read.1) }
    ensures refused { IfErr result (RefusesSleb src.old.bytes) }
    ensures loads { Loaded src.old src.new (max_loads src.old.bytes) }
{
    if src.len() < 8 {
        return signed(short_groups(src), src.len());
    }
    let Some(block) = src.word() else {
        unreachable!()
    };
    if let Some(read) = sleb_block(block) {
        return Ok(read);
    }
    signed(long_groups(src, block), src.len())
}

// Reads the groups of a source whose first eight bytes, `block`, don't end the encoding.
#[inline(always)]
fn long_groups(src: &mut Loads<'_>, block: [u8; 8]) -> Option<Groups>
    requires few { src.old.made < 2 ^ 63 - 2 }
    requires first { (8 ≤ length src.old.bytes) × (block ≡ take 8 src.old.bytes) }
    requires open { 8 ≤ end_of block }
    ensures read { IfSome result (HasGroups src.old.bytes) }
    ensures truncated { IfNone result (IsTruncated src.old.bytes) }
    ensures loads { Loaded src.old src.new 2 }
{
    let low = block_groups(block);
    let Some(ninth) = src.byte(8) else {
        return None;
    };
    let groups = low | u64::from(ninth & 0x7f) << 56;
    if ninth < 0x80 {
        return Some(Groups::UpToNine(groups, 9));
    }
    match src.byte(9) {
        Some(tenth) => Some(Groups::Ten(groups, tenth)),
        None => None,
    }
}

// Reads the groups of a source of fewer than eight bytes, byte by byte.
#[inline(always)]
fn short_groups(src: &mut Loads<'_>) -> Option<Groups>
    requires few { src.old.made < 2 ^ 62 }
    requires short { length src.old.bytes < 8 }
    ensures read { IfSome result (HasGroups src.old.bytes) }
    ensures truncated { IfNone result (IsTruncated src.old.bytes) }
    ensures loads { Loaded src.old src.new (length src.old.bytes) }
{
    let mut groups: u64 = 0;
    // The number of rounds is constant, so the loop can be unrolled: then a caller's source need
    // not be in memory.
    for i in 0..7 {
        if i == src.len() {
            return None;
        }
        let Some(byte) = src.byte(i) else {
            unreachable!()
        };
        groups |= u64::from(byte & 0x7f) << (7 * i);
        if byte < 0x80 {
            return Some(Groups::UpToNine(groups, i + 1));
        }
    }
    None
}
