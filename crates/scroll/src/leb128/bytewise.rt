// LEB128 byte by byte.
ghost use Rattle.std.specs.Prelude.{IfOk, IfErr, IfSome, IfNone};
ghost use Rattle.scroll.specs.Leb128.{IsTruncated, ReadsUleb, ReadsSleb, HasGroups, RefusesUleb, RefusesSleb};

use super::groups::{Groups, signed, unsigned};
use crate::error::Result;

/// Reads the unsigned number at the start of `src`, byte by byte, and returns its value and its
/// size in bytes, or the error of a read of a [`Uleb128`](super::Uleb128).
#[inline(always)]
pub fn plain_uleb(src: &[u8]) -> Result<(u64, usize)>
    ensures read { IfOk result (λ read. ReadsUleb src.now read.0 read.1) }
    ensures refused { IfErr result (RefusesUleb src.now) }
{
    unsigned(groups_bytewise(src), src.len())
}

/// Reads the signed number at the start of `src`, byte by byte, and returns its value and its size
/// in bytes, or the error of a read of a [`Sleb128`](super::Sleb128).
#[inline(always)]
pub fn plain_sleb(src: &[u8]) -> Result<(i64, usize)>
    ensures read { IfOk result (λ read. ReadsSleb src.now read.0 read.1) }
    ensures refused { IfErr result (RefusesSleb src.now) }
{
    signed(groups_bytewise(src), src.len())
}

// Reads the groups at the start of a source.
#[inline(always)]
fn groups_bytewise(src: &[u8]) -> Option<Groups>
    ensures read { IfSome result (HasGroups src.now) }
    ensures truncated { IfNone result (IsTruncated src.now) }
{
    let mut groups: u64 = 0;
    for i in 0..9 {
        let Some(&byte) = src.get(i) else {
            return None;
        };
        groups |= u64::from(byte & 0x7f) << (7 * i);
        if byte < 0x80 {
            return Some(Groups::UpToNine(groups, i + 1));
        }
    }
    match src.get(9) {
        Some(&tenth) => Some(Groups::Ten(groups, tenth)),
        None => None,
    }
}
