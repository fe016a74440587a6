// The groups of an encoding, as each reader finds them, and the numbers that they make.
ghost use Rattle.std.specs.Prelude.{◌≡◌, List, ℕ, codes, length, IfOk, IfErr, IfSome, IfNone};
ghost use Rattle.scroll.specs.Errors.{IsBadInput};
ghost use Rattle.scroll.specs.Leb128.{IsTruncated, ReadsUleb, ReadsSleb, RefusesUleb, RefusesSleb, HasGroups};

use super::TRUNCATED;
use super::block::sign_extend;
use crate::error::{Error, Result};

// The first bytes of an encoding. An encoding of up to nine bytes has as many groups, whose number
// fits into 63 bits.
pub(crate) enum Groups {
    // The number of all groups, and how many there are, of an encoding of up to nine bytes.
    UpToNine(u64, usize),
    // The number of the first nine groups, and the tenth byte, where none of the nine bytes ends
    // the encoding.
    Ten(u64, u8),
}

// Returns what a read of an unsigned number returns, as its value and its size in bytes, where the
// source has `len` bytes and these groups, or is truncated.
#[inline(always)]
pub(crate) fn unsigned(found: Option<Groups>, len: usize) -> Result<(u64, usize)>
    ensures read { (source : List ℕ) → IfSome found (HasGroups source)
        → IfOk result (λ read. ReadsUleb source read.0 read.1) }
    ensures refused { (source : List ℕ) → IfSome found (HasGroups source)
        → IfNone found (IsTruncated source) → length source ≡ len
        → IfErr result (RefusesUleb source) }
{
    let Some(groups) = found else {
        return Err(TRUNCATED);
    };
    match groups {
        Groups::UpToNine(groups, count) => Ok((groups, count)),
        Groups::Ten(groups, tenth) if tenth <= 1 => Ok((groups | u64::from(tenth) << 63, 10)),
        Groups::Ten(_, _) => Err(unfit(len)),
    }
}

// Returns what a read of a signed number returns, as `unsigned` does.
#[inline(always)]
pub(crate) fn signed(found: Option<Groups>, len: usize) -> Result<(i64, usize)>
    requires { (source : List ℕ) × IfSome found (HasGroups source) }
    ensures read { (source : List ℕ) → IfSome found (HasGroups source)
        → IfOk result (λ read. ReadsSleb source read.0 read.1) }
    ensures refused { (source : List ℕ) → IfSome found (HasGroups source)
        → IfNone found (IsTruncated source) → length source ≡ len
        → IfErr result (RefusesSleb source) }
{
    let Some(groups) = found else {
        return Err(TRUNCATED);
    };
    match groups {
        Groups::UpToNine(groups, count) => Ok((sign_extend(groups, count), count)),
        // All bits of the tenth byte are the sign.
        Groups::Ten(groups, tenth) if tenth == (tenth & 1) * 0x7f => {
            Ok(((groups | u64::from(tenth) << 63).cast_signed(), 10))
        }
        Groups::Ten(_, _) => Err(unfit(len)),
    }
}

// Returns the error of a source of `len` bytes that isn't truncated, but whose encoding has no
// number that fits.
#[inline(always)]
fn unfit(len: usize) -> Error
    ensures { IsBadInput result len (codes "failed to parse") }
{
    Error::BadInput {
        size: len,
        msg: "failed to parse",
    }
}
