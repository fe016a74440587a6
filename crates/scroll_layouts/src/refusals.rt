// The error of the first value of a list that is refused, for which the list is read again.
ghost use Rattle.std.specs.Prelude.{◌≡◌, ◌≢◌, ◌≤◌, ◌<◌, ◌+◌, ◌-◌, ◌⊎◌, length, codes, IfOk, IfErr};
ghost use Rattle.scroll_layouts.specs.Errors.{GivesBadInput};
ghost use Rattle.scroll_layouts.specs.Formats.{EndsAt, len, reads, refuses};
ghost use Rattle.scroll_layouts.specs.Lists.{CountedItems, StopsAtItem, RefusesItems, RefusesCounted};

use crate::Listed;
use scroll::{Endian, Error};
use std::result::Result;

// Walks values up to the end of the bytes, and returns how many there are.
#[cold]
#[inline(never)]
pub(crate) fn explain_items<'a, K: Listed<'a>>(
    bytes: &'a [u8],
    order: Endian,
) -> Result<usize, K::Error>
where
    K::Error: From<Error>,
    ensures read { IfOk result (CountedItems K.item order bytes.now 0 (length bytes.now)) }
    ensures refused { IfErr result (RefusesItems K.Error.from_gives K.item order bytes.now) }
{
    let mut at = 0;
    let mut count = 0;
    while at < bytes.len() {
        at = read_next::<K>(bytes, at, order)?;
        count += 1;
    }
    Ok(count)
}

// Walks as many values as `count` says, and returns where they end.
#[cold]
#[inline(never)]
pub(crate) fn explain_counted<'a, K: Listed<'a>>(
    bytes: &'a [u8],
    order: Endian,
    count: usize,
) -> Result<usize, K::Error>
where
    K::Error: From<Error>,
    ensures read { IfOk result (λ to. CountedItems K.item order bytes.now 0 to count) }
    ensures inside { IfOk result (λ to. to ≤ length bytes.now) }
    ensures refused { IfErr result
        (RefusesCounted K.Error.from_gives K.item order count bytes.now) }
{
    let mut at = 0;
    let mut done = 0;
    while done < count {
        at = read_next::<K>(bytes, at, order)?;
        done += 1;
    }
    Ok(at)
}

// Reads the value at an offset, and returns where it ends, or its error.
pub(crate) fn read_next<'a, K: Listed<'a>>(
    bytes: &'a [u8],
    at: usize,
    order: Endian,
) -> Result<usize, K::Error>
where
    K::Error: From<Error>,
    requires { at ≤ length bytes.now }
    ensures ends { IfOk result (EndsAt K.item order bytes.now at) }
    ensures forward { IfOk result (λ end. end ≢ at) }
    ensures inside { IfOk result (λ end. end ≤ length bytes.now) }
    ensures refused { IfErr result
        (StopsAtItem K.Error.from_gives K.item order bytes.now at) }
{
    let (_value, end) = K::read_item(bytes, at, order)?;
    if end == at {
        return Err(no_bytes(at));
    }
    Ok(end)
}

// The error of a value without bytes at an offset.
#[cold]
pub(crate) fn no_bytes<E: From<Error>>(at: usize) -> E
    ensures gives { GivesBadInput E.from_gives at (codes "a value has no bytes") result }
{
    E::from(Error::BadInput {
        size: at,
        msg: "a value has no bytes",
    })
}
