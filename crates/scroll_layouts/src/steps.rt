// Steps over the values of a list, for where they end.
ghost use Rattle.std.specs.Prelude.{◌≡◌, ◌≢◌, ◌≤◌, ◌<◌, ◌+◌, ◌-◌, ◌⊎◌, length, codes, IfOk, IfErr, IfSome, IfNone};
ghost use Rattle.scroll_layouts.specs.Formats.{EndsAt, len, reads, refuses};
ghost use Rattle.scroll_layouts.specs.Lists.{CountedItems, StopsAtItem, RefusesItems, RefusesCounted};

use crate::Listed;
use crate::refusals::{explain_counted, explain_items, no_bytes};
use scroll::{Endian, Error};
use std::result::Result;

// Returns how many values there are up to the end of the bytes.
#[inline(always)]
pub(crate) fn check_items<'a, K: Listed<'a>>(
    bytes: &'a [u8],
    order: Endian,
) -> Result<usize, K::Error>
where
    K::Error: From<Error> + Drop,
    ensures read { IfOk result (CountedItems K.item order bytes.now 0 (length bytes.now)) }
    ensures refused { IfErr result (RefusesItems K.Error.from_gives K.item order bytes.now) }
{
    match count_items::<K>(bytes, order) {
        Some(count) => Ok(count),
        None => explain_items::<K>(bytes, order),
    }
}

// Reads as many values as `count` says, and returns where they end.
#[inline(always)]
pub(crate) fn read_items<'a, K: Listed<'a>>(
    bytes: &'a [u8],
    order: Endian,
    count: usize,
) -> Result<usize, K::Error>
where
    K::Error: From<Error> + Drop,
    ensures read { IfOk result (λ to. CountedItems K.item order bytes.now 0 to count) }
    ensures inside { IfOk result (λ to. to ≤ length bytes.now) }
    ensures refused { IfErr result
        (RefusesCounted K.Error.from_gives K.item order count bytes.now) }
{
    match skip_items::<K>(bytes, order, count) {
        Some(end) => Ok(end),
        None => explain_counted::<K>(bytes, order, count),
    }
}

// Returns how many values there are up to the end of the bytes, or `None` where one is refused.
pub(crate) fn count_items<'a, K: Listed<'a>>(bytes: &'a [u8], order: Endian) -> Option<usize>
where
    K::Error: From<Error> + Drop,
    ensures read { IfSome result (CountedItems K.item order bytes.now 0 (length bytes.now)) }
    ensures none { IfNone result ((e : K.Error)
        × RefusesItems K.Error.from_gives K.item order bytes.now e) }
{
    let mut at = 0;
    let mut count = 0;
    while at < bytes.len() {
        at = end_next::<K>(bytes, at, order)?;
        count += 1;
    }
    Some(count)
}

// Returns where as many values end as `count` says, or `None` where one is refused.
pub(crate) fn skip_items<'a, K: Listed<'a>>(
    bytes: &'a [u8],
    order: Endian,
    count: usize,
) -> Option<usize>
where
    K::Error: From<Error> + Drop,
    ensures read { IfSome result (λ to. CountedItems K.item order bytes.now 0 to count) }
    ensures inside { IfSome result (λ to. to ≤ length bytes.now) }
    ensures none { IfNone result ((e : K.Error)
        × RefusesCounted K.Error.from_gives K.item order count bytes.now e) }
{
    let mut at = 0;
    let mut done = 0;
    while done < count {
        at = end_next::<K>(bytes, at, order)?;
        done += 1;
    }
    Some(at)
}

// Returns where the value at an offset ends, or `None` where it is refused or has no byte.
#[inline(always)]
pub(crate) fn end_next<'a, K: Listed<'a>>(
    bytes: &'a [u8],
    at: usize,
    order: Endian,
) -> Option<usize>
where
    K::Error: From<Error> + Drop,
    requires { at ≤ length bytes.now }
    ensures ends { IfSome result (EndsAt K.item order bytes.now at) }
    ensures forward { IfSome result (λ end. end ≢ at) }
    ensures inside { IfSome result (λ end. end ≤ length bytes.now) }
    ensures none { IfNone result ((e : K.Error)
        × StopsAtItem K.Error.from_gives K.item order bytes.now at e) }
{
    let end = K::end_item(bytes, at, order)?;
    if end == at {
        let _error: K::Error = no_bytes(at);
        return None;
    }
    Some(end)
}
