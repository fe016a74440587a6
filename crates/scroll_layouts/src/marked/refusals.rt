// The error of the first value that is refused of a list that ends with a mark.
ghost use Rattle.std.specs.Prelude.{◌≡◌, ◌≢◌, ◌≤◌, ◌<◌, ◌+◌, ◌-◌, ◌⊎◌, length, codes, IfOk, IfErr};
ghost use Rattle.scroll_layouts.specs.Formats.{EndsAt, len, reads, refuses};
ghost use Rattle.scroll_layouts.specs.Marks.{CountedMarked, RefusesMarked};

use super::end_at;
use crate::Marked;
use crate::refusals::read_next;
use scroll::{Endian, Error};
use std::result::Result;

// Walks values up to a mark, and returns where that ends, and how many these are.
#[cold]
#[inline(never)]
pub(crate) fn explain_marked<'a, K: Marked<'a>>(
    bytes: &'a [u8],
    order: Endian,
) -> Result<(usize, usize), K::Error>
where
    K::Error: From<Error>,
    ensures read { IfOk result (λ r.
        CountedMarked K.End.mark K.item order bytes.now r.0 r.1) }
    ensures inside { IfOk result (λ r. r.0 ≤ length bytes.now) }
    ensures refused { IfErr result
        (RefusesMarked K.Error.from_gives K.End.mark K.item order bytes.now) }
{
    let mut at = 0;
    let mut count = 0;
    loop {
        if let Some(end) = end_at::<K::End>(bytes, at) {
            return Ok((end, count));
        }
        at = read_next::<K>(bytes, at, order)?;
        count += 1;
    }
}
