// Lists that are read into a vector.
ghost use Rattle.std.specs.Prelude.{◌≡◌, ◌≤◌, ◌<◌, ◌+◌, ◌-◌, ◌++◌, ◌∷◌, ◌⊎◌, [], List, length, vec_capacity, take, drop, IfOk, IfErr, OnErr};
ghost use Rattle.scroll.specs.declared.error.Error.TheVariants.{NoMemory};
ghost use Rattle.scroll_formats.specs.Spans.{Stands};
ghost use Rattle.scroll_layouts.specs.Formats.{reads, len};
ghost use Rattle.scroll_layouts.specs.Lists.{StopsAtItem};
ghost use Rattle.scroll_layouts.specs.Marks.{AppendsList, RefusesList};

use super::end_at;
use crate::refusals::no_bytes;
use crate::{Items, Listed, Marked};
use scroll::{Endian, Error};
use scroll_formats::At;
use std::result::Result;

/// Reads the values of a list up to its mark at the cursor `offset`, advances the cursor past the
/// mark, appends the values to `values`, and returns the list.
///
/// Returns the error of the first value that can't be read, with the offset at which it starts, and
/// leaves the cursor there; the values before it are then appended. An offset past the end is
/// [`Error::BadOffset`], a value without bytes [`Error::BadInput`] with its offset in the list and
/// the message `a value has no bytes`, and an allocation failure [`Error::NoMemory`], which a value
/// for which `values` has room doesn't meet.
pub fn append_until<'a, K: Marked<'a>>(
    values: &mut Vec<K::Item>,
    from: &'a [u8],
    offset: &mut usize,
    order: Endian,
) -> Result<Items<'a, K>, At<K::Error>>
where
    K::Error: From<Error>,
    ensures there { IfOk result (λ list.
        Stands list.bytes.now from.now offset.old offset.new) }
    ensures values { IfOk result (λ list. AppendsList K.End.mark K.item order
        list.bytes.now values.old.items values.new.items) }
    ensures refused { IfErr result (λ located. (found : List K.Item)
        × (values.new.items ≡ values.old.items ++ found)
        × RefusesList K.Error.from_gives (vec_capacity values.old - length values.old.items)
        K.End.mark K.item order from.now offset.old found located.offset
        located.error) }
    ensures stays { IfErr result (λ located. offset.new ≡ located.offset) }
{
    let start = *offset;
    if start > from.len() {
        return Err(At {
            offset: start,
            error: K::Error::from(Error::BadOffset(start)),
        });
    }
    let rest = &from[start..];
    let before = values.len();
    let mut at = 0;
    loop {
        if let Some(end) = end_at::<K::End>(rest, at) {
            *offset = start + end;
            return Ok(Items::of(&rest[..end], order, values.len() - before));
        }
        match push_next::<K>(values, rest, at, order) {
            Ok(next) => at = next,
            Err(error) => {
                *offset = start + at;
                return Err(At {
                    offset: start + at,
                    error,
                });
            }
        }
    }
}

// Reads a value at an offset, appends it, and returns the offset after it.
#[inline(always)]
fn push_next<'a, K: Listed<'a>>(
    values: &mut Vec<K::Item>,
    from: &'a [u8],
    at: usize,
    order: Endian,
) -> Result<usize, K::Error>
where
    K::Error: From<Error>,
    requires { at ≤ length from.now }
    ensures read { IfOk result (λ next. (x : K.Item) × reads K.item order from.now at x
        × (next ≡ at + len K.item x) × (1 ≤ len K.item x)
        × (values.new.items ≡ values.old.items ++ x ∷ [])) }
    ensures forward { IfOk result (λ next. (at < next) × (next ≤ length from.now)) }
    ensures refused { IfErr result (λ e. StopsAtItem K.Error.from_gives K.item order from.now at e
        ⊎ ((x : K.Item) × reads K.item order from.now at x
        × (vec_capacity values.old ≤ length values.old.items) × K.Error.from_gives NoMemory e)) }
    ensures same { OnErr result (values.new.items ≡ values.old.items) }
    ensures capacity { vec_capacity values.old ≤ vec_capacity values.new }
{
    let (value, next) = K::read_item(from, at, order)?;
    if next == at {
        return Err(no_bytes(at));
    }
    if values.push(value).is_err() {
        return Err(K::Error::from(Error::NoMemory));
    }
    Ok(next)
}
