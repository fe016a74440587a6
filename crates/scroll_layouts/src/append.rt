// Parts that are appended to a vector.
ghost use Rattle.std.specs.Prelude.{◌≡◌, ◌≤◌, ◌+◌, ◌-◌, ◌^◌, ◌++◌, ◌⊎◌, length, vec_capacity, drop, min, IfErr, OnOk, OnErr};
ghost use Rattle.scroll_layouts.specs.Formats.{len, bytes, agrees, differs};
ghost use Rattle.scroll_layouts.specs.Wholes.{AppendsWhole, AppendsEach, FailsEach, LacksRoom};

use crate::Part;
use scroll::{Endian, Error};
use std::result::Result;

/// Appends the bytes of a part to a vector if its counts, constants, tags and conditions agree.
///
/// Returns the part's own error if they don't, and that of [`Error::NoMemory`] on an allocation
/// failure, which a vector whose capacity has room doesn't meet. The vector's bytes are then
/// unchanged.
///
/// ```rust
/// let mut out: Vec<u8> = Vec::new(rt.alloc());
/// append_whole::<(), Error, Run<u16>>(&mut out, &Run(258), BE, &())?;
/// append_whole::<usize, Error, &[u8]>(&mut out, &b"hi".as_slice(), BE, &2)?;
/// assert_eq!(rt; out.as_slice(), [1, 2, b'h', b'i'].as_slice());
/// ```
pub fn append_whole<C, E: From<Error>, L: Part<C, E>>(
    target: &mut Vec<u8>,
    value: &L,
    order: Endian,
    ctx: &C,
) -> Result<(), E>
    ensures appended { OnOk result (AppendsWhole (L.format ctx.now) order value.now
        target.old.items target.new.items) }
    ensures unchanged { OnErr result (target.new.items ≡ target.old.items) }
    ensures refused { IfErr result (λ e. differs (L.format ctx.now) order value.now e
        ⊎ LacksRoom E.from_gives (vec_capacity target.old) (L.format ctx.now) order
        target.old.items value.now e) }
    ensures capacity { vec_capacity target.old ≤ vec_capacity target.new }
{
    value.check(order, ctx)?;
    let start = target.len();
    let Some(end) = start.checked_add(value.size(order, ctx)) else {
        return Err(E::from(Error::NoMemory));
    };
    if target.resize(end, 0).is_err() {
        return Err(E::from(Error::NoMemory));
    }
    value.put(&mut target.as_mut_slice()[start..], order, ctx);
    Ok(())
}

/// Appends the bytes of some values, one after another, each as [`append_whole`] does.
///
/// Returns the error of the first value that can't be appended. The values before it are then
/// appended.
///
/// ```rust
/// let mut out: Vec<u8> = Vec::new(rt.alloc());
/// append_each::<(), Error, Uleb>(&mut out, &[Uleb::shortest(1), Uleb::shortest(300)], LE, &())?;
/// assert_eq!(rt; out.as_slice(), [1, 0xac, 2].as_slice());
/// ```
pub fn append_each<C, E: From<Error>, L: Part<C, E>>(
    target: &mut Vec<u8>,
    values: &[L],
    order: Endian,
    ctx: &C,
) -> Result<(), E>
    ensures appended { OnOk result (AppendsEach (L.format ctx.now) order target.old.items
        values.now target.new.items) }
    ensures refused { IfErr result (FailsEach E.from_gives (vec_capacity target.old)
        (L.format ctx.now) order target.old.items values.now target.new.items) }
{
    for i in 0..values.len() {
        match append_whole(target, &values[i], order, ctx) {
            Ok(()) => (),
            Err(error) => return Err(error),
        }
    }
    Ok(())
}
