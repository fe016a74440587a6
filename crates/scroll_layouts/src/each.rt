// Values of one type, one after another behind a head, that are written at once.
ghost use Rattle.std.specs.Prelude.{◌≡◌, ◌≤◌, ◌+◌, ◌-◌, ◌^◌, ◌++◌, length, take, drop, min, IfOk, IfErr, OnOk};
ghost use Rattle.std.specs.List.{All, flat_map};
ghost use Rattle.scroll_layouts.specs.Each.{list_bytes, WritesList, KeepsList, DiffersOne};
ghost use Rattle.scroll_layouts.specs.Formats.{len, bytes, agrees, differs};

use crate::Part;
use crate::pairs::put_behind;
use scroll::{Endian, Error, check_room};
use std::result::Result;

/// Writes a head, and values of one type behind it, to the start of `dst`, and returns their size.
/// They read back, whatever is written after them.
///
/// Returns the error of the first of them that doesn't agree, and [`Error::TooBig`] with their size
/// and the length of `dst` where they have no room. `dst` is then unchanged.
///
/// ```rust
/// let codes = [Uleb::shortest(300), Uleb::shortest(1)];
/// let mut bytes = [0u8; 4];
/// let head = Run(2u8);
/// let size = write_list::<(), (), Error, Run<u8>, Uleb>(&head, &codes, &mut bytes, LE, &(), &())?;
/// assert_eq!(rt; size, 4);
/// assert_eq!(rt; bytes, [2, 0xac, 2, 1]);
/// ```
pub fn write_list<C, D, E: From<Error>, H: Part<C, E>, L: Part<D, E>>(
    head: &H,
    values: &[L],
    dst: &mut [u8],
    order: Endian,
    ctx: &C,
    each: &D,
) -> Result<usize, E>
    ensures wrote { IfOk result (WritesList (H.format ctx.now) (L.format each.now) order head.now
        values.now dst.old dst.new) }
    ensures refused { IfErr result (KeepsList E.from_gives (H.format ctx.now) (L.format each.now)
        order head.now values.now dst.old dst.new) }
{
    head.check(order, ctx)?;
    check_each::<D, E, L>(values, order, each)?;
    let size = size_list::<C, D, E, H, L>(head, values, order, ctx, each);
    check_room(size, dst.len())?;
    put_list::<C, D, E, H, L>(head, values, dst, order, ctx, each);
    Ok(size)
}

// Returns how many bytes a head and values have, or the greatest `usize` if there are more.
#[inline(always)]
fn size_list<C, D, E, H: Part<C, E>, L: Part<D, E>>(
    head: &H,
    values: &[L],
    order: Endian,
    ctx: &C,
    each: &D,
) -> usize
    requires head { agrees (H.format ctx.now) order head.now }
    requires values { All (agrees (L.format each.now) order) values.now }
    ensures { result ≡ min (length (list_bytes (H.format ctx.now) (L.format each.now) order head.now
        values.now)) (2 ^ 64 - 1) }
{
    head.size(order, ctx)
        .saturating_add(size_each::<D, E, L>(values, order, each))
}

// Writes a head and values to the start of a target, which has room for them.
#[inline(always)]
fn put_list<C, D, E, H: Part<C, E>, L: Part<D, E>>(
    head: &H,
    values: &[L],
    dst: &mut [u8],
    order: Endian,
    ctx: &C,
    each: &D,
)
    requires head { agrees (H.format ctx.now) order head.now }
    requires values { All (agrees (L.format each.now) order) values.now }
    requires room { length (list_bytes (H.format ctx.now) (L.format each.now) order head.now
        values.now) ≤ length dst.old }
    ensures { dst.new ≡ list_bytes (H.format ctx.now) (L.format each.now) order head.now values.now
        ++ drop (length (list_bytes (H.format ctx.now) (L.format each.now) order head.now
        values.now)) dst.old }
{
    let first = head.size(order, ctx);
    head.put(dst, order, ctx);
    put_each_behind::<D, E, L>(values, dst, first, order, each)
}

// Returns the error of the first value that doesn't agree.
fn check_each<C, E, L: Part<C, E>>(values: &[L], order: Endian, ctx: &C) -> Result<(), E>
    ensures agrees { OnOk result (All (agrees (L.format ctx.now) order) values.now) }
    ensures differs { IfErr result (DiffersOne (L.format ctx.now) order values.now) }
{
    for i in 0..values.len() {
        match values[i].check(order, ctx) {
            Ok(()) => (),
            Err(error) => return Err(error),
        }
    }
    Ok(())
}

// Returns how many bytes the values have, or the greatest `usize` if there are more.
fn size_each<C, E, L: Part<C, E>>(values: &[L], order: Endian, ctx: &C) -> usize
    requires { All (agrees (L.format ctx.now) order) values.now }
    ensures { result ≡ min (length (flat_map (bytes (L.format ctx.now) order) values.now))
        (2 ^ 64 - 1) }
{
    let mut size: usize = 0;
    for i in 0..values.len() {
        size = size.saturating_add(values[i].size(order, ctx));
    }
    size
}

// Writes the values behind the `offset` bytes before them.
#[inline(always)]
fn put_each_behind<C, E, L: Part<C, E>>(
    values: &[L],
    dst: &mut [u8],
    offset: usize,
    order: Endian,
    ctx: &C,
)
    requires agreed { All (agrees (L.format ctx.now) order) values.now }
    requires room { offset + length (flat_map (bytes (L.format ctx.now) order) values.now)
        ≤ length dst.old }
    ensures before { take offset dst.new ≡ take offset dst.old }
    ensures after { drop offset dst.new ≡ flat_map (bytes (L.format ctx.now) order) values.now
        ++ drop (length (flat_map (bytes (L.format ctx.now) order) values.now))
        (drop offset dst.old) }
{
    put_each::<C, E, L>(values, &mut dst[offset..], order, ctx)
}

// Writes the values to the start of a target, which has room for them.
fn put_each<C, E, L: Part<C, E>>(values: &[L], dst: &mut [u8], order: Endian, ctx: &C)
    requires agreed { All (agrees (L.format ctx.now) order) values.now }
    requires room { length (flat_map (bytes (L.format ctx.now) order) values.now)
        ≤ length dst.old }
    ensures { dst.new ≡ flat_map (bytes (L.format ctx.now) order) values.now
        ++ drop (length (flat_map (bytes (L.format ctx.now) order) values.now)) dst.old }
{
    let mut offset = 0;
    for i in 0..values.len() {
        put_behind::<E, C, L>(&values[i], dst, offset, order, ctx);
        offset += values[i].size(order, ctx);
    }
}
