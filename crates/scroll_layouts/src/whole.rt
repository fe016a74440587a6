// Parts that are read from the start of a source, and written to the start of a target.
ghost use Rattle.std.specs.List.{All};
ghost use Rattle.std.specs.Prelude.{◌≡◌, ◌≤◌, ◌<◌, ◌+◌, ◌-◌, ◌^◌, ◌++◌, ℕ, List, length, take, drop, min, IfOk, IfErr};
ghost use Rattle.scroll.specs.declared.endian.Endian.{Endian};
ghost use Rattle.scroll_layouts.specs.Formats.{exact, len, bytes, reads, refuses, agrees, differs};
ghost use Rattle.scroll_layouts.specs.OneWay.{told};
ghost use Rattle.scroll_layouts.specs.Wholes.{ReadsBack, ReadsWhole, ReadsExact, WritesWhole, KeepsWhole};

use crate::{Part, ReadPart};
use scroll::{Endian, Error, check_room};
use std::result::Result;

/// Reads a part at the start of `from`, and returns it with its size. Each part of another value
/// that the source has there, such as one that was written, is the same.
///
/// What a head says of what follows it must depend on the head's parts alone.
///
/// ```rust
/// let bytes: [u8; 6] = [2, b'h', b'i', 3, 0, 0];
/// let (name, size) = read_whole::<usize, Error, &[u8]>(&bytes[1..], LE, &2)?;
/// assert_eq!(rt; name, b"hi".as_slice());
/// assert_eq!(rt; size, 2);
/// let short = read_whole::<usize, Error, &[u8]>(&bytes[1..], LE, &6);
/// assert!(rt; matches!(&short, Err(Error::TooBig { size: 6, len: 5 })));
/// ```
#[inline(always)]
pub fn read_whole<'a, C, E, L: ReadPart<'a, C, E>>(
    from: &'a [u8],
    order: Endian,
    ctx: &C,
) -> Result<(L, usize), E>
    requires { told (L.format ctx.now) }
    ensures read { IfOk result (λ r. ReadsWhole (L.format ctx.now) order from.now r.0 r.1) }
    ensures refused { IfErr result (refuses (L.format ctx.now) order from.now 0) }
{
    let (value, end) = L::read_at(from, 0, order, ctx)?;
    Ok((value, end))
}

/// The same of a part without floats: the bytes of the value are those that were read.
///
/// ```rust
/// let bytes: [u8; 3] = [1, 2, 3];
/// let (Run(pair), _) = read_exact::<(), Error, Run<(u8, u16)>>(&bytes, BE, &())?;
/// let mut again = [0u8; 3];
/// write_whole::<(), Error, Run<(u8, u16)>>(&Run(pair), &mut again, BE, &())?;
/// assert_eq!(rt; again, bytes);
/// ```
#[inline(always)]
pub fn read_exact<'a, C, E, L: ReadPart<'a, C, E>>(
    from: &'a [u8],
    order: Endian,
    ctx: &C,
) -> Result<(L, usize), E>
    requires exact { exact (L.format ctx.now) }
    requires told { told (L.format ctx.now) }
    ensures read { IfOk result (λ r. ReadsExact (L.format ctx.now) order from.now r.0 r.1) }
    ensures refused { IfErr result (refuses (L.format ctx.now) order from.now 0) }
{
    let (value, end) = read_whole::<C, E, L>(from, order, ctx)?;
    Ok((value, end))
}

/// Does nothing, and says that where the value stands at the start of bytes, whatever follows it,
/// [`read_whole`] may return it.
pub fn kept_whole<'a, C, E, L: ReadPart<'a, C, E>>(value: &L, ctx: &C)
    requires { told (L.format ctx.now) }
    ensures { (order : Endian) (s : List ℕ) (n : ℕ) → All (λ b. b < 256) s
        → ReadsBack (L.format ctx.now) order s value.now n
        → ReadsWhole (L.format ctx.now) order s value.now n }
{}

/// The same of [`read_exact`].
pub fn kept_exact<'a, C, E, L: ReadPart<'a, C, E>>(value: &L, ctx: &C)
    requires exact { exact (L.format ctx.now) }
    requires told { told (L.format ctx.now) }
    ensures { (order : Endian) (s : List ℕ) (n : ℕ) → All (λ b. b < 256) s
        → ReadsBack (L.format ctx.now) order s value.now n
        → ReadsExact (L.format ctx.now) order s value.now n }
{}

/// Writes a part to the start of `dst` if its counts, constants, tags and conditions agree, and
/// returns its size. On an error `dst` is unchanged.
///
/// ```rust
/// let mut bytes = [0u8; 4];
/// let name = b"hi".as_slice();
/// assert_eq!(rt; write_whole::<usize, Error, &[u8]>(&name, &mut bytes, LE, &2)?, 2);
/// assert_eq!(rt; bytes, [b'h', b'i', 0, 0]);
/// let other = write_whole::<usize, Error, &[u8]>(&name, &mut bytes, LE, &3);
/// assert!(rt;
///     matches!(
///         &other,
///         Err(Error::BadInput {
///             size: 2,
///             msg: "another length than its count"
///         })
///     )
/// );
/// ```
#[inline(always)]
pub fn write_whole<C, E: From<Error>, L: Part<C, E>>(
    value: &L,
    dst: &mut [u8],
    order: Endian,
    ctx: &C,
) -> Result<usize, E>
    ensures wrote { IfOk result
        (WritesWhole (L.format ctx.now) order value.now dst.old dst.new) }
    ensures refused { IfErr result
        (KeepsWhole E.from_gives (L.format ctx.now) order value.now dst.old dst.new) }
{
    value.check(order, ctx)?;
    let size = value.size(order, ctx);
    check_room(size, dst.len())?;
    value.put(dst, order, ctx);
    Ok(size)
}
