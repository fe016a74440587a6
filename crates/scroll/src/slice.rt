//! The calls of [`Pwrite`](crate::Pwrite) and [`Cwrite`](crate::Cwrite) as functions on a borrowed
//! slice.
//!
//! A method of these takes a reference to a `&mut [u8]`, so a function whose contract says what a
//! parameter of that type holds afterwards can't call it on the parameter. These functions take the
//! slice itself, and their offsets, errors and unchanged bytes are those of the methods:
//!
//! ```rust
//! use scroll::{BE, slice};
//!
//! let mut bytes = [0u8; 8];
//! let offset = &mut 0;
//! slice::gwrite_with(&mut bytes, 1u16, offset, BE)?;
//! slice::gwrite_with(&mut bytes, 0xbeefbeefu32, offset, BE)?;
//! assert_eq!(rt; *offset, 6);
//! ```
ghost use Rattle.std.specs.Prelude.{◌≡◌, ◌+◌, ◌≤◌, length, take, drop, IfOk, IfErr, OnErr};
ghost use Rattle.scroll.specs.Reads.{ByDefault};
ghost use Rattle.scroll.specs.Writes.{WritesAt, RefusesWriteAt};
ghost use Rattle.scroll.specs.Errors.{PastEnd};

use crate::ctx::{IntoCtx, TryIntoCtx};
use crate::error::Error;

/// Writes `n` at `offset` in the default context, which for numbers is the machine's byte order,
/// and returns its size in bytes.
///
/// ```rust
/// let mut bytes = [0u8; 8];
/// slice::pwrite(&mut bytes, 0xbeefbeefu32, 0)?;
/// assert_eq!(rt; bytes[..].pread::<u32>(0)?, 0xbeefbeef);
/// ```
#[inline(always)]
pub fn pwrite<Ctx: Copy + Default, E: From<Error>, N: TryIntoCtx<Ctx, Error = E> + Drop>(
    dst: &mut [u8],
    n: N,
    offset: usize,
) -> Result<usize, E>
    ensures wrote { IfOk result (λ size.
        ByDefault Ctx.is_default (λ ctx. WritesAt (N.writes ctx n) dst.old offset dst.new size)) }
    ensures refused { IfErr result (λ e. ByDefault Ctx.is_default (λ ctx.
        RefusesWriteAt (N.refuses ctx n) (PastEnd E.from_gives) dst.old offset dst.new e)) }
{
    pwrite_with(dst, n, offset, Ctx::default())
}

/// Writes `n` at `offset` in the context `ctx`, and returns its size in bytes.
///
/// ```rust
/// let mut bytes = [0u8; 8];
/// slice::pwrite_with(&mut bytes, 0xbeefbeefu32, 0, LE)?;
/// assert_eq!(rt; bytes[..].pread_with::<u32>(0, LE)?, 0xbeefbeef);
/// ```
#[inline(always)]
pub fn pwrite_with<Ctx: Copy, E: From<Error>, N: TryIntoCtx<Ctx, Error = E> + Drop>(
    dst: &mut [u8],
    n: N,
    offset: usize,
    ctx: Ctx,
) -> Result<usize, E>
    ensures wrote { IfOk result (WritesAt (N.writes ctx n) dst.old offset dst.new) }
    ensures refused { IfErr result
        (RefusesWriteAt (N.refuses ctx n) (PastEnd E.from_gives) dst.old offset dst.new) }
{
    let mut offset = offset;
    gwrite_with(dst, n, &mut offset, ctx)
}

/// Writes `n` at the cursor `offset` in the default context, advances the cursor by the size of `n`
/// in bytes, and returns that size. On an error the cursor is unchanged.
///
/// ```rust
/// let mut bytes = [0u8; 8];
/// let offset = &mut 0;
/// slice::gwrite(&mut bytes, 0xbeefbeefu32, offset)?;
/// assert_eq!(rt; *offset, 4);
/// ```
#[inline(always)]
pub fn gwrite<Ctx: Copy + Default, E: From<Error>, N: TryIntoCtx<Ctx, Error = E> + Drop>(
    dst: &mut [u8],
    n: N,
    offset: &mut usize,
) -> Result<usize, E>
    ensures wrote { IfOk result (λ size. ByDefault Ctx.is_default (λ ctx.
        WritesAt (N.writes ctx n) dst.old offset.old dst.new size)) }
    ensures refused { IfErr result (λ e. ByDefault Ctx.is_default (λ ctx.
        RefusesWriteAt (N.refuses ctx n) (PastEnd E.from_gives) dst.old offset.old dst.new e)) }
    ensures moves { IfOk result (λ size. offset.new ≡ offset.old + size) }
    ensures stays { OnErr result (offset.new ≡ offset.old) }
{
    gwrite_with(dst, n, offset, Ctx::default())
}

/// Writes `n` at the cursor `offset` in the context `ctx`, advances the cursor by the size of `n`
/// in bytes, and returns that size. On an error the cursor is unchanged.
///
/// ```rust
/// let mut bytes = [0u8; 8];
/// let offset = &mut 0;
/// slice::gwrite_with(&mut bytes, 0xbeefbeefu32, offset, LE)?;
/// slice::gwrite_with(&mut bytes, 1u16, offset, BE)?;
/// assert_eq!(rt; *offset, 6);
/// ```
#[inline(always)]
pub fn gwrite_with<Ctx: Copy, E: From<Error>, N: TryIntoCtx<Ctx, Error = E> + Drop>(
    dst: &mut [u8],
    n: N,
    offset: &mut usize,
    ctx: Ctx,
) -> Result<usize, E>
    ensures wrote { IfOk result (WritesAt (N.writes ctx n) dst.old offset.old dst.new) }
    ensures refused { IfErr result
        (RefusesWriteAt (N.refuses ctx n) (PastEnd E.from_gives) dst.old offset.old dst.new) }
    ensures moves { IfOk result (λ size. offset.new ≡ offset.old + size) }
    ensures stays { OnErr result (offset.new ≡ offset.old) }
{
    let start = *offset;
    if start > dst.len() {
        return Err(E::from(Error::BadOffset(start)));
    }
    let size = n.try_into_ctx(&mut dst[start..], ctx)?;
    *offset = start + size;
    Ok(size)
}

/// Writes `n` at `offset` in the default context, which for numbers is the machine's byte order.
/// This can't fail: the caller ensures that `offset` plus the number of bytes that the type needs
/// is at most the length of the slice. The bytes before the offset, and those after the bytes that
/// the type needs, are unchanged.
///
/// ```rust
/// let mut bytes = [0u8; 12];
/// slice::cwrite(&mut bytes, 42i64, 0);
/// slice::cwrite(&mut bytes, 0xdeadbeefu32, 8);
/// assert_eq!(rt; bytes[..].cread::<u32>(8), 0xdeadbeef);
/// ```
#[inline(always)]
pub fn cwrite<Ctx: Copy + Default, N: IntoCtx<Ctx>>(dst: &mut [u8], n: N, offset: usize)
    requires { (ctx : Ctx) → Ctx.is_default ctx → offset + N.need ctx ≤ length dst.old }
    ensures before { take offset dst.new ≡ take offset dst.old }
    ensures after { ByDefault Ctx.is_default (λ ctx.
        N.overwrites ctx n (drop offset dst.old) (drop offset dst.new)) }
{
    cwrite_with(dst, n, offset, Ctx::default())
}

/// Writes `n` at `offset` in the context `ctx`. The caller ensures room as for
/// [`Cwrite`](crate::Cwrite).
///
/// ```rust
/// let mut bytes = [0u8; 16];
/// slice::cwrite_with(&mut bytes, 0xdeadbeefu32, 8, BE);
/// assert_eq!(rt; bytes[..].cread_with::<u32>(8, LE), 4022250974);
/// ```
#[inline(always)]
pub fn cwrite_with<Ctx: Copy, N: IntoCtx<Ctx>>(dst: &mut [u8], n: N, offset: usize, ctx: Ctx)
    requires { offset + N.need ctx ≤ length dst.old }
    ensures before { take offset dst.new ≡ take offset dst.old }
    ensures after { N.overwrites ctx n (drop offset dst.old) (drop offset dst.new) }
{
    n.into_ctx(&mut dst[offset..], ctx)
}
