// Zero bytes, such as padding.
ghost use Rattle.std.specs.Prelude.{◌≡◌, ◌≢◌, ℕ, ◌≤◌, ◌<◌, ◌+◌, ◌%◌, ◌++◌, length, drop, slice_index, IfSome, IfNone};
ghost use Rattle.std.proofs.Common.{rules};
ghost use Rattle.scroll.specs.Bytes.{WritesPrefix, FailsShort};
ghost use Rattle.scroll_formats.specs.Zeros.{padding_len, zeros, ReadsZeros, RefusesZeros};
ghost use Rattle.std.proofs.lemmas.List.{length-replicate};
ghost use Rattle.scroll.specs.lemmas.Frames.{drop-prefix, drop-written};

use scroll::ctx::{IntoCtx, TryFromCtx, TryIntoCtx};
use scroll::{Error, Result, check_room};

/// Bytes that are all zero, as many as the context says: padding, or what a format reserves. The
/// default context is 0.
///
/// A read returns [`Error::TooBig`] where the source is shorter, and else [`Error::BadInput`] with
/// the message `padding is not zero` where a byte isn't zero; its `size` is the offset of the first
/// such byte from the start of the zeros. A write returns [`Error::TooBig`] where the target is
/// shorter, and leaves it unchanged. [`padding`] says how many bytes there are before the next
/// multiple of a size.
///
/// ```rust
/// let file: &[u8] = &[7, 0, 0, 0, 0, 0, 0, 0, 9];
/// let mut offset = 1;
/// let count = padding(offset, 8);
/// file.gread_with::<Zeros>(&mut offset, count)?;
/// assert_eq!(rt; offset, 8);
/// ```
#[derive(Clone, Copy, Debug, PartialEq, Eq)]
pub struct Zeros;

/// Returns how many bytes there are between an offset and the next multiple of `multiple`: 0 at a
/// multiple, and if `multiple` is 0.
///
/// ```rust
/// assert_eq!(rt; padding(62, 8), 2);
/// assert_eq!(rt; padding(64, 8), 0);
/// ```
#[inline]
pub fn padding(offset: usize, multiple: usize) -> usize
    ensures value { result ≡ padding_len offset multiple }
    ensures next { 0 < multiple → (offset + result) % multiple ≡ 0 }
    ensures least { 0 < multiple → result < multiple }
    ensures none { multiple ≡ 0 → result ≡ 0 }
{
    if multiple == 0 {
        return 0;
    }
    (multiple - offset % multiple) % multiple
}

// Returns the offset of the first byte that isn't zero.
fn first_nonzero(bytes: &[u8]) -> Option<usize>
    ensures found { IfSome result (λ offset. (offset < length bytes.now)
        × (slice_index bytes.now offset ≢ 0)
        × ((i : ℕ) → i < offset → slice_index bytes.now i ≡ 0)) }
    ensures none { IfNone result ((i : ℕ) → i < length bytes.now → slice_index bytes.now i ≡ 0) }
{
    bytes.iter().position(|byte| *byte != 0)
}

impl<'a> TryFromCtx<'a, usize> for Zeros {
    type Error = Error;

    ghost reads = { λ n source _. ReadsZeros n source };

    ghost refuses = { RefusesZeros };

    ghost reads_bounded = { λ n source x size h. Prim.search rules };

    fn try_from_ctx(from: &'a [u8], ctx: usize) -> Result<(Zeros, usize)> {
        check_room(ctx, from.len())?;
        match first_nonzero(&from[..ctx]) {
            None => Ok((Zeros, ctx)),
            Some(size) => Err(Error::BadInput {
                size,
                msg: "padding is not zero",
            }),
        }
    }
}

impl IntoCtx<usize> for Zeros {
    ghost need = { λ n. n };

    ghost overwrites = { λ n _ old new. new ≡ zeros n ++ drop n old };

    ghost overwrites_keeps = { λ n _ old new h.
        drop-prefix n (zeros n) old new (length-replicate n 0) h };

    fn into_ctx(self, dst: &mut [u8], ctx: usize) {
        dst[..ctx].fill(0);
    }
}

impl TryIntoCtx<usize> for Zeros {
    type Error = Error;

    ghost writes = { λ n _. WritesPrefix n (zeros n) };

    ghost refuses = { λ n _. FailsShort n };

    ghost writes_bounded = { λ n x old new size h. Prim.search rules };

    ghost writes_keeps = { λ n _ old new size h. drop-written (length-replicate n 0) h };

    fn try_into_ctx(self, dst: &mut [u8], ctx: usize) -> Result<usize> {
        check_room(ctx, dst.len())?;
        self.into_ctx(dst, ctx);
        Ok(ctx)
    }
}
