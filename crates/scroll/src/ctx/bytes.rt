// Byte slices.
ghost use Rattle.std.specs.Prelude.{◌≡◌, ◌++◌, length, take, drop};
ghost use Rattle.std.proofs.Common.{rules};
ghost use Rattle.scroll.specs.Bytes.{WritesPrefix, FailsShort, RefusesShort};
ghost use Rattle.scroll.specs.Texts.{ReadsSlice};
ghost use Rattle.scroll.specs.lemmas.Frames.{WritesPrefix-keeps, slice-keeps};

use crate::ctx::{IntoCtx, TryFromCtx, TryIntoCtx};
use crate::error::{Error, Result, check_room};

/// Reads as many bytes as the context says, zero-copy.
///
/// The default context is 0. A shorter source returns [`Error::TooBig`] with the length in the
/// context and its own.
///
/// ```rust
/// let source: &[u8] = &[10, 11, 12];
/// assert_eq!(rt; source.pread_with::<&[u8]>(1, 2)?, [11u8, 12].as_slice());
/// let short = source.pread_with::<&[u8]>(1, 3);
/// assert!(rt; matches!(short, Err(Error::TooBig { size: 3, len: 2 })));
/// ```
impl<'a> TryFromCtx<'a, usize> for &'a [u8] {
    type Error = Error;

    ghost reads = { λ n source slice. ReadsSlice n source slice.now };

    ghost refuses = { RefusesShort };

    ghost reads_bounded = { λ n source slice size h. Prim.search rules };

    fn try_from_ctx(from: &'a [u8], ctx: usize) -> Result<(&'a [u8], usize)> {
        check_room(ctx, from.len())?;
        Ok((&from[..ctx], ctx))
    }
}

/// Writes the bytes of the slice alone. A shorter target returns [`Error::TooBig`] with the lengths
/// of both, and is unchanged.
impl<'s> TryIntoCtx<()> for &'s [u8] {
    type Error = Error;

    ghost writes = { λ _ slice. WritesPrefix (length slice.now) slice.now };

    ghost refuses = { λ _ slice. FailsShort (length slice.now) };

    ghost writes_bounded = { λ _ slice old new n h. Prim.search rules };

    ghost writes_keeps = { λ _ slice. WritesPrefix-keeps slice.now };

    fn try_into_ctx(self, dst: &mut [u8], _ctx: ()) -> Result<usize> {
        check_room(self.len(), dst.len())?;
        dst[..self.len()].copy_from_slice(self);
        Ok(self.len())
    }
}

/// Writes the first bytes of the slice, as many as the context says, or all of them if it has
/// fewer; those after them are unchanged. `dst` needs as many bytes as the context says.
///
/// ```rust
/// let mut bytes = [0xffu8; 4];
/// let three: &[u8] = &[1, 2, 3];
/// let mut target = &mut bytes[..];
/// target.cwrite_with(three, 1, 2);
/// assert_eq!(rt; bytes, [0xff, 1, 2, 0xff]);
/// ```
impl<'s> IntoCtx<usize> for &'s [u8] {
    ghost need = { λ n. n };

    ghost overwrites = { λ n slice old new.
        new ≡ take n slice.now ++ drop (length (take n slice.now)) old };

    ghost overwrites_keeps = { λ n slice. slice-keeps n slice.now };

    fn into_ctx(self, dst: &mut [u8], ctx: usize) {
        let len = self.len().min(ctx);
        dst[..len].copy_from_slice(&self[..len]);
    }
}
