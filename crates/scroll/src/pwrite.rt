// Writes at an offset and at a cursor.
ghost use Rattle.std.specs.Prelude.{◌≡◌, ℕ, ◌+◌, List, length, IfOk, IfErr, OnErr};
ghost use Rattle.scroll.specs.Reads.{ByDefault};
ghost use Rattle.scroll.specs.Writes.{WritesAt, RefusesWriteAt};
ghost use Rattle.scroll.specs.Errors.{PastEnd};

use crate::ctx::TryIntoCtx;
use crate::error::Error;
use crate::slice;

mod owned;

/// Writes values of any type that implements [`TryIntoCtx`] and `Drop` to a byte slice.
///
/// An offset counts from the start of the slice. One past the end returns
/// `E::from(Error::BadOffset(offset))` and leaves the slice unchanged; one at the end writes to an
/// empty target. Every other error is the type's own, and the type says what it leaves. The bytes
/// before the offset are always unchanged. Arrays and vectors are written as they are.
pub trait Pwrite<Ctx: Copy, E> {
    // The bytes of the target.
    ghost target: { Self → List ℕ };

    // Holds of two values that refer to the same target.
    ghost same_target: { Self → Self → Type 0 };

    // Holds of an offset past the end and each error that may be returned for it.
    ghost past_end: { ℕ → E → Type 0 };

    /// Writes `n` at `offset` in the default context, which for numbers is the machine's byte
    /// order, and returns its size in bytes.
    ///
    /// ```rust
    /// let mut bytes = [0u8; 8];
    /// let mut target = &mut bytes[..];
    /// target.pwrite(0xbeefbeefu32, 0)?;
    /// assert_eq!(rt; bytes[..].pread::<u32>(0)?, 0xbeefbeef);
    /// ```
    #[inline(always)]
    final fn pwrite<N: TryIntoCtx<Ctx, Error = E> + Drop>(
        &mut self,
        n: N,
        offset: usize,
    ) -> Result<usize, E>
    where
        Ctx: Default,
        ensures wrote { IfOk result (λ size. ByDefault Ctx.is_default (λ ctx.
            WritesAt (N.writes ctx n) (target self.old) offset (target self.new) size)) }
        ensures refused { IfErr result (λ e. ByDefault Ctx.is_default (λ ctx. RefusesWriteAt
            (N.refuses ctx n) past_end (target self.old) offset (target self.new) e)) }
        ensures len { length (target self.new) ≡ length (target self.old) }
        ensures same { same_target self.old self.new }
    {
        self.pwrite_with(n, offset, Ctx::default())
    }

    /// Writes `n` at `offset` in the context `ctx`, and returns its size in bytes.
    ///
    /// ```rust
    /// let mut bytes = [0u8; 8];
    /// let mut target = &mut bytes[..];
    /// target.pwrite_with(0xbeefbeefu32, 0, LE)?;
    /// assert_eq!(rt; bytes[..].pread_with::<u32>(0, LE)?, 0xbeefbeef);
    /// let mut target = &mut bytes[..];
    /// let past = target.pwrite_with(0u16, 9, LE);
    /// assert!(rt; matches!(past, Err(Error::BadOffset(9))));
    /// let mut target = &mut bytes[..];
    /// let short = target.pwrite_with(0u16, 7, LE);
    /// assert!(rt; matches!(short, Err(Error::TooBig { size: 2, len: 1 })));
    /// ```
    #[inline(always)]
    final fn pwrite_with<N: TryIntoCtx<Ctx, Error = E> + Drop>(
        &mut self,
        n: N,
        offset: usize,
        ctx: Ctx,
    ) -> Result<usize, E>
        ensures wrote { IfOk result (WritesAt (N.writes ctx n) (target self.old) offset
            (target self.new)) }
        ensures refused { IfErr result
            (RefusesWriteAt (N.refuses ctx n) past_end (target self.old) offset (target self.new)) }
        ensures len { length (target self.new) ≡ length (target self.old) }
        ensures same { same_target self.old self.new }
    {
        let mut offset = offset;
        self.gwrite_with(n, &mut offset, ctx)
    }

    /// Writes `n` at the cursor `offset` in the default context, advances the cursor by the size of
    /// `n` in bytes, and returns that size. On an error the cursor is unchanged.
    ///
    /// ```rust
    /// let mut bytes = [0u8; 8];
    /// let mut target = &mut bytes[..];
    /// let offset = &mut 0;
    /// target.gwrite(0xbeefbeefu32, offset)?;
    /// assert_eq!(rt; *offset, 4);
    /// ```
    #[inline(always)]
    final fn gwrite<N: TryIntoCtx<Ctx, Error = E> + Drop>(
        &mut self,
        n: N,
        offset: &mut usize,
    ) -> Result<usize, E>
    where
        Ctx: Default,
        ensures wrote { IfOk result (λ size. ByDefault Ctx.is_default (λ ctx.
            WritesAt (N.writes ctx n) (target self.old) offset.old (target self.new) size)) }
        ensures refused { IfErr result (λ e. ByDefault Ctx.is_default (λ ctx. RefusesWriteAt
            (N.refuses ctx n) past_end (target self.old) offset.old (target self.new) e)) }
        ensures moves { IfOk result (λ size. offset.new ≡ offset.old + size) }
        ensures stays { OnErr result (offset.new ≡ offset.old) }
        ensures len { length (target self.new) ≡ length (target self.old) }
        ensures same { same_target self.old self.new }
    {
        self.gwrite_with(n, offset, Ctx::default())
    }

    /// Writes `n` at the cursor `offset` in the context `ctx`, advances the cursor by the size of
    /// `n` in bytes, and returns that size. On an error the cursor is unchanged.
    ///
    /// ```rust
    /// let mut bytes = [0u8; 8];
    /// let mut target = &mut bytes[..];
    /// let offset = &mut 0;
    /// target.gwrite_with(0xbeefbeefu32, offset, LE)?;
    /// target.gwrite_with(1u16, offset, BE)?;
    /// assert_eq!(rt; *offset, 6);
    /// ```
    fn gwrite_with<N: TryIntoCtx<Ctx, Error = E> + Drop>(
        &mut self,
        n: N,
        offset: &mut usize,
        ctx: Ctx,
    ) -> Result<usize, E>
        ensures wrote { IfOk result (WritesAt (N.writes ctx n) (target self.old) offset.old
            (target self.new)) }
        ensures refused { IfErr result (RefusesWriteAt (N.refuses ctx n) past_end
            (target self.old) offset.old (target self.new)) }
        ensures moves { IfOk result (λ size. offset.new ≡ offset.old + size) }
        ensures stays { OnErr result (offset.new ≡ offset.old) }
        ensures len { length (target self.new) ≡ length (target self.old) }
        ensures same { same_target self.old self.new };
}

impl<'d, Ctx: Copy, E: From<Error>> Pwrite<Ctx, E> for &'d mut [u8] {
    ghost target = { λ t. t.now };

    ghost same_target = { λ old new. new.ghost_name ≡ old.ghost_name };

    ghost past_end = { PastEnd E.from_gives };

    #[inline(always)]
    fn gwrite_with<N: TryIntoCtx<Ctx, Error = E> + Drop>(
        &mut self,
        n: N,
        offset: &mut usize,
        ctx: Ctx,
    ) -> Result<usize, E> {
        slice::gwrite_with(self, n, offset, ctx)
    }
}
