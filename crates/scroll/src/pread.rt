// Reads at an offset and at a cursor.
ghost use Rattle.std.specs.Prelude.{◌≡◌, ℕ, List, IfOk, IfErr, OnOk, OnErr};
ghost use Rattle.scroll.specs.Reads.{ReadsSome, ReadsBetween, ReadsAll, RefusesAt, StopsAt, ByDefault};
ghost use Rattle.scroll.specs.Errors.{PastEnd};

use crate::error::Error;
use crate::source::{ReadFrom, Source};

/// Reads values of any type that implements [`TryFromCtx`](crate::ctx::TryFromCtx) from a byte
/// slice.
///
/// An offset counts from the start of the slice. One past the end returns
/// `E::from(Error::BadOffset(offset))`; one at the end reads an empty source. Every other error is
/// the type's own. Arrays and vectors are read as they are.
pub trait Pread<Ctx: Copy, E>: Source {
    // Holds of an offset past the end and each error that may be returned for it.
    ghost past_end: { ℕ → E → Type 0 };

    /// Reads a value of type `N` at `offset` in the default context, which for numbers is the
    /// machine's byte order.
    ///
    /// ```rust
    /// let bytes = [0x7fu8; 1];
    /// let byte = bytes[..].pread::<u8>(0)?;
    /// assert_eq!(rt; byte, 127);
    /// ```
    #[inline(always)]
    final fn pread<N: ReadFrom<Self, Ctx, Error = E>>(self, offset: usize) -> Result<N, E>
    where
        Ctx: Default,
        ensures read { IfOk result (λ x.
            ByDefault Ctx.is_default (λ ctx. ReadsSome (N.reads ctx) (Self.bytes self) offset x)) }
        ensures refused { IfErr result (λ e. ByDefault Ctx.is_default (λ ctx.
            RefusesAt (N.refuses ctx) past_end (Self.bytes self) offset e)) }
    {
        self.pread_with(offset, Ctx::default())
    }

    /// Reads a value of type `N` at `offset` in the context `ctx`.
    ///
    /// ```rust
    /// let bytes: [u8; 2] = [0xde, 0xad];
    /// let dead: u16 = bytes[..].pread_with(0, BE)?;
    /// assert_eq!(rt; dead, 0xdead);
    /// let end = bytes[..].pread_with::<u16>(2, BE);
    /// assert!(rt; matches!(end, Err(Error::TooBig { size: 2, len: 0 })));
    /// let past = bytes[..].pread_with::<u16>(3, BE);
    /// assert!(rt; matches!(past, Err(Error::BadOffset(3))));
    /// ```
    #[inline(always)]
    final fn pread_with<N: ReadFrom<Self, Ctx, Error = E>>(
        self,
        offset: usize,
        ctx: Ctx,
    ) -> Result<N, E>
        ensures read { IfOk result (ReadsSome (N.reads ctx) (Self.bytes self) offset) }
        ensures refused { IfErr result
            (RefusesAt (N.refuses ctx) past_end (Self.bytes self) offset) }
    {
        let mut offset = offset;
        self.gread_with(&mut offset, ctx)
    }

    /// Reads a value of type `N` at the cursor `offset` in the default context, and advances the
    /// cursor by the value's size. On an error the cursor is unchanged.
    ///
    /// ```rust
    /// let bytes = [0x7fu8; 1];
    /// let offset = &mut 0;
    /// let byte = bytes[..].gread::<u8>(offset)?;
    /// assert_eq!(rt; byte, 127);
    /// assert_eq!(rt; *offset, 1);
    /// ```
    #[inline(always)]
    final fn gread<N: ReadFrom<Self, Ctx, Error = E>>(self, offset: &mut usize) -> Result<N, E>
    where
        Ctx: Default,
        ensures read { IfOk result (λ x. ByDefault Ctx.is_default (λ ctx.
            ReadsBetween (N.reads ctx) (Self.bytes self) offset.old offset.new x)) }
        ensures refused { IfErr result (λ e. ByDefault Ctx.is_default (λ ctx.
            RefusesAt (N.refuses ctx) past_end (Self.bytes self) offset.old e)) }
        ensures stays { OnErr result (offset.new ≡ offset.old) }
    {
        self.gread_with(offset, Ctx::default())
    }

    /// Reads a value of type `N` at the cursor `offset` in the context `ctx`, and advances the
    /// cursor by the value's size. On an error the cursor is unchanged.
    ///
    /// ```rust
    /// let bytes: [u8; 2] = [0xde, 0xad];
    /// let offset = &mut 0;
    /// let dead: u16 = bytes[..].gread_with(offset, BE)?;
    /// assert_eq!(rt; dead, 0xdead);
    /// assert_eq!(rt; *offset, 2);
    /// assert!(rt; bytes[..].gread_with::<u16>(offset, BE).is_err());
    /// assert_eq!(rt; *offset, 2);
    /// ```
    fn gread_with<N: ReadFrom<Self, Ctx, Error = E>>(
        self,
        offset: &mut usize,
        ctx: Ctx,
    ) -> Result<N, E>
        ensures read { IfOk result (ReadsBetween (N.reads ctx)
            (Self.bytes self) offset.old offset.new) }
        ensures refused { IfErr result
            (RefusesAt (N.refuses ctx) past_end (Self.bytes self) offset.old) }
        ensures stays { OnErr result (offset.new ≡ offset.old) };

    /// Fills `inout` with values that are read one after another from the cursor `offset` in the
    /// default context, and advances the cursor past the last one. An error leaves what
    /// [`gread_inout_with`](Pread::gread_inout_with) leaves.
    ///
    /// ```rust
    /// let bytes: [u8; 2] = [0x48, 0x49];
    /// let mut values = [0u8; 2];
    /// let offset = &mut 0;
    /// bytes[..].gread_inout(offset, &mut values)?;
    /// assert_eq!(rt; values, bytes);
    /// assert_eq!(rt; *offset, 2);
    /// ```
    fn gread_inout<N: ReadFrom<Self, Ctx, Error = E> + Drop>(
        self,
        offset: &mut usize,
        inout: &mut [N],
    ) -> Result<(), E>
    where
        Ctx: Default,
        ensures read { OnOk result (ByDefault Ctx.is_default (λ ctx.
            ReadsAll (N.reads ctx) (Self.bytes self) offset.old inout.new offset.new)) }
        ensures stopped { IfErr result (λ e.
            ByDefault Ctx.is_default (λ ctx. StopsAt (N.reads ctx) (N.refuses ctx) past_end
            (Self.bytes self) offset.old offset.new inout.old inout.new e)) }
    {
        self.gread_inout_with(offset, inout, Ctx::default())
    }

    /// Fills `inout` with values that are read one after another from the cursor `offset` in the
    /// context `ctx`, and advances the cursor past the last one.
    ///
    /// Returns the error of the first value that can't be read. The elements before it then have
    /// their new values, the others are unchanged, and the cursor is where that value starts. An
    /// empty `inout` succeeds at any offset.
    ///
    /// ```rust
    /// let bytes: [u8; 2] = [0x48, 0x49];
    /// let mut values = [0u8; 2];
    /// let offset = &mut 0;
    /// bytes[..].gread_inout_with(offset, &mut values, LE)?;
    /// assert_eq!(rt; values, bytes);
    /// assert_eq!(rt; *offset, 2);
    ///
    /// let bytes: [u8; 7] = [1, 2, 3, 4, 5, 6, 7];
    /// let mut values = [9u16; 3];
    /// let offset = &mut 3;
    /// let short = bytes[..].gread_inout_with(offset, &mut values, LE);
    /// assert!(rt; matches!(short, Err(Error::TooBig { size: 2, len: 0 })));
    /// assert_eq!(rt; values, [1284, 1798, 9]);
    /// assert_eq!(rt; *offset, 7);
    /// ```
    fn gread_inout_with<N: ReadFrom<Self, Ctx, Error = E> + Drop>(
        self,
        offset: &mut usize,
        inout: &mut [N],
        ctx: Ctx,
    ) -> Result<(), E>
        ensures read { OnOk result (ReadsAll (N.reads ctx)
            (Self.bytes self) offset.old inout.new offset.new) }
        ensures stopped { IfErr result (StopsAt (N.reads ctx) (N.refuses ctx) past_end
            (Self.bytes self) offset.old offset.new inout.old inout.new) }
    {
        for i in 0..inout.len() {
            inout[i] = self.gread_with(offset, ctx)?;
        }
        Ok(())
    }
}

impl<'a, Ctx: Copy, E: From<Error>> Pread<Ctx, E> for &'a [u8] {
    ghost past_end = { PastEnd E.from_gives };

    #[inline(always)]
    fn gread_with<N: ReadFrom<Self, Ctx, Error = E>>(
        self,
        offset: &mut usize,
        ctx: Ctx,
    ) -> Result<N, E> {
        let start = *offset;
        if start > self.len() {
            return Err(E::from(Error::BadOffset(start)));
        }
        let (value, size) = N::read_from(&self[start..], ctx)?;
        *offset = start + size;
        Ok(value)
    }
}
