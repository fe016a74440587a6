// Reads and writes where the caller ensures that there is room.
ghost use Rattle.std.specs.Prelude.{◌≡◌, ℕ, ◌+◌, ◌≤◌, List, length, take, drop};
ghost use Rattle.scroll.specs.Reads.{ByDefault};

use crate::ctx::{FromCtx, IntoCtx};
use crate::slice;
use crate::source::Source;

/// Infallible reads from a byte slice, of any type that implements [`FromCtx`].
///
/// The caller ensures that the offset plus the number of bytes that the type needs is at most the
/// length of the slice; [`Pread`](crate::Pread) checks this, and returns an error.
///
/// From `crates/examples/src/overview.rt`:
///
/// ```rust
/// impl FromCtx<Endian> for Bar {
///     ghost need = { λ _. 8 };
///
///     ghost makes = { λ order source x. (x.foo ≡ signed_number order 4 source) × (x.bar ≡ number order 4 (drop 4 source)) };
///
///     fn from_ctx(this: &[u8], ctx: Endian) -> Bar {
///         let foo = this.cread_with(0, ctx);
///         let bar = this.cread_with(4, ctx);
///         Bar { foo, bar }
///     }
/// }
/// ```
pub trait Cread<Ctx: Copy>: Source {
    /// Reads a value of type `N` at `offset` in the default context, which for numbers is the
    /// machine's byte order.
    ///
    /// ```rust
    /// let bytes: [u8; 12] = [1, 0, 0, 0, 0, 0, 0, 0, 0xef, 0xbe, 0, 0];
    /// let source = &bytes[..];
    /// assert_eq!(rt; source.cread::<i64>(0), 1);
    /// assert_eq!(rt; source.cread::<u32>(8), 48879);
    /// ```
    fn cread<N: FromCtx<Ctx>>(self, offset: usize) -> N
    where
        Ctx: Default,
        requires { (ctx : Ctx) → Ctx.is_default ctx
            → offset + N.need ctx ≤ length (Self.bytes self) }
        ensures { ByDefault Ctx.is_default (λ ctx.
            N.makes ctx (drop offset (Self.bytes self)) result) }
    {
        self.cread_with(offset, Ctx::default())
    }

    /// Reads a value of type `N` at `offset` in the context `ctx`.
    ///
    /// ```rust
    /// let bytes: [u8; 12] = [0x7f, 255, 255, 255, 255, 255, 255, 255, 0xef, 0xbe, 0xad, 0xde];
    /// let source = &bytes[..];
    /// assert_eq!(rt; source.cread_with::<i64>(0, BE), i64::MAX);
    /// assert_eq!(rt; source.cread_with::<u32>(8, LE), 0xdeadbeef);
    /// ```
    fn cread_with<N: FromCtx<Ctx>>(self, offset: usize, ctx: Ctx) -> N
        requires { offset + N.need ctx ≤ length (Self.bytes self) }
        ensures { N.makes ctx (drop offset (Self.bytes self)) result };
}

impl<'a, Ctx: Copy> Cread<Ctx> for &'a [u8] {
    fn cread_with<N: FromCtx<Ctx>>(self, offset: usize, ctx: Ctx) -> N {
        N::from_ctx(&self[offset..], ctx)
    }
}

/// Infallible writes to a byte slice, of any type that implements [`IntoCtx`].
///
/// The caller ensures room as for [`Cread`]. The bytes before the offset, and those after the bytes
/// that the type needs, are unchanged.
///
/// From `crates/examples/src/overview.rt`:
///
/// ```rust
/// impl IntoCtx<Endian> for Bar {
///     ghost need = { λ _. 8 };
///
///     ghost overwrites = { λ order x old new. new ≡ (signed_bytes order 4 x.foo ++ number_bytes order 4 x.bar) ++ drop 8 old };
///
///     ghost overwrites_keeps = { λ order x old new h. Prim.search rules };
///
///     fn into_ctx(self, dst: &mut [u8], ctx: Endian) {
///         slice::cwrite_with(dst, self.foo, 0, ctx);
///         slice::cwrite_with(dst, self.bar, 4, ctx);
///     }
/// }
/// ```
pub trait Cwrite<Ctx: Copy> {
    // The bytes of the target.
    ghost target: { Self → List ℕ };

    // Holds of two values that refer to the same target.
    ghost same_target: { Self → Self → Type 0 };

    /// Writes `n` at `offset` in the default context, which for numbers is the machine's byte
    /// order.
    ///
    /// ```rust
    /// let mut bytes = [0u8; 12];
    /// let mut target = &mut bytes[..];
    /// target.cwrite(42i64, 0);
    /// target.cwrite(0xdeadbeefu32, 8);
    /// assert_eq!(rt; bytes[..].cread::<i64>(0), 42);
    /// assert_eq!(rt; bytes[..].cread::<u32>(8), 0xdeadbeef);
    /// ```
    fn cwrite<N: IntoCtx<Ctx>>(&mut self, n: N, offset: usize)
    where
        Ctx: Default,
        requires { (ctx : Ctx) → Ctx.is_default ctx
            → offset + N.need ctx ≤ length (target self.old) }
        ensures before { take offset (target self.new) ≡ take offset (target self.old) }
        ensures after { ByDefault Ctx.is_default (λ ctx.
            N.overwrites ctx n (drop offset (target self.old)) (drop offset (target self.new))) }
        ensures len { length (target self.new) ≡ length (target self.old) }
        ensures same { same_target self.old self.new }
    {
        self.cwrite_with(n, offset, Ctx::default())
    }

    /// Writes `n` at `offset` in the context `ctx`.
    ///
    /// ```rust
    /// let mut bytes = [0u8; 16];
    /// let mut target = &mut bytes[..];
    /// target.cwrite_with(0xdeadbeefu32, 8, BE);
    /// assert_eq!(rt; bytes[..].cread_with::<u32>(8, LE), 4022250974);
    /// ```
    fn cwrite_with<N: IntoCtx<Ctx>>(&mut self, n: N, offset: usize, ctx: Ctx)
        requires { offset + N.need ctx ≤ length (target self.old) }
        ensures before { take offset (target self.new) ≡ take offset (target self.old) }
        ensures after { N.overwrites ctx n (drop offset (target self.old))
            (drop offset (target self.new)) }
        ensures len { length (target self.new) ≡ length (target self.old) }
        ensures same { same_target self.old self.new };
}

impl<'d, Ctx: Copy> Cwrite<Ctx> for &'d mut [u8] {
    ghost target = { λ t. t.now };

    ghost same_target = { λ old new. new.ghost_name ≡ old.ghost_name };

    fn cwrite_with<N: IntoCtx<Ctx>>(&mut self, n: N, offset: usize, ctx: Ctx) {
        slice::cwrite_with(self, n, offset, ctx)
    }
}
