// Sources of bytes, and what can be read from them.
ghost use Rattle.std.specs.Prelude.{ℕ, List, IfOk, IfErr};
ghost use Rattle.scroll.specs.Reads.{IsBounded};

use crate::ctx::TryFromCtx;

/// A source of bytes: a byte slice.
pub trait Source: Copy {
    // The bytes.
    ghost bytes: { Self → List ℕ };
}

impl<'a> Source for &'a [u8] {
    ghost bytes = { λ source. source.now };
}

/// A type that can be read from a source `S`: from a byte slice, each type that implements
/// [`TryFromCtx`].
///
/// It is the bound of [`Pread`](crate::Pread)'s methods, which can't name that trait's lifetime.
/// Implement `TryFromCtx` for a type of your own; it then has this trait too.
pub trait ReadFrom<S: Source, Ctx: Copy>: Sized {
    /// The error of a read.
    type Error;

    // Holds of a context, a source, and each value and size that a read of them may return.
    ghost reads: { Ctx → List ℕ → Self → ℕ → Type 0 };

    // Holds of a context, a source, and each error that a read of them may return.
    ghost refuses: { Ctx → List ℕ → Self.Error → Type 0 };

    /// Reads a value at the start of `from`, and returns it with its size in bytes, or the type's
    /// error.
    fn read_from(from: S, ctx: Ctx) -> Result<(Self, usize), Self::Error>
        ensures read { IfOk result (λ read. reads ctx (S.bytes from) read.0 read.1) }
        ensures refused { IfErr result (λ e. refuses ctx (S.bytes from) e) };

    // The size is at most one more than the length of the source.
    ghost reads_bounded: { (ctx : Ctx) → IsBounded (reads ctx) };
}

impl<'a, Ctx: Copy, N: TryFromCtx<'a, Ctx>> ReadFrom<&'a [u8], Ctx> for N {
    type Error = N::Error;

    ghost reads = { N.reads };

    ghost refuses = { N.refuses };

    ghost reads_bounded = { N.reads_bounded };

    #[inline(always)]
    fn read_from(from: &'a [u8], ctx: Ctx) -> Result<(N, usize), N::Error> {
        N::try_from_ctx(from, ctx)
    }
}
