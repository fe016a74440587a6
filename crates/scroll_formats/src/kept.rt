// Values that read back as they were written.
ghost use Rattle.std.specs.Prelude.{ℕ, ◌<◌, ◌++◌, List, take};
ghost use Rattle.std.specs.List.{All};

use scroll::ctx::{TryFromCtx, TryIntoCtx};

/// A type whose values read back as they were written, whatever follows them.
///
/// [`write_kept`](crate::write_kept), [`write_many_kept`](crate::write_many_kept) and
/// [`write_placed`](crate::write_placed) say so of what they write. `tools/derive` prints the
/// implementation for most structs, as in `crates/zip/src/entry.rt`.
pub trait Kept<'a, Ctx: Copy>: TryFromCtx<'a, Ctx> + TryIntoCtx<Ctx> + Copy {
    // Holds of a context, a source, and each value and size that stand at its start. What follows
    // the value need not be bytes.
    ghost reads: { Ctx → List ℕ → Self → ℕ → Type 0 };

    // Holds of each value of the type.
    ghost fits: { Self → Type 0 };

    /// Does nothing, and says that the value fits.
    fn fit(self)
        ensures { fits self };

    /// Does nothing, and says that where the value stands at the start of bytes, the type's own
    /// read may return it.
    fn returned(self)
        ensures { (ctx : Ctx) (source : List ℕ) (n : ℕ) → All (λ b. b < 256) source
            → reads ctx source self n → Self.TryFromCtx.reads ctx source self n };

    // What was written reads back.
    ghost back: { (ctx : Ctx) (x : Self) (old new rest : List ℕ) (n : ℕ) → fits x
        → Self.TryIntoCtx.writes ctx x old new n → reads ctx (take n new ++ rest) x n };
}
