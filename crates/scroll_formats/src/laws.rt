//! Laws of the definitions, as those of [`scroll::laws`].
ghost use Rattle.std.specs.Prelude.{ℕ};
ghost use Rattle.scroll.specs.Laws.{IsReaderWithin};
ghost use Rattle.scroll_formats.specs.Zeros.{ReadsZeros, RefusesZeros};
ghost use Rattle.scroll_formats.specs.declared.zeros.Zeros.{Zeros};

/// [`Zeros`](crate::Zeros) keep the laws of [`scroll::laws::reads_keep_their_laws`]: a read depends
/// on its own bytes alone, ends within its source, and has exactly one result.
pub fn zeros_keep_their_laws()
    ensures { (n : ℕ)
        → IsReaderWithin (λ source (_ : Zeros) size. ReadsZeros n source size) (RefusesZeros n) }
{}
