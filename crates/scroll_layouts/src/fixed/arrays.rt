// Arrays, and arrays of arrays.
ghost use Rattle.std.specs.Prelude.{◌≡◌, ◌≤◌, ◌<◌, ◌+◌, ◌-◌, ◌^◌, ◌++◌, ℕ, List, length, drop, min, slice_index_or};
ghost use Rattle.scroll.specs.declared.endian.Endian.{Endian};
ghost use Rattle.scroll_layouts.specs.Layouts.{array, width, laid_bytes, makes, fits};

use crate::FixedLayout;
use scroll::Endian;
use scroll::ctx::Fixed;

/// A type of a fixed size whose layout says what [`Fixed`] says of it: a number, or an array of
/// such types. It can be the element of an array.
pub trait SameLayout: FixedLayout + Fixed {
    /// Does nothing, and says so.
    fn same()
        ensures width { width Self.FixedLayout.layout ≡ Self.Fixed.width }
        ensures makes { (order : Endian) (s : List ℕ) (at : ℕ) (x : Self)
            → Self.Fixed.makes order s at x → makes Self.FixedLayout.layout order s at x }
        ensures bytes { (order : Endian) (x : Self)
            → laid_bytes Self.FixedLayout.layout order x ≡ Self.Fixed.bytes order x };
}

impl<T: SameLayout, const N: usize> FixedLayout for [T; N] {
    ghost layout = { array N T.FixedLayout.layout };

    fn capped() -> usize {
        T::capped().saturating_mul(N)
    }

    fn fit(&self) {
        each_fits(&self[..])
    }

    #[inline(always)]
    fn load(from: &[u8], offset: usize, order: Endian) -> [T; N] {
        T::same();
        <[T; N] as Fixed>::read_at(from, offset, order)
    }

    #[inline(always)]
    fn store(&self, dst: &mut [u8], order: Endian) {
        T::same();
        (*self).write_prefix(dst, order)
    }
}

impl<T: SameLayout, const N: usize> SameLayout for [T; N] {
    fn same() {
        T::same()
    }
}

// Does nothing, and says that the values have the range of their type.
fn each_fits<T: FixedLayout>(values: &[T])
    ensures { (i : ℕ) → (d : T) → i < length values.now
        → fits T.layout (slice_index_or values.now i d) }
{
    let mut i = 0;
    while i < values.len() {
        values[i].fit();
        i += 1;
    }
}
