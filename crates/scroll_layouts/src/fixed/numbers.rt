// Numbers.
ghost use Rattle.std.specs.Prelude.{◌≡◌, ◌≤◌, ◌<◌, ◌+◌, ◌-◌, ◌^◌, ◌++◌, ℕ, List, length, drop, min};
ghost use Rattle.std.specs.Float.{binary32, binary64};
ghost use Rattle.scroll.specs.declared.endian.Endian.{Endian};
ghost use Rattle.scroll_layouts.specs.Layouts.{Layout, unsigned, signed, floating, width, laid_bytes, makes, fits};

use crate::{FixedLayout, SameLayout};
use scroll::Endian;
use scroll::ctx::Fixed;

/// A number: an unsigned one, a signed one or a float.
pub trait Number: Fixed {
    // What stands in its bytes.
    ghost number: { Layout Self };

    /// Does nothing, and says that this is what [`Fixed`] says of the type.
    fn as_fixed()
        ensures width { width number ≡ Self.Fixed.width }
        ensures small { width number < 2 ^ 64 }
        ensures makes { (order : Endian) (s : List ℕ) (at : ℕ) (x : Self)
            → Self.Fixed.makes order s at x → makes number order s at x }
        ensures bytes { (order : Endian) (x : Self)
            → laid_bytes number order x ≡ Self.Fixed.bytes order x };

    /// Does nothing, and says that the number has the range of its type.
    fn in_range(&self)
        ensures { fits number self.now };
}

impl<T: Number> FixedLayout for T {
    ghost layout = { T.number };

    fn capped() -> usize {
        T::as_fixed();
        T::width()
    }

    fn fit(&self) {
        self.in_range()
    }

    #[inline(always)]
    fn load(from: &[u8], offset: usize, order: Endian) -> T {
        T::as_fixed();
        <T as Fixed>::read_at(from, offset, order)
    }

    #[inline(always)]
    fn store(&self, dst: &mut [u8], order: Endian) {
        T::as_fixed();
        (*self).write_prefix(dst, order)
    }
}

impl<T: Number> SameLayout for T {
    fn same() {
        T::as_fixed()
    }
}

impl Number for u8 {
    ghost number = { unsigned 1 };

    fn as_fixed() {}

    fn in_range(&self) {
        let _value = *self;
    }
}

impl Number for u16 {
    ghost number = { unsigned 2 };

    fn as_fixed() {}

    fn in_range(&self) {
        let _value = *self;
    }
}

impl Number for u32 {
    ghost number = { unsigned 4 };

    fn as_fixed() {}

    fn in_range(&self) {
        let _value = *self;
    }
}

impl Number for u64 {
    ghost number = { unsigned 8 };

    fn as_fixed() {}

    fn in_range(&self) {
        let _value = *self;
    }
}

impl Number for u128 {
    ghost number = { unsigned 16 };

    fn as_fixed() {}

    fn in_range(&self) {
        let _value = *self;
    }
}

impl Number for i8 {
    ghost number = { signed 1 };

    fn as_fixed() {}

    fn in_range(&self) {
        let _value = *self;
    }
}

impl Number for i16 {
    ghost number = { signed 2 };

    fn as_fixed() {}

    fn in_range(&self) {
        let _value = *self;
    }
}

impl Number for i32 {
    ghost number = { signed 4 };

    fn as_fixed() {}

    fn in_range(&self) {
        let _value = *self;
    }
}

impl Number for i64 {
    ghost number = { signed 8 };

    fn as_fixed() {}

    fn in_range(&self) {
        let _value = *self;
    }
}

impl Number for i128 {
    ghost number = { signed 16 };

    fn as_fixed() {}

    fn in_range(&self) {
        let _value = *self;
    }
}

impl Number for f32 {
    ghost number = { floating binary32 };

    fn as_fixed() {}

    fn in_range(&self) {
        f32_fits(*self)
    }
}

impl Number for f64 {
    ghost number = { floating binary64 };

    fn as_fixed() {}

    fn in_range(&self) {
        f64_fits(*self)
    }
}

// Do nothing, and say that the float has its format.
fn f32_fits(_value: f32)
    ensures { fits (floating binary32) _value }
{}

fn f64_fits(_value: f64)
    ensures { fits (floating binary64) _value }
{}
