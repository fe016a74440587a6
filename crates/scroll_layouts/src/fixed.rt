// Types of a fixed size, by their layouts.
ghost use Rattle.std.specs.Prelude.{◌≡◌, ◌≤◌, ◌+◌, ◌-◌, ◌^◌, ◌++◌, length, drop, min};
ghost use Rattle.scroll_layouts.specs.Layouts.{Layout, width, laid_bytes, makes, fits};

mod arrays;
mod numbers;
mod records;
mod tuples;

pub use crate::fixed::arrays::SameLayout;
pub use crate::fixed::numbers::Number;
pub use crate::fixed::records::Field;
use scroll::Endian;

/// A type whose values all have the same number of bytes, and whose layout says what stands in
/// them: a number, a tuple or an array of numbers, or a [`Field`].
pub trait FixedLayout: Drop {
    // What stands in the bytes of a value.
    ghost layout: { Layout Self };

    /// Returns how many bytes a value has, or the greatest `usize` if there are more.
    fn capped() -> usize
        ensures { result ≡ min (width layout) (2 ^ 64 - 1) };

    /// Does nothing, and says that the value has the range of its type.
    fn fit(&self)
        ensures { fits layout self.now };

    /// Returns the value at `offset` of `from`, which has the bytes.
    fn load(from: &[u8], offset: usize, order: Endian) -> Self
        requires { offset + width layout ≤ length from.now }
        ensures { makes layout order from.now offset result };

    /// Writes the bytes to the start of `dst`, which has room for them. The bytes after them are
    /// unchanged.
    fn store(&self, dst: &mut [u8], order: Endian)
        requires { width layout ≤ length dst.old }
        ensures { dst.new ≡ laid_bytes layout order self.now ++ drop (width layout) dst.old };
}
