// Values that are written where they are borrowed.
ghost use Rattle.std.specs.Prelude.{◌≡◌, ◌≤◌, ◌+◌, ◌-◌, ◌^◌, ◌++◌, length, drop, min};
ghost use Rattle.scroll_layouts.specs.Formats.{last};

use crate::Part;
use scroll::Endian;
use std::result::Result;

/// The context of a borrowed value: the value's own context.
///
/// ```rust
/// let number = Run(258u16);
/// let mut bytes = [0u8; 2];
/// write_whole::<Borrowed<()>, Error, &Run<u16>>(&&number, &mut bytes, BE, &Borrowed(()))?;
/// assert_eq!(rt; bytes, [1, 2]);
/// ```
#[derive(Drop)]
pub struct Borrowed<C>(pub C);

/// A value that is borrowed, such as a struct that is appended behind a tag. It is written as it
/// is without the borrow, and so are its errors.
impl<'s, E, C: Drop, A: Part<C, E>> Part<Borrowed<C>, E> for &'s A {
    ghost format = { λ c. last (A.format c.0) (λ x. x.now) };

    fn check(&self, order: Endian, ctx: &Borrowed<C>) -> Result<(), E> {
        (**self).check(order, &ctx.0)
    }

    fn size(&self, order: Endian, ctx: &Borrowed<C>) -> usize {
        (**self).size(order, &ctx.0)
    }

    #[inline(always)]
    fn put(&self, dst: &mut [u8], order: Endian, ctx: &Borrowed<C>) {
        (**self).put(dst, order, &ctx.0)
    }
}
