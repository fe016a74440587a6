// The traits of contexts for values of a fixed size.
ghost use Rattle.std.specs.Prelude.{◌≡◌, ◌≤◌, ◌+◌, ◌-◌, ◌^◌, ◌++◌, length, drop, min};
ghost use Rattle.std.proofs.Common.{rules};
ghost use Rattle.scroll.specs.Bytes.{ReadsFixed, RefusesShort, WritesPrefix, FailsShort};
ghost use Rattle.scroll.specs.lemmas.Frames.{drop-prefix, drop-written};
ghost use Rattle.scroll_layouts.specs.Layouts.{width, laid_bytes, makes};
ghost use Rattle.scroll_layouts.specs.lemmas.LayoutLaws.{layout-len};

use crate::{FixedLayout, Run};
use scroll::Endian;
use scroll::ctx::{FromCtx, IntoCtx, SizeWith};

/// Reads values of a fixed size where there are enough bytes, and from streams.
///
/// ```rust
/// let mut source = [7, 1, 2].as_slice();
/// let Run((tag, len)) = source.ioread_with::<Run<(u8, u16)>>(BE)?;
/// assert_eq!(rt; (tag, len), (7, 258));
/// ```
impl<P: FixedLayout> FromCtx<Endian> for Run<P> {
    ghost need = { λ _. width P.layout };

    ghost makes = { λ order source x. makes P.layout order source 0 x.0 };

    #[inline(always)]
    fn from_ctx(this: &[u8], ctx: Endian) -> Run<P> {
        Run(P::load(this, 0, ctx))
    }
}

/// Writes values of a fixed size where there is enough room, and to streams.
///
/// ```rust
/// let mut bytes = [0u8; 4];
/// slice::cwrite_with(&mut bytes, Run((7u8, 258u16)), 1, BE);
/// assert_eq!(rt; bytes, [0, 7, 1, 2]);
/// ```
impl<P: FixedLayout> IntoCtx<Endian> for Run<P> {
    ghost need = { λ _. width P.layout };

    ghost overwrites = { λ order x old new.
        new ≡ laid_bytes P.layout order x.0 ++ drop (width P.layout) old };

    ghost overwrites_keeps = { λ order x old new h.
        drop-prefix (width P.layout) _ old new (layout-len P.layout order x.0) h };

    #[inline(always)]
    fn into_ctx(self, dst: &mut [u8], ctx: Endian) {
        self.0.store(dst, ctx)
    }
}

/// The size of values of a fixed size.
///
/// ```rust
/// assert_eq!(rt; Run::<(u8, u16)>::size_with(&LE), 3);
/// ```
impl<P: FixedLayout> SizeWith<Endian> for Run<P> {
    ghost size = { λ _. width P.layout };

    fn size_with(_ctx: &Endian) -> usize {
        P::capped()
    }
}
