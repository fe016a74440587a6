// Structs of a fixed size.
ghost use Rattle.std.specs.Prelude.{◌≡◌, ◌≤◌, ◌+◌, ◌-◌, ◌^◌, ◌++◌, ℕ, List, length, drop, min};
ghost use Rattle.std.proofs.Common.{ap};
ghost use Rattle.scroll.specs.declared.endian.Endian.{Endian};
ghost use Rattle.scroll_layouts.specs.Layouts.{shaped, width, laid_bytes, makes};
ghost use Rattle.scroll_layouts.specs.lemmas.EqualLemmas.{parts-unique};

use crate::{FixedLayout, SameLayout};
use scroll::Endian;
use scroll::ctx::Record;

/// A [`Record`](scroll::ctx::Record) as a field: its parts, one after another.
///
/// In a struct, an array of arrays of arrays is an array of these, such as `[Field<Plane>; 3]` of a
/// struct `Plane` with one array of arrays: the prover doesn't follow a deeper array there.
#[derive(Clone, Copy)]
pub struct Field<R>(pub R);

impl<R: Record> FixedLayout for Field<R>
where
    R::Parts: FixedLayout,
{
    ghost layout = { shaped R.Parts.layout (λ x. R.parts_of x.0)
        (parts-unique (λ x. R.parts_of x.0) (λ p. record { 0 = R.of_parts p })
        (λ x. ap (λ r. record { 0 = r }) (R.again x.0))) };

    fn capped() -> usize {
        <R::Parts as FixedLayout>::capped()
    }

    fn fit(&self) {
        self.0.parts().fit()
    }

    #[inline(always)]
    fn load(from: &[u8], offset: usize, order: Endian) -> Field<R> {
        Field(R::of_parts(<R::Parts as FixedLayout>::load(from, offset, order)))
    }

    #[inline(always)]
    fn store(&self, dst: &mut [u8], order: Endian) {
        self.0.parts().store(dst, order)
    }
}

/// It is the struct, so that it can be the element of an array.
impl<R: Record> Record for Field<R> {
    type Parts = R::Parts;

    ghost parts_of = { λ x. R.parts_of x.0 };

    ghost of_parts = { λ p. record { 0 = R.of_parts p } };

    ghost fields_in = { λ order s x. R.fields_in order s x.0 };

    ghost again = { λ x. ap (λ r. record { 0 = r }) (R.again x.0) };

    ghost there = { R.there };

    ghost fields_of_parts = { λ order s x. R.fields_of_parts order s x.0 };

    ghost parts_of_fields = { λ order s x. R.parts_of_fields order s x.0 };

    ghost small = { R.small };

    #[inline(always)]
    fn parts(self) -> R::Parts {
        self.0.parts()
    }

    #[inline(always)]
    fn of_parts(parts: R::Parts) -> Field<R> {
        Field(R::of_parts(parts))
    }
}

impl<R: Record> SameLayout for Field<R>
where
    R::Parts: SameLayout,
{
    fn same() {
        <R::Parts as SameLayout>::same()
    }
}
