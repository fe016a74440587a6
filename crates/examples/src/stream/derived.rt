// Printed by tools/derive from stream.rt.
ghost use Rattle.std.specs.Prelude.{◌≡◌, ◌<◌, ◌^◌, drop};
ghost use Rattle.std.proofs.Common.{refl, rules};
ghost use Rattle.scroll.specs.Numbers.{number, signed_number};

use super::Foo;
use scroll::ctx::{Record, Written};

// field  offset  size
// foo    0       8
// bar    8       4
impl Record for Foo {
    type Parts = (i64, u32);

    ghost parts_of = { λ x. (x.foo, x.bar) };

    ghost of_parts = { λ p. record { foo = p.0; bar = p.1 } };

    ghost fields_in = { λ order s x.
        (x.foo ≡ signed_number order 8 s)
        × (x.bar ≡ number order 4 (drop 8 s)) };

    ghost again = { λ x. refl };

    ghost there = { λ p. refl };

    ghost fields_of_parts = { λ order s x h. (h.0, h.1) };

    ghost parts_of_fields = { λ order s x h. (h.0, h.1) };

    ghost small = { Prim.search rules };

    fn parts(self) -> Self::Parts {
        (self.foo, self.bar)
    }

    fn of_parts(parts: Self::Parts) -> Foo {
        Foo {
            foo: parts.0,
            bar: parts.1,
        }
    }
}

impl<'a> Written for &'a Foo {
    type Value = Foo;

    ghost value_of = { λ x. x.now };

    #[inline(always)]
    fn value(self) -> Foo {
        *self
    }
}
