// Printed by tools/derive from format.rt.
ghost use Rattle.std.specs.Prelude.{◌≡◌, ◌<◌, ◌^◌, drop};
ghost use Rattle.std.proofs.Common.{refl, rules};
ghost use Rattle.scroll.specs.Numbers.{number};

use super::{Data, Format};
use scroll::ctx::{Record, Written};

// field     offset  size
// tag       0       2
// channels  2       2
// rate      4       4
impl Record for Format {
    type Parts = (u16, u16, u32);

    ghost parts_of = { λ x. (x.tag, x.channels, x.rate) };

    ghost of_parts = { λ p. record { tag = p.0; channels = p.1; rate = p.2 } };

    ghost fields_in = { λ order s x.
        (x.tag ≡ number order 2 s)
        × (x.channels ≡ number order 2 (drop 2 s))
        × (x.rate ≡ number order 4 (drop 4 s)) };

    ghost again = { λ x. refl };

    ghost there = { λ p. refl };

    ghost fields_of_parts = { λ order s x h. (h.0, h.1.0, h.1.1) };

    ghost parts_of_fields = { λ order s x h. (h.0, (h.1, h.2)) };

    ghost small = { Prim.search rules };

    fn parts(self) -> Self::Parts {
        (self.tag, self.channels, self.rate)
    }

    fn of_parts(parts: Self::Parts) -> Format {
        Format {
            tag: parts.0,
            channels: parts.1,
            rate: parts.2,
        }
    }
}

impl<'a> Written for &'a Format {
    type Value = Format;

    ghost value_of = { λ x. x.now };

    #[inline(always)]
    fn value(self) -> Format {
        *self
    }
}

// field  offset  size
// one    0       4
// two    4       2
// three  6       1
impl Record for Data {
    type Parts = (u32, u16, u8);

    ghost parts_of = { λ x. (x.one, x.two, x.three) };

    ghost of_parts = { λ p. record { one = p.0; two = p.1; three = p.2 } };

    ghost fields_in = { λ order s x.
        (x.one ≡ number order 4 s)
        × (x.two ≡ number order 2 (drop 4 s))
        × (x.three ≡ number order 1 (drop 6 s)) };

    ghost again = { λ x. refl };

    ghost there = { λ p. refl };

    ghost fields_of_parts = { λ order s x h. (h.0, h.1.0, h.1.1) };

    ghost parts_of_fields = { λ order s x h. (h.0, (h.1, h.2)) };

    ghost small = { Prim.search rules };

    fn parts(self) -> Self::Parts {
        (self.one, self.two, self.three)
    }

    fn of_parts(parts: Self::Parts) -> Data {
        Data {
            one: parts.0,
            two: parts.1,
            three: parts.2,
        }
    }
}

impl<'a> Written for &'a Data {
    type Value = Data;

    ghost value_of = { λ x. x.now };

    #[inline(always)]
    fn value(self) -> Data {
        *self
    }
}
