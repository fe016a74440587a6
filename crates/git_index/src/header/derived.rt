// Printed by tools/derive from header.rt.
ghost use Rattle.std.specs.Prelude.{◌≡◌, ◌<◌, ◌^◌, drop};
ghost use Rattle.std.proofs.Common.{refl, rules};
ghost use Rattle.scroll.specs.Numbers.{number};

use super::Header;
use scroll::ctx::{Record, Written};

// field      offset  size
// signature  0       4
// version    4       4
// count      8       4
impl Record for Header {
    type Parts = (u32, u32, u32);

    ghost parts_of = { λ x. (x.signature, x.version, x.count) };

    ghost of_parts = { λ p. record { signature = p.0; version = p.1; count = p.2 } };

    ghost fields_in = { λ order s x.
        (x.signature ≡ number order 4 s)
        × (x.version ≡ number order 4 (drop 4 s))
        × (x.count ≡ number order 4 (drop 8 s)) };

    ghost again = { λ x. refl };

    ghost there = { λ p. refl };

    ghost fields_of_parts = { λ order s x h. (h.0, h.1.0, h.1.1) };

    ghost parts_of_fields = { λ order s x h. (h.0, (h.1, h.2)) };

    ghost small = { Prim.search rules };

    fn parts(self) -> Self::Parts {
        (self.signature, self.version, self.count)
    }

    fn of_parts(parts: Self::Parts) -> Header {
        Header {
            signature: parts.0,
            version: parts.1,
            count: parts.2,
        }
    }
}

impl<'a> Written for &'a Header {
    type Value = Header;

    ghost value_of = { λ x. x.now };

    #[inline(always)]
    fn value(self) -> Header {
        *self
    }
}
