// Printed by tools/derive from parts.rt.
ghost use Rattle.std.specs.Prelude.{◌≡◌, ◌<◌, ◌^◌};
ghost use Rattle.std.proofs.Common.{refl, rules};
ghost use Rattle.scroll.specs.Arrays.{MakesArray};
ghost use Rattle.scroll.specs.Numbers.{number};

use super::Plane;
use scroll::ctx::{Record, Written};

// field  offset  size
// cells  0       4
impl Record for Plane {
    type Parts = [[u8; 2]; 2];

    ghost parts_of = { λ x. x.cells };

    ghost of_parts = { λ p. record { cells = p } };

    ghost fields_in = { λ order s x.
        (MakesArray 2 (λ s x. (MakesArray 1 (λ s x. (x ≡ number order 1 s)) 2 s x)) 2 s x.cells) };

    ghost again = { λ x. refl };

    ghost there = { λ p. refl };

    ghost fields_of_parts = { λ order s x h. h };

    ghost parts_of_fields = { λ order s x h. h };

    ghost small = { Prim.search rules };

    fn parts(self) -> Self::Parts {
        self.cells
    }

    fn of_parts(parts: Self::Parts) -> Plane {
        Plane { cells: parts }
    }
}

impl<'a> Written for &'a Plane {
    type Value = Plane;

    ghost value_of = { λ x. x.now };

    #[inline(always)]
    fn value(self) -> Plane {
        *self
    }
}
