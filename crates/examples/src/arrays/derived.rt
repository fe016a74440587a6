// Printed by tools/derive from arrays.rt.
ghost use Rattle.std.specs.Prelude.{◌≡◌, ◌<◌, ◌^◌, drop};
ghost use Rattle.std.specs.Float.{binary32};
ghost use Rattle.std.proofs.Common.{refl, rules};
ghost use Rattle.scroll.specs.Arrays.{MakesArray};
ghost use Rattle.scroll.specs.Numbers.{float, number};

use super::{Point, Triangle};
use scroll::ctx::{Record, Written};

// field  offset  size
// x      0       4
// y      4       4
// z      8       4
impl Record for Point {
    type Parts = (f32, f32, f32);

    ghost parts_of = { λ x. (x.x, x.y, x.z) };

    ghost of_parts = { λ p. record { x = p.0; y = p.1; z = p.2 } };

    ghost fields_in = { λ order s x.
        (x.x ≡ float binary32 order s)
        × (x.y ≡ float binary32 order (drop 4 s))
        × (x.z ≡ float binary32 order (drop 8 s)) };

    ghost again = { λ x. refl };

    ghost there = { λ p. refl };

    ghost fields_of_parts = { λ order s x h. (h.0, h.1.0, h.1.1) };

    ghost parts_of_fields = { λ order s x h. (h.0, (h.1, h.2)) };

    ghost small = { Prim.search rules };

    fn parts(self) -> Self::Parts {
        (self.x, self.y, self.z)
    }

    fn of_parts(parts: Self::Parts) -> Point {
        Point {
            x: parts.0,
            y: parts.1,
            z: parts.2,
        }
    }
}

impl<'a> Written for &'a Point {
    type Value = Point;

    ghost value_of = { λ x. x.now };

    #[inline(always)]
    fn value(self) -> Point {
        *self
    }
}

// field      offset  size
// normal     0       12
// corners    12      36
// attribute  48      2
impl Record for Triangle {
    type Parts = (Point, [Point; 3], u16);

    ghost parts_of = { λ x. (x.normal, x.corners, x.attribute) };

    ghost of_parts = { λ p. record { normal = p.0; corners = p.1; attribute = p.2 } };

    ghost fields_in = { λ order s x.
        ((x.normal.x ≡ float binary32 order s) × (x.normal.y ≡ float binary32 order (drop 4 s)) × (x.normal.z ≡ float binary32 order (drop 8 s)))
        × (MakesArray 12 (λ s x. ((x.x ≡ float binary32 order s) × (x.y ≡ float binary32 order (drop 4 s)) × (x.z ≡ float binary32 order (drop 8 s)))) 3 (drop 12 s) x.corners)
        × (x.attribute ≡ number order 2 (drop 48 s)) };

    ghost again = { λ x. refl };

    ghost there = { λ p. refl };

    ghost fields_of_parts = { λ order s x h. (h.0, h.1.0, h.1.1) };

    ghost parts_of_fields = { λ order s x h. (h.0, (h.1, h.2)) };

    ghost small = { Prim.search rules };

    fn parts(self) -> Self::Parts {
        let corners = self.corners;
        (self.normal, corners, self.attribute)
    }

    fn of_parts(parts: Self::Parts) -> Triangle {
        let corners = parts.1;
        Triangle {
            normal: parts.0,
            corners,
            attribute: parts.2,
        }
    }
}

impl<'a> Written for &'a Triangle {
    type Value = Triangle;

    ghost value_of = { λ x. x.now };

    #[inline(always)]
    fn value(self) -> Triangle {
        *self
    }
}
