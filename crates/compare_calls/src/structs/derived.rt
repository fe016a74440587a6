// Printed by tools/derive from structs.rt.
ghost use Rattle.std.specs.Prelude.{◌≡◌, ◌<◌, ◌^◌, drop};
ghost use Rattle.std.specs.Float.{binary32, binary64};
ghost use Rattle.std.proofs.Common.{refl, rules};
ghost use Rattle.scroll.specs.Arrays.{MakesArray};
ghost use Rattle.scroll.specs.Numbers.{float, number, signed_number};

use super::{Entry, Label, Sample, Wide};
use scroll::ctx::{Record, Written};

// field  offset  size
// id     0       4
// time   4       8
// parts  12      4
impl Record for Entry {
    type Parts = (u32, i64, [u16; 2]);

    ghost parts_of = { λ x. (x.id, x.time, x.parts) };

    ghost of_parts = { λ p. record { id = p.0; time = p.1; parts = p.2 } };

    ghost fields_in = { λ order s x.
        (x.id ≡ number order 4 s)
        × (x.time ≡ signed_number order 8 (drop 4 s))
        × (MakesArray 2 (λ s x. (x ≡ number order 2 s)) 2 (drop 12 s) x.parts) };

    ghost again = { λ x. refl };

    ghost there = { λ p. refl };

    ghost fields_of_parts = { λ order s x h. (h.0, h.1.0, h.1.1) };

    ghost parts_of_fields = { λ order s x h. (h.0, (h.1, h.2)) };

    ghost small = { Prim.search rules };

    fn parts(self) -> Self::Parts {
        let array_parts = self.parts;
        (self.id, self.time, array_parts)
    }

    fn of_parts(parts: Self::Parts) -> Entry {
        let array_parts = parts.2;
        Entry {
            id: parts.0,
            time: parts.1,
            parts: array_parts,
        }
    }
}

impl<'a> Written for &'a Entry {
    type Value = Entry;

    ghost value_of = { λ x. x.now };

    #[inline(always)]
    fn value(self) -> Entry {
        *self
    }
}

// field  offset  size
// id     0       4
// name   4       5
impl Record for Label {
    type Parts = (u32, [u8; 5]);

    ghost parts_of = { λ x. (x.id, x.name) };

    ghost of_parts = { λ p. record { id = p.0; name = p.1 } };

    ghost fields_in = { λ order s x.
        (x.id ≡ number order 4 s)
        × (MakesArray 1 (λ s x. (x ≡ number order 1 s)) 5 (drop 4 s) x.name) };

    ghost again = { λ x. refl };

    ghost there = { λ p. refl };

    ghost fields_of_parts = { λ order s x h. (h.0, h.1) };

    ghost parts_of_fields = { λ order s x h. (h.0, h.1) };

    ghost small = { Prim.search rules };

    fn parts(self) -> Self::Parts {
        let name = self.name;
        (self.id, name)
    }

    fn of_parts(parts: Self::Parts) -> Label {
        let name = parts.1;
        Label { id: parts.0, name }
    }
}

impl<'a> Written for &'a Label {
    type Value = Label;

    ghost value_of = { λ x. x.now };

    #[inline(always)]
    fn value(self) -> Label {
        *self
    }
}

// field    offset  size
// kind     0       2
// weight   2       8
// height   10      4
// balance  14      16
// count    30      8
// last     38      1
impl Record for Sample {
    type Parts = ((u16, f64, f32, i128), (u64, u8));

    ghost parts_of = { λ x. ((x.kind, x.weight, x.height, x.balance), (x.count, x.last)) };

    ghost of_parts = { λ p. record {
      kind = p.0.0;
      weight = p.0.1;
      height = p.0.2;
      balance = p.0.3;
      count = p.1.0;
      last = p.1.1;
    } };

    ghost fields_in = { λ order s x.
        (x.kind ≡ number order 2 s)
        × (x.weight ≡ float binary64 order (drop 2 s))
        × (x.height ≡ float binary32 order (drop 10 s))
        × (x.balance ≡ signed_number order 16 (drop 14 s))
        × (x.count ≡ number order 8 (drop 30 s))
        × (x.last ≡ number order 1 (drop 38 s)) };

    ghost again = { λ x. refl };

    ghost there = { λ p. refl };

    ghost fields_of_parts = { λ order s x h. (h.0.0, h.0.1.0, h.0.1.1.0, h.0.1.1.1, h.1.0, h.1.1) };

    ghost parts_of_fields = { λ order s x h. ((h.0, (h.1, (h.2, h.3))), (h.4, h.5)) };

    ghost small = { Prim.search rules };

    fn parts(self) -> Self::Parts {
        (
            (self.kind, self.weight, self.height, self.balance),
            (self.count, self.last),
        )
    }

    fn of_parts(parts: Self::Parts) -> Sample {
        Sample {
            kind: parts.0.0,
            weight: parts.0.1,
            height: parts.0.2,
            balance: parts.0.3,
            count: parts.1.0,
            last: parts.1.1,
        }
    }
}

impl<'a> Written for &'a Sample {
    type Value = Sample;

    ghost value_of = { λ x. x.now };

    #[inline(always)]
    fn value(self) -> Sample {
        *self
    }
}

// field  offset  size
// flag   0       1
// wide   1       16
// small  17      2
impl Record for Wide {
    type Parts = (i8, u128, i16);

    ghost parts_of = { λ x. (x.flag, x.wide, x.small) };

    ghost of_parts = { λ p. record { flag = p.0; wide = p.1; small = p.2 } };

    ghost fields_in = { λ order s x.
        (x.flag ≡ signed_number order 1 s)
        × (x.wide ≡ number order 16 (drop 1 s))
        × (x.small ≡ signed_number order 2 (drop 17 s)) };

    ghost again = { λ x. refl };

    ghost there = { λ p. refl };

    ghost fields_of_parts = { λ order s x h. (h.0, h.1.0, h.1.1) };

    ghost parts_of_fields = { λ order s x h. (h.0, (h.1, h.2)) };

    ghost small = { Prim.search rules };

    fn parts(self) -> Self::Parts {
        (self.flag, self.wide, self.small)
    }

    fn of_parts(parts: Self::Parts) -> Wide {
        Wide {
            flag: parts.0,
            wide: parts.1,
            small: parts.2,
        }
    }
}

impl<'a> Written for &'a Wide {
    type Value = Wide;

    ghost value_of = { λ x. x.now };

    #[inline(always)]
    fn value(self) -> Wide {
        *self
    }
}
