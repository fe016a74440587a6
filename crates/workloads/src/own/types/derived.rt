// Printed by tools/derive from types.rt.
ghost use Rattle.std.specs.Prelude.{◌≡◌, ◌<◌, ◌^◌, drop};
ghost use Rattle.std.proofs.Common.{refl, rules};
ghost use Rattle.scroll.specs.Numbers.{number, signed_number};

use super::{Entry, Sample, Slot};
use scroll::ctx::{Record, Written};

// field  offset  size
// kind   0       1
// size   1       4
impl Record for Entry {
    type Parts = (u8, u32);

    ghost parts_of = { λ x. (x.kind, x.size) };

    ghost of_parts = { λ p. record { kind = p.0; size = p.1 } };

    ghost fields_in = { λ order s x.
        (x.kind ≡ number order 1 s)
        × (x.size ≡ number order 4 (drop 1 s)) };

    ghost again = { λ x. refl };

    ghost there = { λ p. refl };

    ghost fields_of_parts = { λ order s x h. (h.0, h.1) };

    ghost parts_of_fields = { λ order s x h. (h.0, h.1) };

    ghost small = { Prim.search rules };

    fn parts(self) -> Self::Parts {
        (self.kind, self.size)
    }

    fn of_parts(parts: Self::Parts) -> Entry {
        Entry {
            kind: parts.0,
            size: parts.1,
        }
    }
}

impl<'a> Written for &'a Entry {
    type Value = Entry;

    ghost value_of = { λ x. x.now };

    #[inline(always)]
    fn value(self) -> Entry {
        *self
    }
}

// field  offset  size
// key    0       2
// flags  2       2
// value  4       8
impl Record for Slot {
    type Parts = (u16, u16, u64);

    ghost parts_of = { λ x. (x.key, x.flags, x.value) };

    ghost of_parts = { λ p. record { key = p.0; flags = p.1; value = p.2 } };

    ghost fields_in = { λ order s x.
        (x.key ≡ number order 2 s)
        × (x.flags ≡ number order 2 (drop 2 s))
        × (x.value ≡ number order 8 (drop 4 s)) };

    ghost again = { λ x. refl };

    ghost there = { λ p. refl };

    ghost fields_of_parts = { λ order s x h. (h.0, h.1.0, h.1.1) };

    ghost parts_of_fields = { λ order s x h. (h.0, (h.1, h.2)) };

    ghost small = { Prim.search rules };

    fn parts(self) -> Self::Parts {
        (self.key, self.flags, self.value)
    }

    fn of_parts(parts: Self::Parts) -> Slot {
        Slot {
            key: parts.0,
            flags: parts.1,
            value: parts.2,
        }
    }
}

impl<'a> Written for &'a Slot {
    type Value = Slot;

    ghost value_of = { λ x. x.now };

    #[inline(always)]
    fn value(self) -> Slot {
        *self
    }
}

// field  offset  size
// time   0       8
// level  8       4
// low    12      4
// high   16      4
impl Record for Sample {
    type Parts = (u64, i32, u32, u32);

    ghost parts_of = { λ x. (x.time, x.level, x.low, x.high) };

    ghost of_parts = { λ p. record { time = p.0; level = p.1; low = p.2; high = p.3 } };

    ghost fields_in = { λ order s x.
        (x.time ≡ number order 8 s)
        × (x.level ≡ signed_number order 4 (drop 8 s))
        × (x.low ≡ number order 4 (drop 12 s))
        × (x.high ≡ number order 4 (drop 16 s)) };

    ghost again = { λ x. refl };

    ghost there = { λ p. refl };

    ghost fields_of_parts = { λ order s x h. (h.0, h.1.0, h.1.1.0, h.1.1.1) };

    ghost parts_of_fields = { λ order s x h. (h.0, (h.1, (h.2, h.3))) };

    ghost small = { Prim.search rules };

    fn parts(self) -> Self::Parts {
        (self.time, self.level, self.low, self.high)
    }

    fn of_parts(parts: Self::Parts) -> Sample {
        Sample {
            time: parts.0,
            level: parts.1,
            low: parts.2,
            high: parts.3,
        }
    }
}

impl<'a> Written for &'a Sample {
    type Value = Sample;

    ghost value_of = { λ x. x.now };

    #[inline(always)]
    fn value(self) -> Sample {
        *self
    }
}
