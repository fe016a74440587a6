// Printed by tools/derive from sections.rt.
ghost use Rattle.std.specs.Prelude.{◌≡◌, ◌<◌, ◌^◌, drop};
ghost use Rattle.std.proofs.Common.{refl, rules};
ghost use Rattle.scroll.specs.Numbers.{number};

use super::{Section, Symbol};
use scroll::ctx::{Record, Written};

// field       offset  size
// name        0       4
// kind        4       4
// flags       8       8
// address     16      8
// offset      24      8
// size        32      8
// link        40      4
// info        44      4
// alignment   48      8
// entry_size  56      8
impl Record for Section {
    type Parts = ((u32, u32, u64, u64), (u64, u64, u32, u32), (u64, u64));

    ghost parts_of = { λ x. (
      (x.name, x.kind, x.flags, x.address),
      (x.offset, x.size, x.link, x.info),
      (x.alignment, x.entry_size),
    ) };

    ghost of_parts = { λ p. record {
      name = p.0.0;
      kind = p.0.1;
      flags = p.0.2;
      address = p.0.3;
      offset = p.1.0;
      size = p.1.1;
      link = p.1.2;
      info = p.1.3;
      alignment = p.2.0;
      entry_size = p.2.1;
    } };

    ghost fields_in = { λ order s x.
        (x.name ≡ number order 4 s)
        × (x.kind ≡ number order 4 (drop 4 s))
        × (x.flags ≡ number order 8 (drop 8 s))
        × (x.address ≡ number order 8 (drop 16 s))
        × (x.offset ≡ number order 8 (drop 24 s))
        × (x.size ≡ number order 8 (drop 32 s))
        × (x.link ≡ number order 4 (drop 40 s))
        × (x.info ≡ number order 4 (drop 44 s))
        × (x.alignment ≡ number order 8 (drop 48 s))
        × (x.entry_size ≡ number order 8 (drop 56 s)) };

    ghost again = { λ x. refl };

    ghost there = { λ p. refl };

    ghost fields_of_parts = { λ order s x h. (
      h.0.0,
      h.0.1.0,
      h.0.1.1.0,
      h.0.1.1.1,
      h.1.0.0,
      h.1.0.1.0,
      h.1.0.1.1.0,
      h.1.0.1.1.1,
      h.1.1.0,
      h.1.1.1,
    ) };

    ghost parts_of_fields = { λ order s x h. (
      (h.0, (h.1, (h.2, h.3))),
      ((h.4, (h.5, (h.6, h.7))), (h.8, h.9)),
    ) };

    ghost small = { Prim.search rules };

    fn parts(self) -> Self::Parts {
        (
            (self.name, self.kind, self.flags, self.address),
            (self.offset, self.size, self.link, self.info),
            (self.alignment, self.entry_size),
        )
    }

    fn of_parts(parts: Self::Parts) -> Section {
        Section {
            name: parts.0.0,
            kind: parts.0.1,
            flags: parts.0.2,
            address: parts.0.3,
            offset: parts.1.0,
            size: parts.1.1,
            link: parts.1.2,
            info: parts.1.3,
            alignment: parts.2.0,
            entry_size: parts.2.1,
        }
    }
}

impl<'a> Written for &'a Section {
    type Value = Section;

    ghost value_of = { λ x. x.now };

    #[inline(always)]
    fn value(self) -> Section {
        *self
    }
}

// field    offset  size
// name     0       4
// info     4       1
// other    5       1
// section  6       2
// value    8       8
// size     16      8
impl Record for Symbol {
    type Parts = ((u32, u8, u8, u16), (u64, u64));

    ghost parts_of = { λ x. ((x.name, x.info, x.other, x.section), (x.value, x.size)) };

    ghost of_parts = { λ p. record {
      name = p.0.0;
      info = p.0.1;
      other = p.0.2;
      section = p.0.3;
      value = p.1.0;
      size = p.1.1;
    } };

    ghost fields_in = { λ order s x.
        (x.name ≡ number order 4 s)
        × (x.info ≡ number order 1 (drop 4 s))
        × (x.other ≡ number order 1 (drop 5 s))
        × (x.section ≡ number order 2 (drop 6 s))
        × (x.value ≡ number order 8 (drop 8 s))
        × (x.size ≡ number order 8 (drop 16 s)) };

    ghost again = { λ x. refl };

    ghost there = { λ p. refl };

    ghost fields_of_parts = { λ order s x h. (h.0.0, h.0.1.0, h.0.1.1.0, h.0.1.1.1, h.1.0, h.1.1) };

    ghost parts_of_fields = { λ order s x h. ((h.0, (h.1, (h.2, h.3))), (h.4, h.5)) };

    ghost small = { Prim.search rules };

    fn parts(self) -> Self::Parts {
        (
            (self.name, self.info, self.other, self.section),
            (self.value, self.size),
        )
    }

    fn of_parts(parts: Self::Parts) -> Symbol {
        Symbol {
            name: parts.0.0,
            info: parts.0.1,
            other: parts.0.2,
            section: parts.0.3,
            value: parts.1.0,
            size: parts.1.1,
        }
    }
}

impl<'a> Written for &'a Symbol {
    type Value = Symbol;

    ghost value_of = { λ x. x.now };

    #[inline(always)]
    fn value(self) -> Symbol {
        *self
    }
}
