// Printed by tools/derive from entry.rt.
ghost use Rattle.std.specs.Prelude.{◌≡◌, ◌<◌, ◌^◌, drop};
ghost use Rattle.std.proofs.Common.{refl, rules};
ghost use Rattle.scroll.specs.Arrays.{MakesArray};
ghost use Rattle.scroll.specs.Numbers.{number};
ghost use Rattle.scroll.specs.lemmas.Frames.{WritesPrefix-keeps};
ghost use Rattle.scroll_layouts.specs.Formats.{refuses};
ghost use Rattle.scroll_layouts.specs.Wholes.{KeepsWhole, ReadsExact, WritesWhole};

use super::{CStr, Entry, Stat};
use scroll::ctx::{Record, TryFromCtx, TryIntoCtx, Written};
use scroll::{Endian, Error};
use scroll_formats::Zeros;
use scroll_layouts::{Field, Padded, Part, ReadPart, Run, Shape, read_exact, write_whole};
use std::result::Result;

// field           offset  size
// changed         0       4
// changed_nanos   4       4
// modified        8       4
// modified_nanos  12      4
// device          16      4
// inode           20      4
// mode            24      4
// user            28      4
// group           32      4
// size            36      4
// id              40      20
// flags           60      2
impl Record for Stat {
    type Parts = (
        (u32, u32, u32, u32),
        (u32, u32, u32, u32),
        (u32, u32, [u8; 20], u16),
    );

    ghost parts_of = { λ x. (
      (x.changed, x.changed_nanos, x.modified, x.modified_nanos),
      (x.device, x.inode, x.mode, x.user),
      (x.group, x.size, x.id, x.flags),
    ) };

    ghost of_parts = { λ p. record {
      changed = p.0.0;
      changed_nanos = p.0.1;
      modified = p.0.2;
      modified_nanos = p.0.3;
      device = p.1.0;
      inode = p.1.1;
      mode = p.1.2;
      user = p.1.3;
      group = p.2.0;
      size = p.2.1;
      id = p.2.2;
      flags = p.2.3;
    } };

    ghost fields_in = { λ order s x.
        (x.changed ≡ number order 4 s)
        × (x.changed_nanos ≡ number order 4 (drop 4 s))
        × (x.modified ≡ number order 4 (drop 8 s))
        × (x.modified_nanos ≡ number order 4 (drop 12 s))
        × (x.device ≡ number order 4 (drop 16 s))
        × (x.inode ≡ number order 4 (drop 20 s))
        × (x.mode ≡ number order 4 (drop 24 s))
        × (x.user ≡ number order 4 (drop 28 s))
        × (x.group ≡ number order 4 (drop 32 s))
        × (x.size ≡ number order 4 (drop 36 s))
        × (MakesArray 1 (λ s x. (x ≡ number order 1 s)) 20 (drop 40 s) x.id)
        × (x.flags ≡ number order 2 (drop 60 s)) };

    ghost again = { λ x. refl };

    ghost there = { λ p. refl };

    ghost fields_of_parts = { λ order s x h. (
      h.0.0,
      h.0.1.0,
      h.0.1.1.0,
      h.0.1.1.1,
      h.1.0.0,
      h.1.0.1.0,
      h.1.0.1.1.0,
      h.1.0.1.1.1,
      h.1.1.0,
      h.1.1.1.0,
      h.1.1.1.1.0,
      h.1.1.1.1.1,
    ) };

    ghost parts_of_fields = { λ order s x h. (
      (h.0, (h.1, (h.2, h.3))),
      ((h.4, (h.5, (h.6, h.7))), (h.8, (h.9, (h.10, h.11)))),
    ) };

    ghost small = { Prim.search rules };

    fn parts(self) -> Self::Parts {
        let id = self.id;
        (
            (
                self.changed,
                self.changed_nanos,
                self.modified,
                self.modified_nanos,
            ),
            (self.device, self.inode, self.mode, self.user),
            (self.group, self.size, id, self.flags),
        )
    }

    fn of_parts(parts: Self::Parts) -> Stat {
        let id = parts.2.2;
        Stat {
            changed: parts.0.0,
            changed_nanos: parts.0.1,
            modified: parts.0.2,
            modified_nanos: parts.0.3,
            device: parts.1.0,
            inode: parts.1.1,
            mode: parts.1.2,
            user: parts.1.3,
            group: parts.2.0,
            size: parts.2.1,
            id,
            flags: parts.2.3,
        }
    }
}

impl<'a> Written for &'a Stat {
    type Value = Stat;

    ghost value_of = { λ x. x.now };

    #[inline(always)]
    fn value(self) -> Stat {
        *self
    }
}

type EntryParts<'a> = (Run<Field<Stat>>, CStr<'a>);

type EntryCtx = Padded<((), ())>;

// field  offset        size                      notes
// stat   0             62
// path   62            up to a zero
// pad    after `path`  zeros to a multiple of 8  ctx = padding(offset, 8)
impl<'a> Shape for Entry<'a> {
    type Ctx = ();

    type Inner = EntryCtx;

    type Parts = EntryParts<'a>;

    ghost parts_of = { λ x. (record { 0 = record { 0 = x.stat } }, x.path) };

    ghost of_parts = { λ p. record { stat = p.0.0.0; path = p.1; pad = record {} } };

    ghost again = { λ x. refl };

    ghost there = { λ p. refl };

    ghost inner_of = { λ _. record { 0 = 8; 1 = (tt, tt) } };

    fn split(&self) -> EntryParts<'a> {
        (Run(Field(self.stat)), self.path)
    }

    fn join(parts: EntryParts<'a>) -> Entry<'a> {
        let (Run(Field(stat)), path) = parts;
        Entry {
            stat,
            path,
            pad: Zeros,
        }
    }

    fn inner(_ctx: &()) -> EntryCtx
        ensures { result ≡ ⟦<Entry<'a> as Shape>⟧.inner_of _ctx.now }
    {
        Padded(8, ((), ()))
    }
}

impl<'a> TryFromCtx<'a, Endian> for Entry<'a> {
    type Error = Error;

    ghost reads = { ReadsExact (⟦<Entry<'a> as ReadPart<'a, (), Error>>⟧.format tt) };

    ghost refuses = { λ order s.
        refuses (⟦<Entry<'a> as ReadPart<'a, (), Error>>⟧.format tt) order s 0 };

    ghost reads_bounded = { λ order s x n h. Prim.search rules };

    #[inline(always)]
    fn try_from_ctx(from: &'a [u8], ctx: Endian) -> Result<(Entry<'a>, usize), Error> {
        read_exact::<(), Error, Entry<'a>>(from, ctx, &())
    }
}

impl<'a> TryIntoCtx<Endian> for Entry<'a> {
    type Error = Error;

    ghost writes = { WritesWhole (⟦<Entry<'a> as Part<(), Error>>⟧.format tt) };

    ghost refuses = { KeepsWhole (λ e d. d ≡ e)
        (⟦<Entry<'a> as Part<(), Error>>⟧.format tt) };

    ghost writes_bounded = { λ order x old new n h. Prim.search rules };

    ghost writes_keeps = { λ order x old new n h. WritesPrefix-keeps _ old new n h.wrote };

    #[inline(always)]
    fn try_into_ctx(self, dst: &mut [u8], ctx: Endian) -> Result<usize, Error> {
        write_whole::<(), Error, Entry<'a>>(&self, dst, ctx, &())
    }
}
