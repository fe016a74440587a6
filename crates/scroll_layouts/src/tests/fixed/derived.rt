// Printed by tools/derive from fixed.rt.
ghost use Rattle.std.specs.Prelude.{◌≡◌, ◌<◌, ◌^◌, drop};
ghost use Rattle.std.proofs.Common.{refl, rules};
ghost use Rattle.scroll.specs.Numbers.{number, signed_number};
ghost use Rattle.scroll.specs.lemmas.Frames.{WritesPrefix-keeps};
ghost use Rattle.scroll_layouts.specs.Formats.{refuses};
ghost use Rattle.scroll_layouts.specs.Wholes.{KeepsWhole, ReadsExact, WritesWhole};

use super::{Line, Point};
use crate::{Field, Head, Headed, Part, ReadPart, Run, Shape, read_exact, write_whole};
use scroll::ctx::{Record, TryFromCtx, TryIntoCtx, Written};
use scroll::{Endian, Error};
use std::marker::PhantomData;
use std::result::Result;

// field  offset  size
// x      0       2
// y      2       4
impl Record for Point {
    type Parts = (i16, u32);

    ghost parts_of = { λ x. (x.x, x.y) };

    ghost of_parts = { λ p. record { x = p.0; y = p.1 } };

    ghost fields_in = { λ order s x.
        (x.x ≡ signed_number order 2 s)
        × (x.y ≡ number order 4 (drop 2 s)) };

    ghost again = { λ x. refl };

    ghost there = { λ p. refl };

    ghost fields_of_parts = { λ order s x h. (h.0, h.1) };

    ghost parts_of_fields = { λ order s x h. (h.0, h.1) };

    ghost small = { Prim.search rules };

    fn parts(self) -> Self::Parts {
        (self.x, self.y)
    }

    fn of_parts(parts: Self::Parts) -> Point {
        Point {
            x: parts.0,
            y: parts.1,
        }
    }
}

impl<'a> Written for &'a Point {
    type Value = Point;

    ghost value_of = { λ x. x.now };

    #[inline(always)]
    fn value(self) -> Point {
        *self
    }
}

type LineHead = Run<(u8, Field<Point>, Field<Point>, u16)>;

type LineNext = usize;

#[derive(Drop)]
pub struct LineSays;

impl Head<LineHead, Error> for LineSays {
    type Next = LineNext;

    ghost holds = { λ _ h. Unit {0} };

    ghost fails = { λ _ h e. ⊥ };

    ghost next = { λ _ h. h.0.3 };

    fn obey(&self, _head: &LineHead) -> Result<(), Error> {
        Ok(())
    }

    fn next(&self, head: &LineHead) -> LineNext {
        head.0.3 as usize
    }
}

type LineParts<'a> = (LineHead, &'a [u8]);

type LineCtx = Headed<(), LineNext, LineSays>;

// field  offset  size  notes
// kind   0       1
// from   1       6
// to     7       6
// len    13      2
// label  15      len   ctx = len as usize
impl<'a> Shape for Line<'a> {
    type Ctx = ();

    type Inner = LineCtx;

    type Parts = LineParts<'a>;

    ghost parts_of = { λ x. (
      record { 0 = (x.kind, record { 0 = x.from }, record { 0 = x.to }, x.len) },
      x.label,
    ) };

    ghost of_parts = { λ p. record {
      kind = p.0.0.0;
      from = p.0.0.1.0;
      to = p.0.0.2.0;
      len = p.0.0.3;
      label = p.1;
    } };

    ghost again = { λ x. refl };

    ghost there = { λ p. refl };

    ghost inner_of = { λ _. record { 0 = tt; 1 = record {}; 2 = record {} } };

    fn split(&self) -> LineParts<'a> {
        (
            Run((self.kind, Field(self.from), Field(self.to), self.len)),
            self.label,
        )
    }

    fn join(parts: LineParts<'a>) -> Line<'a> {
        let (Run((kind, Field(from_value), Field(to), len)), label) = parts;
        Line {
            kind,
            from: from_value,
            to,
            len,
            label,
        }
    }

    fn inner(_ctx: &()) -> LineCtx
        ensures { result ≡ ⟦<Line<'a> as Shape>⟧.inner_of _ctx.now }
    {
        Headed((), LineSays, PhantomData)
    }
}

impl<'a> TryFromCtx<'a, Endian> for Line<'a> {
    type Error = Error;

    ghost reads = { ReadsExact (⟦<Line<'a> as ReadPart<'a, (), Error>>⟧.format tt) };

    ghost refuses = { λ order s.
        refuses (⟦<Line<'a> as ReadPart<'a, (), Error>>⟧.format tt) order s 0 };

    ghost reads_bounded = { λ order s x n h. Prim.search rules };

    #[inline(always)]
    fn try_from_ctx(from: &'a [u8], ctx: Endian) -> Result<(Line<'a>, usize), Error> {
        read_exact::<(), Error, Line<'a>>(from, ctx, &())
    }
}

impl<'a> TryIntoCtx<Endian> for Line<'a> {
    type Error = Error;

    ghost writes = { WritesWhole (⟦<Line<'a> as Part<(), Error>>⟧.format tt) };

    ghost refuses = { KeepsWhole (λ e d. d ≡ e)
        (⟦<Line<'a> as Part<(), Error>>⟧.format tt) };

    ghost writes_bounded = { λ order x old new n h. Prim.search rules };

    ghost writes_keeps = { λ order x old new n h. WritesPrefix-keeps _ old new n h.wrote };

    #[inline(always)]
    fn try_into_ctx(self, dst: &mut [u8], ctx: Endian) -> Result<usize, Error> {
        write_whole::<(), Error, Line<'a>>(&self, dst, ctx, &())
    }
}
