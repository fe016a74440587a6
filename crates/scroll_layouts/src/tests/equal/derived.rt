// Printed by tools/derive from equal.rt.
ghost use Rattle.std.specs.Prelude.{◌≡◌, ◌≢◌, ◌<◌, ◌/◌, ◌%◌, ◌^◌, ◌⊎◌, drop, codes, nat_eq, option_map};
ghost use Rattle.std.proofs.Common.{refl, rules};
ghost use Rattle.scroll.specs.Errors.{IsBadInput};
ghost use Rattle.scroll.specs.Numbers.{signed_number};
ghost use Rattle.scroll.specs.lemmas.Frames.{WritesPrefix-keeps};
ghost use Rattle.scroll_layouts.specs.Formats.{refuses};
ghost use Rattle.scroll_layouts.specs.Wholes.{KeepsWhole, ReadsExact, WritesWhole};
ghost use Rattle.scroll_layouts.specs.lemmas.EqualLemmas.{record-again, record-there};
ghost use Rattle.scroll_layouts.specs.declared.choice.Choice.TheVariants.{First, Second};

use super::{Event, Line, Spot};
use crate::Choice::{First, Second};
use crate::{
    Choice, Choose, Field, Given, Head, Headed, Octal, Part, ReadPart, Run, Shape, Uleb, When,
    read_exact, write_whole,
};
use scroll::ctx::{Record, TryFromCtx, TryIntoCtx, Written};
use scroll::{Endian, Error};
use scroll_formats::Zeros;
use std::marker::PhantomData;
use std::result::Result;

// field  offset  size
// x      0       2
// y      2       2
impl Record for Spot {
    type Parts = (i16, i16);

    ghost parts_of = { λ x. (x.x, x.y) };

    ghost of_parts = { λ p. record { x = p.0; y = p.1 } };

    ghost fields_in = { λ order s x.
        (x.x ≡ signed_number order 2 s)
        × (x.y ≡ signed_number order 2 (drop 2 s)) };

    ghost again = { λ x. refl };

    ghost there = { λ p. refl };

    ghost fields_of_parts = { λ order s x h. (h.0, h.1) };

    ghost parts_of_fields = { λ order s x h. (h.0, h.1) };

    ghost small = { Prim.search rules };

    fn parts(self) -> Self::Parts {
        (self.x, self.y)
    }

    fn of_parts(parts: Self::Parts) -> Spot {
        Spot {
            x: parts.0,
            y: parts.1,
        }
    }
}

impl<'a> Written for &'a Spot {
    type Value = Spot;

    ghost value_of = { λ x. x.now };

    #[inline(always)]
    fn value(self) -> Spot {
        *self
    }
}

type EventParts = Choice<Zeros, Choice<Run<(i16, Field<Spot>)>, Uleb>>;

type EventCtx = Choose<usize, Choose<(), ()>>;

// given = kind: u8
// variant  tag  values
// Ended    0    none
// Moved    1    i16, Spot
// Counted  2    Uleb
impl Shape for Event {
    ghost use Rattle.scroll_layouts.specs.declared.tests.equal.Event.TheVariants as event_is;

    type Ctx = u8;

    type Inner = EventCtx;

    type Parts = EventParts;

    ghost parts_of = { elim [
      | event_is.Ended ↦ First (record {})
      | event_is.Moved v0 v1 ↦ Second (First (record { 0 = (v0, record { 0 = v1 }) }))
      | event_is.Counted v0 ↦ Second (Second v0)
    ] };

    ghost of_parts = { elim [
      | First p ↦ event_is.Ended
      | Second (First p) ↦ event_is.Moved p.0.0 p.0.1.0
      | Second (Second p) ↦ event_is.Counted p
    ] };

    ghost again = { elim [
      | event_is.Ended ↦ refl
      | event_is.Moved v0 v1 ↦ refl
      | event_is.Counted v0 ↦ refl
    ] };

    ghost there = { elim [
      | First p ↦ refl
      | Second (First p) ↦ refl
      | Second (Second p) ↦ refl
    ] };

    ghost inner_of = { λ t. record {
      0 = (nat_eq t 0);
      1 = 0;
      2 = record { 0 = (nat_eq t 1); 1 = tt; 2 = tt };
    } };

    fn split(&self) -> EventParts {
        match self {
            Event::Ended => First(Zeros),
            Event::Moved(v0, v1) => Second(First(Run((*v0, Field(*v1))))),
            Event::Counted(v0) => Second(Second(*v0)),
        }
    }

    fn join(parts: EventParts) -> Event {
        match parts {
            First(_) => Event::Ended,
            Second(First(Run((v0, Field(v1))))) => Event::Moved(v0, v1),
            Second(Second(v0)) => Event::Counted(v0),
        }
    }

    fn inner(ctx: &u8) -> EventCtx
        ensures { result ≡ ⟦<Event as Shape>⟧.inner_of ctx.now }
    {
        Choose(*ctx == 0, 0, Choose(*ctx == 1, (), ()))
    }
}

type LineHead2 = Run<u8>;

type LineNext2 = usize;

#[derive(Drop)]
pub struct LineSays2;

impl Head<LineHead2, Error> for LineSays2 {
    type Next = LineNext2;

    ghost holds = { λ _ h. Unit {0} };

    ghost fails = { λ _ h e. ⊥ };

    ghost next = { λ _ h. h.0 };

    fn obey(&self, _head: &LineHead2) -> Result<(), Error> {
        Ok(())
    }

    fn next(&self, head: &LineHead2) -> LineNext2 {
        head.0 as usize
    }
}

type LineRest2<'a> = (LineHead2, &'a [u8]);

type LineHead = Run<(u8, u8)>;

type LineNext = (
    When<()>,
    (
        When<()>,
        (When<()>, (Given<u8>, Headed<(), LineNext2, LineSays2>)),
    ),
);

#[derive(Drop)]
pub struct LineSays;

impl Head<LineHead, Error> for LineSays {
    type Next = LineNext;

    ghost holds = { λ _ h. ((h.0.0 ≡ 0) ⊎ (h.0.0 ≡ 1) ⊎ (h.0.0 ≡ 2)) };

    ghost fails = { λ _ h e. ((h.0.0 ≢ 0) × (h.0.0 ≢ 1) × (h.0.0 ≢ 2)) × IsBadInput e h.0.0
        (codes "Event has no such tag") };

    ghost next = { λ _ h. (
      record { 0 = (nat_eq (h.0.1 % 2) 1); 1 = tt },
      (
        record { 0 = (nat_eq (h.0.1 / 2 % 2) 1); 1 = tt },
        (
          record { 0 = (nat_eq (h.0.1 / 4 % 2) 1); 1 = tt },
          (record { 0 = h.0.0 }, record { 0 = tt; 1 = record {}; 2 = record {} }),
        ),
      ),
    ) };

    fn obey(&self, head: &LineHead) -> Result<(), Error> {
        if head.0.0 != 0 && head.0.0 != 1 && head.0.0 != 2 {
            return Err(Error::BadInput {
                size: head.0.0 as usize,
                msg: "Event has no such tag",
            });
        }
        Ok(())
    }

    fn next(&self, head: &LineHead) -> LineNext {
        (
            When(head.0.1 % 2 == 1, ()),
            (
                When(head.0.1 / 2 % 2 == 1, ()),
                (
                    When(head.0.1 / 4 % 2 == 1, ()),
                    (Given(head.0.0), Headed((), LineSays2, PhantomData)),
                ),
            ),
        )
    }
}

type LineParts<'a> = (
    LineHead,
    (
        Option<Uleb>,
        (
            Option<Octal<4>>,
            (Option<Run<Field<Spot>>>, (Event, LineRest2<'a>)),
        ),
    ),
);

type LineCtx = Headed<(), LineNext, LineSays>;

// field  offset         size             notes
// kind   0              1
// flags  1              1
// count  2              1 to 10, or 0    if = flags & 1 != 0
// mode   after `count`  4, or 0          if = flags & 2 != 0
// spot   after `mode`   4, or 0          if = flags & 4 != 0
// event  after `spot`   that of `Event`  ctx = kind
// len    after `event`  1
// name   after `len`    len              ctx = len as usize
impl<'a> Shape for Line<'a> {
    type Ctx = ();

    type Inner = LineCtx;

    type Parts = LineParts<'a>;

    ghost parts_of = { λ x. (
      record { 0 = (x.kind, x.flags) },
      (
        x.count,
        (
          x.mode,
          (
            option_map (λ v. record { 0 = record { 0 = v } }) x.spot,
            (x.event, (record { 0 = x.len }, x.name)),
          ),
        ),
      ),
    ) };

    ghost of_parts = { λ p. record {
      kind = p.0.0.0;
      flags = p.0.0.1;
      count = p.1.0;
      mode = p.1.1.0;
      spot = option_map (λ v. v.0.0) p.1.1.1.0;
      event = p.1.1.1.1.0;
      len = p.1.1.1.1.1.0.0;
      name = p.1.1.1.1.1.1;
    } };

    ghost again = { λ x i. record {
      kind = x.kind;
      flags = x.flags;
      count = x.count;
      mode = x.mode;
      spot = record-again x.spot i;
      event = x.event;
      len = x.len;
      name = x.name;
    } };

    ghost there = { λ p i. (
      record { 0 = (p.0.0.0, p.0.0.1) },
      (
        p.1.0,
        (
          p.1.1.0,
          (
            record-there p.1.1.1.0 i,
            (p.1.1.1.1.0, (record { 0 = p.1.1.1.1.1.0.0 }, p.1.1.1.1.1.1)),
          ),
        ),
      ),
    ) };

    ghost inner_of = { λ _. record { 0 = tt; 1 = record {}; 2 = record {} } };

    fn split(&self) -> LineParts<'a> {
        (
            Run((self.kind, self.flags)),
            (
                self.count,
                (
                    self.mode,
                    (
                        Field::from_option(self.spot),
                        (self.event, (Run(self.len), self.name)),
                    ),
                ),
            ),
        )
    }

    fn join(parts: LineParts<'a>) -> Line<'a> {
        let (Run((kind, flags)), (count, (mode, (spot, (event, (Run(len), name)))))) = parts;
        let spot = Field::into_option(spot);
        Line {
            kind,
            flags,
            count,
            mode,
            spot,
            event,
            len,
            name,
        }
    }

    fn inner(_ctx: &()) -> LineCtx
        ensures { result ≡ ⟦<Line<'a> as Shape>⟧.inner_of _ctx.now }
    {
        Headed((), LineSays, PhantomData)
    }
}

impl<'a> TryFromCtx<'a, Endian> for Line<'a> {
    type Error = Error;

    ghost reads = { ReadsExact (⟦<Line<'a> as ReadPart<'a, (), Error>>⟧.format tt) };

    ghost refuses = { λ order s.
        refuses (⟦<Line<'a> as ReadPart<'a, (), Error>>⟧.format tt) order s 0 };

    ghost reads_bounded = { λ order s x n h. Prim.search rules };

    #[inline(always)]
    fn try_from_ctx(from: &'a [u8], ctx: Endian) -> Result<(Line<'a>, usize), Error> {
        read_exact::<(), Error, Line<'a>>(from, ctx, &())
    }
}

impl<'a> TryIntoCtx<Endian> for Line<'a> {
    type Error = Error;

    ghost writes = { WritesWhole (⟦<Line<'a> as Part<(), Error>>⟧.format tt) };

    ghost refuses = { KeepsWhole (λ e d. d ≡ e)
        (⟦<Line<'a> as Part<(), Error>>⟧.format tt) };

    ghost writes_bounded = { λ order x old new n h. Prim.search rules };

    ghost writes_keeps = { λ order x old new n h. WritesPrefix-keeps _ old new n h.wrote };

    #[inline(always)]
    fn try_into_ctx(self, dst: &mut [u8], ctx: Endian) -> Result<usize, Error> {
        write_whole::<(), Error, Line<'a>>(&self, dst, ctx, &())
    }
}
