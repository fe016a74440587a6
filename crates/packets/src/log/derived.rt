// Printed by tools/derive from log.rt.
ghost use Rattle.std.specs.Prelude.{◌≡◌, ◌<◌, ◌≤◌, ◌+◌, ◌-◌, ◌^◌, length, codes};
ghost use Rattle.std.proofs.Common.{refl, rules};
ghost use Rattle.scroll.specs.Errors.{IsBadInput};
ghost use Rattle.scroll.specs.lemmas.Frames.{WritesPrefix-keeps};
ghost use Rattle.scroll_layouts.specs.Formats.{refuses};
ghost use Rattle.scroll_layouts.specs.Wholes.{KeepsWhole, ReadsBack, ReadsExact, WritesWhole};
ghost use Rattle.scroll_layouts.specs.lemmas.WholeLemmas.{whole-kept};

use super::Record;
use scroll::ctx::{TryFromCtx, TryIntoCtx};
use scroll::{Endian, Error};
use scroll_formats::Kept;
use scroll_layouts::{
    Ends, Head, Headed, Part, ReadPart, Run, Shape, kept_exact, read_exact, write_whole,
};
use std::marker::PhantomData;
use std::result::Result;

type RecordHead2<'a> = &'a str;

type RecordNext2 = usize;

#[derive(Drop)]
pub struct RecordSays2(pub u16);

impl<'a> Head<RecordHead2<'a>, Error> for RecordSays2 {
    type Next = RecordNext2;

    ghost holds = { λ c h. ((length h.now) + 1 ≤ c.0) };

    ghost fails = { λ c h e. (c.0 < (length h.now) + 1) × IsBadInput e c.0
        (codes "len is less than name.len() + 1") };

    ghost next = { λ c h. c.0 - (length h.now) - 1 };

    fn obey(&self, head: &RecordHead2<'a>) -> Result<(), Error> {
        if head.len() > self.0 as usize || 1 > self.0 as usize - head.len() {
            return Err(Error::BadInput {
                size: self.0 as usize,
                msg: "len is less than name.len() + 1",
            });
        }
        Ok(())
    }

    fn next(&self, head: &RecordHead2<'a>) -> RecordNext2 {
        (self.0 as usize)
            .saturating_sub(head.len())
            .saturating_sub(1)
    }
}

type RecordRest2<'a> = (RecordHead2<'a>, &'a [u8]);

type RecordHead = Run<u16>;

type RecordNext = Headed<Ends, RecordNext2, RecordSays2>;

#[derive(Drop)]
pub struct RecordSays;

impl Head<RecordHead, Error> for RecordSays {
    type Next = RecordNext;

    ghost holds = { λ _ h. Unit {0} };

    ghost fails = { λ _ h e. ⊥ };

    ghost next = { λ _ h. record { 0 = record { 0 = 0 }; 1 = record { 0 = h.0 }; 2 = record {} } };

    fn obey(&self, _head: &RecordHead) -> Result<(), Error> {
        Ok(())
    }

    fn next(&self, head: &RecordHead) -> RecordNext {
        Headed(Ends(0), RecordSays2(head.0), PhantomData)
    }
}

type RecordParts<'a> = (RecordHead, RecordRest2<'a>);

type RecordCtx = Headed<(), RecordNext, RecordSays>;

// field  offset        size                  notes
// len    0             2
// name   2             up to the byte 0      ctx = StrCtx::Required(0)
// body   after `name`  len - name.len() - 1  ctx = len as usize - name.len() - 1
impl<'a> Shape for Record<'a> {
    type Ctx = ();

    type Inner = RecordCtx;

    type Parts = RecordParts<'a>;

    ghost parts_of = { λ x. (record { 0 = x.len }, (x.name, x.body)) };

    ghost of_parts = { λ p. record { len = p.0.0; name = p.1.0; body = p.1.1 } };

    ghost again = { λ x. refl };

    ghost there = { λ p. refl };

    ghost inner_of = { λ _. record { 0 = tt; 1 = record {}; 2 = record {} } };

    fn split(&self) -> RecordParts<'a> {
        (Run(self.len), (self.name, self.body))
    }

    fn join(parts: RecordParts<'a>) -> Record<'a> {
        let (Run(len), (name, body)) = parts;
        Record { len, name, body }
    }

    fn inner(_ctx: &()) -> RecordCtx
        ensures { result ≡ ⟦<Record<'a> as Shape>⟧.inner_of _ctx.now }
    {
        Headed((), RecordSays, PhantomData)
    }
}

impl<'a> TryFromCtx<'a, Endian> for Record<'a> {
    type Error = Error;

    ghost reads = { ReadsExact (⟦<Record<'a> as ReadPart<'a, (), Error>>⟧.format tt) };

    ghost refuses = { λ order s.
        refuses (⟦<Record<'a> as ReadPart<'a, (), Error>>⟧.format tt) order s 0 };

    ghost reads_bounded = { λ order s x n h. Prim.search rules };

    #[inline(always)]
    fn try_from_ctx(from: &'a [u8], ctx: Endian) -> Result<(Record<'a>, usize), Error> {
        read_exact::<(), Error, Record<'a>>(from, ctx, &())
    }
}

impl<'a> TryIntoCtx<Endian> for Record<'a> {
    type Error = Error;

    ghost writes = { WritesWhole (⟦<Record<'a> as Part<(), Error>>⟧.format tt) };

    ghost refuses = { KeepsWhole (λ e d. d ≡ e)
        (⟦<Record<'a> as Part<(), Error>>⟧.format tt) };

    ghost writes_bounded = { λ order x old new n h. Prim.search rules };

    ghost writes_keeps = { λ order x old new n h. WritesPrefix-keeps _ old new n h.wrote };

    #[inline(always)]
    fn try_into_ctx(self, dst: &mut [u8], ctx: Endian) -> Result<usize, Error> {
        write_whole::<(), Error, Record<'a>>(&self, dst, ctx, &())
    }
}

impl<'a> Kept<'a, Endian> for Record<'a> {
    ghost reads = { ReadsBack (⟦<Record<'a> as ReadPart<'a, (), Error>>⟧.format tt) };

    ghost fits = { λ _. Unit {0} };

    fn fit(self) {}

    ghost back = { λ order x old new rest n fits h. whole-kept _ order x old new n h rest };

    fn returned(self) {
        kept_exact::<(), Error, Record<'a>>(&self, &())
    }
}
