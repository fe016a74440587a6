// Printed by tools/derive from member.rt.
ghost use Rattle.std.specs.Prelude.{◌≡◌, ◌≢◌, ◌<◌, ◌≤◌, ◌/◌, ◌%◌, ◌^◌, ◌⊎◌, [], ◌∷◌, length, drop, codes, nat_eq, option_map};
ghost use Rattle.std.proofs.Common.{refl, rules};
ghost use Rattle.scroll.specs.Errors.{IsBadInput};
ghost use Rattle.scroll.specs.Numbers.{number};
ghost use Rattle.scroll.specs.lemmas.Frames.{WritesPrefix-keeps};
ghost use Rattle.scroll_layouts.specs.Formats.{refuses};
ghost use Rattle.scroll_layouts.specs.Lists.{CountedItems};
ghost use Rattle.scroll_layouts.specs.Wholes.{KeepsWhole, ReadsExact, WritesWhole};
ghost use Rattle.scroll_layouts.specs.lemmas.EqualLemmas.{number-again, number-there};
ghost use Rattle.scroll.specs.declared.endian.Endian.TheVariants as endian_is;

use super::{CStr, Extra, ExtraField, ExtraFields, Header, Trailer};
use scroll::ctx::{Record, TryFromCtx, TryIntoCtx, Written};
use scroll::{Endian, Error, LE};
use scroll_layouts::{
    Head, Headed, IsList, Items, ListOf, ListPart, Listed, Ordered, Part, ReadPart, Run, Shape,
    Unmarked, When, read_exact, write_whole,
};
use std::marker::PhantomData;
use std::result::Result;

// field     offset  size
// checksum  0       4
// size      4       4
impl Record for Trailer {
    type Parts = (u32, u32);

    ghost parts_of = { λ x. (x.checksum, x.size) };

    ghost of_parts = { λ p. record { checksum = p.0; size = p.1 } };

    ghost fields_in = { λ order s x.
        (x.checksum ≡ number order 4 s)
        × (x.size ≡ number order 4 (drop 4 s)) };

    ghost again = { λ x. refl };

    ghost there = { λ p. refl };

    ghost fields_of_parts = { λ order s x h. (h.0, h.1) };

    ghost parts_of_fields = { λ order s x h. (h.0, h.1) };

    ghost small = { Prim.search rules };

    fn parts(self) -> Self::Parts {
        (self.checksum, self.size)
    }

    fn of_parts(parts: Self::Parts) -> Trailer {
        Trailer {
            checksum: parts.0,
            size: parts.1,
        }
    }
}

impl<'a> Written for &'a Trailer {
    type Value = Trailer;

    ghost value_of = { λ x. x.now };

    #[inline(always)]
    fn value(self) -> Trailer {
        *self
    }
}

type HeaderHead = Run<(([u8; 2], u8, u8, u32), (u8, u8))>;

type HeaderNext = (When<()>, (When<()>, (When<()>, When<()>)));

#[derive(Drop)]
pub struct HeaderSays;

impl Head<HeaderHead, Error> for HeaderSays {
    type Next = HeaderNext;

    ghost holds = { λ _ h. (h.0.0.0 ≡ (31 ∷ 139 ∷ [])) × (h.0.0.2 < 32) };

    ghost fails = { λ _ h e. ((h.0.0.0 ≢ (31 ∷ 139 ∷ [])) × IsBadInput e 0
        (codes "magic is not [0x1f, 0x8b]")) ⊎ ((h.0.0.0 ≡ (31 ∷ 139 ∷ [])) × ((32 ≤ h.0.0.2)
        × IsBadInput e h.0.0.2 (codes "it is not so that flags < 32"))) };

    ghost next = { λ _ h. (
      record { 0 = (nat_eq (h.0.0.2 / 4 % 2) 1); 1 = tt },
      (
        record { 0 = (nat_eq (h.0.0.2 / 8 % 2) 1); 1 = tt },
        (
          record { 0 = (nat_eq (h.0.0.2 / 16 % 2) 1); 1 = tt },
          record { 0 = (nat_eq (h.0.0.2 / 2 % 2) 1); 1 = tt },
        ),
      ),
    ) };

    fn obey(&self, head: &HeaderHead) -> Result<(), Error> {
        if head.0.0.0 != [31, 139] {
            return Err(Error::BadInput {
                size: 0,
                msg: "magic is not [0x1f, 0x8b]",
            });
        }
        if head.0.0.2 > 31 {
            return Err(Error::BadInput {
                size: head.0.0.2 as usize,
                msg: "it is not so that flags < 32",
            });
        }
        Ok(())
    }

    fn next(&self, head: &HeaderHead) -> HeaderNext {
        (
            When(head.0.0.2 / 4 % 2 == 1, ()),
            (
                When(head.0.0.2 / 8 % 2 == 1, ()),
                (
                    When(head.0.0.2 / 16 % 2 == 1, ()),
                    When(head.0.0.2 / 2 % 2 == 1, ()),
                ),
            ),
        )
    }
}

type HeaderParts<'a> = (
    HeaderHead,
    (
        Option<Extra<'a>>,
        (Option<CStr<'a>>, (Option<CStr<'a>>, Option<Run<u16>>)),
    ),
);

type HeaderCtx = Ordered<Headed<(), HeaderNext, HeaderSays>>;

// order = LE
// field            offset           size                       notes
// magic            0                2                          is = [0x1f, 0x8b]
// method           2                1
// flags            3                1                          check = flags < 32
// modified         4                4
// extra_flags      8                1
// system           9                1
// extra            10               that of `Extra<'a>`, or 0  if = flags & 4 != 0
// name             after `extra`    up to a zero, or 0         if = flags & 8 != 0
// comment          after `name`     up to a zero, or 0         if = flags & 16 != 0
// header_checksum  after `comment`  2, or 0                    if = flags & 2 != 0
impl<'a> Shape for Header<'a> {
    type Ctx = ();

    type Inner = HeaderCtx;

    type Parts = HeaderParts<'a>;

    ghost parts_of = { λ x. (
      record { 0 = ((x.magic, x.method, x.flags, x.modified), (x.extra_flags, x.system)) },
      (x.extra, (x.name, (x.comment, option_map (λ v. record { 0 = v }) x.header_checksum))),
    ) };

    ghost of_parts = { λ p. record {
      magic = p.0.0.0.0;
      method = p.0.0.0.1;
      flags = p.0.0.0.2;
      modified = p.0.0.0.3;
      extra_flags = p.0.0.1.0;
      system = p.0.0.1.1;
      extra = p.1.0;
      name = p.1.1.0;
      comment = p.1.1.1.0;
      header_checksum = option_map (λ v. v.0) p.1.1.1.1;
    } };

    ghost again = { λ x i. record {
      magic = x.magic;
      method = x.method;
      flags = x.flags;
      modified = x.modified;
      extra_flags = x.extra_flags;
      system = x.system;
      extra = x.extra;
      name = x.name;
      comment = x.comment;
      header_checksum = number-again x.header_checksum i;
    } };

    ghost there = { λ p i. (
      record { 0 = ((p.0.0.0.0, p.0.0.0.1, p.0.0.0.2, p.0.0.0.3), (p.0.0.1.0, p.0.0.1.1)) },
      (p.1.0, (p.1.1.0, (p.1.1.1.0, number-there p.1.1.1.1 i))),
    ) };

    ghost inner_of = { λ _. record {
      0 = endian_is.Little;
      1 = record { 0 = tt; 1 = record {}; 2 = record {} };
    } };

    fn split(&self) -> HeaderParts<'a> {
        let numbers = (
            (self.magic, self.method, self.flags, self.modified),
            (self.extra_flags, self.system),
        );
        (
            Run(numbers),
            (
                self.extra,
                (
                    self.name,
                    (self.comment, Run::from_option(self.header_checksum)),
                ),
            ),
        )
    }

    fn join(parts: HeaderParts<'a>) -> Header<'a> {
        let (Run(numbers), (extra, (name, (comment, header_checksum)))) = parts;
        let ((magic, method, flags, modified), (extra_flags, system)) = numbers;
        let header_checksum = Run::into_option(header_checksum);
        Header {
            magic,
            method,
            flags,
            modified,
            extra_flags,
            system,
            extra,
            name,
            comment,
            header_checksum,
        }
    }

    fn inner(_ctx: &()) -> HeaderCtx
        ensures { result ≡ ⟦<Header<'a> as Shape>⟧.inner_of _ctx.now }
    {
        Ordered(LE, Headed((), HeaderSays, PhantomData))
    }
}

impl<'a> TryFromCtx<'a, Endian> for Header<'a> {
    type Error = Error;

    ghost reads = { ReadsExact (⟦<Header<'a> as ReadPart<'a, (), Error>>⟧.format tt) };

    ghost refuses = { λ order s.
        refuses (⟦<Header<'a> as ReadPart<'a, (), Error>>⟧.format tt) order s 0 };

    ghost reads_bounded = { λ order s x n h. Prim.search rules };

    #[inline(always)]
    fn try_from_ctx(from: &'a [u8], ctx: Endian) -> Result<(Header<'a>, usize), Error> {
        read_exact::<(), Error, Header<'a>>(from, ctx, &())
    }
}

impl<'a> TryIntoCtx<Endian> for Header<'a> {
    type Error = Error;

    ghost writes = { WritesWhole (⟦<Header<'a> as Part<(), Error>>⟧.format tt) };

    ghost refuses = { KeepsWhole (λ e d. d ≡ e)
        (⟦<Header<'a> as Part<(), Error>>⟧.format tt) };

    ghost writes_bounded = { λ order x old new n h. Prim.search rules };

    ghost writes_keeps = { λ order x old new n h. WritesPrefix-keeps _ old new n h.wrote };

    #[inline(always)]
    fn try_into_ctx(self, dst: &mut [u8], ctx: Endian) -> Result<usize, Error> {
        write_whole::<(), Error, Header<'a>>(&self, dst, ctx, &())
    }
}

type ExtraHead = Run<u16>;

type ExtraNext = usize;

#[derive(Drop)]
pub struct ExtraSays;

impl Head<ExtraHead, Error> for ExtraSays {
    type Next = ExtraNext;

    ghost holds = { λ _ h. Unit {0} };

    ghost fails = { λ _ h e. ⊥ };

    ghost next = { λ _ h. h.0 };

    fn obey(&self, _head: &ExtraHead) -> Result<(), Error> {
        Ok(())
    }

    fn next(&self, head: &ExtraHead) -> ExtraNext {
        head.0 as usize
    }
}

type ExtraParts<'a> = (ExtraHead, ListOf<'a, ExtraFieldsPart<'a>>);

type ExtraCtx = Headed<(), ExtraNext, ExtraSays>;

// field   offset  size  notes
// len     0       2
// fields  2       len   ctx = len as usize
impl<'a> Shape for Extra<'a> {
    type Ctx = ();

    type Inner = ExtraCtx;

    type Parts = ExtraParts<'a>;

    ghost parts_of = { λ x. (
      record { 0 = x.len },
      record { 0 = record { 0 = x.fields }; 1 = record {} },
    ) };

    ghost of_parts = { λ p. record { len = p.0.0; fields = p.1.0.0 } };

    ghost again = { λ x. refl };

    ghost there = { λ p. refl };

    ghost inner_of = { λ _. record { 0 = tt; 1 = record {}; 2 = record {} } };

    fn split(&self) -> ExtraParts<'a> {
        (
            Run(self.len),
            ListOf(ExtraFieldsPart(self.fields), PhantomData),
        )
    }

    fn join(parts: ExtraParts<'a>) -> Extra<'a> {
        let (Run(len), ListOf(ExtraFieldsPart(fields), _)) = parts;
        Extra { len, fields }
    }

    fn inner(_ctx: &()) -> ExtraCtx
        ensures { result ≡ ⟦<Extra<'a> as Shape>⟧.inner_of _ctx.now }
    {
        Headed((), ExtraSays, PhantomData)
    }
}

#[derive(Drop)]
pub struct ExtraFieldsPart<'a>(pub Items<'a, ExtraFields>);

impl<'a> ListPart<'a> for ExtraFieldsPart<'a> {
    type Kind = ExtraFields;

    ghost seen = { λ x. record { bytes = x.0.bytes.now; order = x.0.order; count = x.0.count } };

    #[inline(always)]
    fn of(bytes: &'a [u8], order: Endian, count: usize) -> ExtraFieldsPart<'a> {
        ExtraFieldsPart(Items::of(bytes, order, count))
    }

    #[inline(always)]
    fn parts(&self) -> (&'a [u8], Endian, usize) {
        (self.0.bytes, self.0.order, self.0.count)
    }
}

impl IsList for ExtraFields {
    ghost is_list = { λ order s n. CountedItems
        (⟦<ExtraField<'static> as ReadPart<'static, (), Error>>⟧.format tt) order s 0 (length s) n };
}

// values      end
// ExtraField  as its field says
impl<'a> Listed<'a> for ExtraFields {
    type Error = Error;

    type Item = ExtraField<'a>;

    ghost item = { ⟦<ExtraField<'a> as ReadPart<'a, (), Error>>⟧.format tt };

    #[inline(always)]
    fn read_item(
        from: &'a [u8],
        offset: usize,
        order: Endian,
    ) -> Result<(ExtraField<'a>, usize), Error> {
        <ExtraField<'a> as ReadPart<'a, (), Error>>::read_at(from, offset, order, &())
    }

    #[inline(always)]
    fn end_item(from: &'a [u8], offset: usize, order: Endian) -> Option<usize> {
        <ExtraField<'a> as ReadPart<'a, (), Error>>::end_at(from, offset, order, &())
    }
}

impl<'a> Unmarked<'a> for ExtraFields {
    ghost from_values = { λ order s n h. h };

    ghost into_values = { λ order s n h. h };
}

type ExtraFieldHead = Run<([u8; 2], u16)>;

type ExtraFieldNext = usize;

#[derive(Drop)]
pub struct ExtraFieldSays;

impl Head<ExtraFieldHead, Error> for ExtraFieldSays {
    type Next = ExtraFieldNext;

    ghost holds = { λ _ h. Unit {0} };

    ghost fails = { λ _ h e. ⊥ };

    ghost next = { λ _ h. h.0.1 };

    fn obey(&self, _head: &ExtraFieldHead) -> Result<(), Error> {
        Ok(())
    }

    fn next(&self, head: &ExtraFieldHead) -> ExtraFieldNext {
        head.0.1 as usize
    }
}

type ExtraFieldParts<'a> = (ExtraFieldHead, &'a [u8]);

type ExtraFieldCtx = Headed<(), ExtraFieldNext, ExtraFieldSays>;

// field  offset  size  notes
// id     0       2
// len    2       2
// data   4       len   ctx = len as usize
impl<'a> Shape for ExtraField<'a> {
    type Ctx = ();

    type Inner = ExtraFieldCtx;

    type Parts = ExtraFieldParts<'a>;

    ghost parts_of = { λ x. (record { 0 = (x.id, x.len) }, x.«data») };

    ghost of_parts = { λ p. record { id = p.0.0.0; len = p.0.0.1; «data» = p.1 } };

    ghost again = { λ x. refl };

    ghost there = { λ p. refl };

    ghost inner_of = { λ _. record { 0 = tt; 1 = record {}; 2 = record {} } };

    fn split(&self) -> ExtraFieldParts<'a> {
        let numbers = (self.id, self.len);
        (Run(numbers), self.data)
    }

    fn join(parts: ExtraFieldParts<'a>) -> ExtraField<'a> {
        let (Run(numbers), data) = parts;
        let (id, len) = numbers;
        ExtraField { id, len, data }
    }

    fn inner(_ctx: &()) -> ExtraFieldCtx
        ensures { result ≡ ⟦<ExtraField<'a> as Shape>⟧.inner_of _ctx.now }
    {
        Headed((), ExtraFieldSays, PhantomData)
    }
}
