// Printed by tools/derive from orders.rt.
ghost use Rattle.std.specs.Prelude.{◌≡◌, ◌<◌, ◌^◌, length};
ghost use Rattle.std.proofs.Common.{refl, rules};
ghost use Rattle.scroll.specs.lemmas.Frames.{WritesPrefix-keeps};
ghost use Rattle.scroll_layouts.specs.Formats.{refuses};
ghost use Rattle.scroll_layouts.specs.Lists.{CountedItems};
ghost use Rattle.scroll_layouts.specs.Wholes.{KeepsWhole, ReadsExact, WritesWhole};

use super::{CodeBlock, CodeList, CodeTable, Codes};
use crate::{
    Count, Head, Headed, IsList, Items, ListOf, ListPart, Listed, Part, ReadPart, Run, Shape,
    Unmarked, read_exact, write_whole,
};
use scroll::ctx::{TryFromCtx, TryIntoCtx};
use scroll::{Endian, Error};
use scroll_formats::Table;
use std::marker::PhantomData;
use std::result::Result;

impl IsList for Codes {
    ghost is_list = { λ order s n. CountedItems
        (⟦<Run<u16> as ReadPart<'static, (), Error>>⟧.format tt) order s 0 (length s) n };
}

// values  end
// u16     as its field says
impl<'a> Listed<'a> for Codes {
    type Error = Error;

    type Item = Run<u16>;

    ghost item = { ⟦<Run<u16> as ReadPart<'a, (), Error>>⟧.format tt };

    #[inline(always)]
    fn read_item(from: &'a [u8], offset: usize, order: Endian) -> Result<(Run<u16>, usize), Error> {
        <Run<u16> as ReadPart<'a, (), Error>>::read_at(from, offset, order, &())
    }

    #[inline(always)]
    fn end_item(from: &'a [u8], offset: usize, order: Endian) -> Option<usize> {
        <Run<u16> as ReadPart<'a, (), Error>>::end_at(from, offset, order, &())
    }
}

impl<'a> Unmarked<'a> for Codes {
    ghost from_values = { λ order s n h. h };

    ghost into_values = { λ order s n h. h };
}

type CodeListHead = Run<u8>;

type CodeListNext = Count;

#[derive(Drop)]
pub struct CodeListSays;

impl Head<CodeListHead, Error> for CodeListSays {
    type Next = CodeListNext;

    ghost holds = { λ _ h. Unit {0} };

    ghost fails = { λ _ h e. ⊥ };

    ghost next = { λ _ h. record { 0 = h.0 } };

    fn obey(&self, _head: &CodeListHead) -> Result<(), Error> {
        Ok(())
    }

    fn next(&self, head: &CodeListHead) -> CodeListNext {
        Count(head.0 as usize)
    }
}

type CodeListParts<'a> = (CodeListHead, ListOf<'a, CodesPart<'a>>);

type CodeListCtx = Headed<(), CodeListNext, CodeListSays>;

// field  offset  size          notes
// count  0       1
// codes  1       count values  ctx = Count(count as usize)
impl<'a> Shape for CodeList<'a> {
    type Ctx = ();

    type Inner = CodeListCtx;

    type Parts = CodeListParts<'a>;

    ghost parts_of = { λ x. (
      record { 0 = x.count },
      record { 0 = record { 0 = x.codes }; 1 = record {} },
    ) };

    ghost of_parts = { λ p. record { count = p.0.0; codes = p.1.0.0 } };

    ghost again = { λ x. refl };

    ghost there = { λ p. refl };

    ghost inner_of = { λ _. record { 0 = tt; 1 = record {}; 2 = record {} } };

    fn split(&self) -> CodeListParts<'a> {
        (Run(self.count), ListOf(CodesPart(self.codes), PhantomData))
    }

    fn join(parts: CodeListParts<'a>) -> CodeList<'a> {
        let (Run(count), ListOf(CodesPart(codes), _)) = parts;
        CodeList { count, codes }
    }

    fn inner(_ctx: &()) -> CodeListCtx
        ensures { result ≡ ⟦<CodeList<'a> as Shape>⟧.inner_of _ctx.now }
    {
        Headed((), CodeListSays, PhantomData)
    }
}

impl<'a> TryFromCtx<'a, Endian> for CodeList<'a> {
    type Error = Error;

    ghost reads = { ReadsExact (⟦<CodeList<'a> as ReadPart<'a, (), Error>>⟧.format tt) };

    ghost refuses = { λ order s.
        refuses (⟦<CodeList<'a> as ReadPart<'a, (), Error>>⟧.format tt) order s 0 };

    ghost reads_bounded = { λ order s x n h. Prim.search rules };

    #[inline(always)]
    fn try_from_ctx(from: &'a [u8], ctx: Endian) -> Result<(CodeList<'a>, usize), Error> {
        read_exact::<(), Error, CodeList<'a>>(from, ctx, &())
    }
}

impl<'a> TryIntoCtx<Endian> for CodeList<'a> {
    type Error = Error;

    ghost writes = { WritesWhole (⟦<CodeList<'a> as Part<(), Error>>⟧.format tt) };

    ghost refuses = { KeepsWhole (λ e d. d ≡ e)
        (⟦<CodeList<'a> as Part<(), Error>>⟧.format tt) };

    ghost writes_bounded = { λ order x old new n h. Prim.search rules };

    ghost writes_keeps = { λ order x old new n h. WritesPrefix-keeps _ old new n h.wrote };

    #[inline(always)]
    fn try_into_ctx(self, dst: &mut [u8], ctx: Endian) -> Result<usize, Error> {
        write_whole::<(), Error, CodeList<'a>>(&self, dst, ctx, &())
    }
}

#[derive(Drop)]
pub struct CodesPart<'a>(pub Items<'a, Codes>);

impl<'a> ListPart<'a> for CodesPart<'a> {
    type Kind = Codes;

    ghost seen = { λ x. record { bytes = x.0.bytes.now; order = x.0.order; count = x.0.count } };

    #[inline(always)]
    fn of(bytes: &'a [u8], order: Endian, count: usize) -> CodesPart<'a> {
        CodesPart(Items::of(bytes, order, count))
    }

    #[inline(always)]
    fn parts(&self) -> (&'a [u8], Endian, usize) {
        (self.0.bytes, self.0.order, self.0.count)
    }
}

type CodeBlockHead = Run<u8>;

type CodeBlockNext = usize;

#[derive(Drop)]
pub struct CodeBlockSays;

impl Head<CodeBlockHead, Error> for CodeBlockSays {
    type Next = CodeBlockNext;

    ghost holds = { λ _ h. Unit {0} };

    ghost fails = { λ _ h e. ⊥ };

    ghost next = { λ _ h. h.0 };

    fn obey(&self, _head: &CodeBlockHead) -> Result<(), Error> {
        Ok(())
    }

    fn next(&self, head: &CodeBlockHead) -> CodeBlockNext {
        head.0 as usize
    }
}

type CodeBlockParts<'a> = (CodeBlockHead, ListOf<'a, CodesPart<'a>>);

type CodeBlockCtx = Headed<(), CodeBlockNext, CodeBlockSays>;

// field  offset  size  notes
// size   0       1
// codes  1       size  ctx = size as usize
impl<'a> Shape for CodeBlock<'a> {
    type Ctx = ();

    type Inner = CodeBlockCtx;

    type Parts = CodeBlockParts<'a>;

    ghost parts_of = { λ x. (
      record { 0 = x.size },
      record { 0 = record { 0 = x.codes }; 1 = record {} },
    ) };

    ghost of_parts = { λ p. record { size = p.0.0; codes = p.1.0.0 } };

    ghost again = { λ x. refl };

    ghost there = { λ p. refl };

    ghost inner_of = { λ _. record { 0 = tt; 1 = record {}; 2 = record {} } };

    fn split(&self) -> CodeBlockParts<'a> {
        (Run(self.size), ListOf(CodesPart(self.codes), PhantomData))
    }

    fn join(parts: CodeBlockParts<'a>) -> CodeBlock<'a> {
        let (Run(size), ListOf(CodesPart(codes), _)) = parts;
        CodeBlock { size, codes }
    }

    fn inner(_ctx: &()) -> CodeBlockCtx
        ensures { result ≡ ⟦<CodeBlock<'a> as Shape>⟧.inner_of _ctx.now }
    {
        Headed((), CodeBlockSays, PhantomData)
    }
}

impl<'a> TryFromCtx<'a, Endian> for CodeBlock<'a> {
    type Error = Error;

    ghost reads = { ReadsExact (⟦<CodeBlock<'a> as ReadPart<'a, (), Error>>⟧.format tt) };

    ghost refuses = { λ order s.
        refuses (⟦<CodeBlock<'a> as ReadPart<'a, (), Error>>⟧.format tt) order s 0 };

    ghost reads_bounded = { λ order s x n h. Prim.search rules };

    #[inline(always)]
    fn try_from_ctx(from: &'a [u8], ctx: Endian) -> Result<(CodeBlock<'a>, usize), Error> {
        read_exact::<(), Error, CodeBlock<'a>>(from, ctx, &())
    }
}

impl<'a> TryIntoCtx<Endian> for CodeBlock<'a> {
    type Error = Error;

    ghost writes = { WritesWhole (⟦<CodeBlock<'a> as Part<(), Error>>⟧.format tt) };

    ghost refuses = { KeepsWhole (λ e d. d ≡ e)
        (⟦<CodeBlock<'a> as Part<(), Error>>⟧.format tt) };

    ghost writes_bounded = { λ order x old new n h. Prim.search rules };

    ghost writes_keeps = { λ order x old new n h. WritesPrefix-keeps _ old new n h.wrote };

    #[inline(always)]
    fn try_into_ctx(self, dst: &mut [u8], ctx: Endian) -> Result<usize, Error> {
        write_whole::<(), Error, CodeBlock<'a>>(&self, dst, ctx, &())
    }
}

type CodeTableHead = Run<u8>;

type CodeTableNext = usize;

#[derive(Drop)]
pub struct CodeTableSays;

impl Head<CodeTableHead, Error> for CodeTableSays {
    type Next = CodeTableNext;

    ghost holds = { λ _ h. Unit {0} };

    ghost fails = { λ _ h e. ⊥ };

    ghost next = { λ _ h. h.0 };

    fn obey(&self, _head: &CodeTableHead) -> Result<(), Error> {
        Ok(())
    }

    fn next(&self, head: &CodeTableHead) -> CodeTableNext {
        head.0 as usize
    }
}

type CodeTableParts<'a> = (CodeTableHead, Table<'a, u16>);

type CodeTableCtx = Headed<(), CodeTableNext, CodeTableSays>;

// field  offset  size            notes
// count  0       1
// codes  1       count elements  ctx = count as usize
impl<'a> Shape for CodeTable<'a> {
    type Ctx = ();

    type Inner = CodeTableCtx;

    type Parts = CodeTableParts<'a>;

    ghost parts_of = { λ x. (record { 0 = x.count }, x.codes) };

    ghost of_parts = { λ p. record { count = p.0.0; codes = p.1 } };

    ghost again = { λ x. refl };

    ghost there = { λ p. refl };

    ghost inner_of = { λ _. record { 0 = tt; 1 = record {}; 2 = record {} } };

    fn split(&self) -> CodeTableParts<'a> {
        (Run(self.count), self.codes)
    }

    fn join(parts: CodeTableParts<'a>) -> CodeTable<'a> {
        let (Run(count), codes) = parts;
        CodeTable { count, codes }
    }

    fn inner(_ctx: &()) -> CodeTableCtx
        ensures { result ≡ ⟦<CodeTable<'a> as Shape>⟧.inner_of _ctx.now }
    {
        Headed((), CodeTableSays, PhantomData)
    }
}

impl<'a> TryFromCtx<'a, Endian> for CodeTable<'a> {
    type Error = Error;

    ghost reads = { ReadsExact (⟦<CodeTable<'a> as ReadPart<'a, (), Error>>⟧.format tt) };

    ghost refuses = { λ order s.
        refuses (⟦<CodeTable<'a> as ReadPart<'a, (), Error>>⟧.format tt) order s 0 };

    ghost reads_bounded = { λ order s x n h. Prim.search rules };

    #[inline(always)]
    fn try_from_ctx(from: &'a [u8], ctx: Endian) -> Result<(CodeTable<'a>, usize), Error> {
        read_exact::<(), Error, CodeTable<'a>>(from, ctx, &())
    }
}

impl<'a> TryIntoCtx<Endian> for CodeTable<'a> {
    type Error = Error;

    ghost writes = { WritesWhole (⟦<CodeTable<'a> as Part<(), Error>>⟧.format tt) };

    ghost refuses = { KeepsWhole (λ e d. d ≡ e)
        (⟦<CodeTable<'a> as Part<(), Error>>⟧.format tt) };

    ghost writes_bounded = { λ order x old new n h. Prim.search rules };

    ghost writes_keeps = { λ order x old new n h. WritesPrefix-keeps _ old new n h.wrote };

    #[inline(always)]
    fn try_into_ctx(self, dst: &mut [u8], ctx: Endian) -> Result<usize, Error> {
        write_whole::<(), Error, CodeTable<'a>>(&self, dst, ctx, &())
    }
}
