// Printed by tools/derive from closed.rt.
ghost use Rattle.std.specs.Prelude.{◌≡◌, ◌<◌, ◌^◌, length, nat_eq};
ghost use Rattle.std.proofs.Common.{refl, rules};
ghost use Rattle.scroll.specs.lemmas.Frames.{WritesPrefix-keeps};
ghost use Rattle.scroll_layouts.specs.Closed.{CountedClosed};
ghost use Rattle.scroll_layouts.specs.Formats.{refuses};
ghost use Rattle.scroll_layouts.specs.Wholes.{KeepsWhole, ReadsExact, WritesWhole};

use super::{Block, Blocks, Metadata};
use crate::{
    Closed, Head, Headed, IsList, Items, ListOf, ListPart, Listed, Low, Packed, Part, ReadPart,
    Run, Shape, ToLast, read_exact, write_whole,
};
use scroll::ctx::{TryFromCtx, TryIntoCtx};
use scroll::{Endian, Error};
use std::marker::PhantomData;
use std::result::Result;

type BlockHead = Run<u8>;

type BlockNext = usize;

#[derive(Drop)]
pub struct BlockSays;

impl Head<BlockHead, Error> for BlockSays {
    type Next = BlockNext;

    ghost holds = { λ _ h. Unit {0} };

    ghost fails = { λ _ h e. ⊥ };

    ghost next = { λ _ h. h.0 };

    fn obey(&self, _head: &BlockHead) -> Result<(), Error> {
        Ok(())
    }

    fn next(&self, head: &BlockHead) -> BlockNext {
        head.0 as usize
    }
}

type BlockRest<'a> = (BlockHead, &'a [u8]);

type BlockParts<'a> = ((u16, u16), BlockRest<'a>);

type BlockCtx = (Packed<u16, Low<u16, ()>>, Headed<(), BlockNext, BlockSays>);

// field    offset  size     notes
// is_last  0       1 bit
// number   0       15 bits
// len      2       1
// data     3       len      ctx = len as usize
impl<'a> Shape for Block<'a> {
    type Ctx = ();

    type Inner = BlockCtx;

    type Parts = BlockParts<'a>;

    ghost parts_of = { λ x. ((x.is_last, x.number), (record { 0 = x.len }, x.«data»)) };

    ghost of_parts = { λ p. record {
      is_last = p.0.0;
      number = p.0.1;
      len = p.1.0.0;
      «data» = p.1.1;
    } };

    ghost again = { λ x. refl };

    ghost there = { λ p. refl };

    ghost inner_of = { λ _. (
      record { 0 = record {}; 1 = record { 0 = 32767; 1 = tt } },
      record { 0 = tt; 1 = record {}; 2 = record {} },
    ) };

    fn split(&self) -> BlockParts<'a> {
        ((self.is_last, self.number), (Run(self.len), self.data))
    }

    fn join(parts: BlockParts<'a>) -> Block<'a> {
        let ((is_last, number), (Run(len), data)) = parts;
        Block {
            is_last,
            number,
            len,
            data,
        }
    }

    fn inner(_ctx: &()) -> BlockCtx
        ensures { result ≡ ⟦<Block<'a> as Shape>⟧.inner_of _ctx.now }
    {
        (
            Packed(PhantomData, Low(32767, ())),
            Headed((), BlockSays, PhantomData),
        )
    }
}

impl<'a> TryFromCtx<'a, Endian> for Block<'a> {
    type Error = Error;

    ghost reads = { ReadsExact (⟦<Block<'a> as ReadPart<'a, (), Error>>⟧.format tt) };

    ghost refuses = { λ order s.
        refuses (⟦<Block<'a> as ReadPart<'a, (), Error>>⟧.format tt) order s 0 };

    ghost reads_bounded = { λ order s x n h. Prim.search rules };

    #[inline(always)]
    fn try_from_ctx(from: &'a [u8], ctx: Endian) -> Result<(Block<'a>, usize), Error> {
        read_exact::<(), Error, Block<'a>>(from, ctx, &())
    }
}

impl<'a> TryIntoCtx<Endian> for Block<'a> {
    type Error = Error;

    ghost writes = { WritesWhole (⟦<Block<'a> as Part<(), Error>>⟧.format tt) };

    ghost refuses = { KeepsWhole (λ e d. d ≡ e)
        (⟦<Block<'a> as Part<(), Error>>⟧.format tt) };

    ghost writes_bounded = { λ order x old new n h. Prim.search rules };

    ghost writes_keeps = { λ order x old new n h. WritesPrefix-keeps _ old new n h.wrote };

    #[inline(always)]
    fn try_into_ctx(self, dst: &mut [u8], ctx: Endian) -> Result<usize, Error> {
        write_whole::<(), Error, Block<'a>>(&self, dst, ctx, &())
    }
}

impl IsList for Blocks {
    ghost is_list = { λ order s n. CountedClosed
        (⟦<Block<'static> as ReadPart<'static, (), Error>>⟧.format tt) (λ x. (nat_eq x.is_last 1))
        order s (length s) n };
}

// values  end
// Block   the value of which is_last == 1
impl<'a> Listed<'a> for Blocks {
    type Error = Error;

    type Item = Block<'a>;

    ghost item = { ⟦<Block<'a> as ReadPart<'a, (), Error>>⟧.format tt };

    #[inline(always)]
    fn read_item(
        from: &'a [u8],
        offset: usize,
        order: Endian,
    ) -> Result<(Block<'a>, usize), Error> {
        <Block<'a> as ReadPart<'a, (), Error>>::read_at(from, offset, order, &())
    }

    #[inline(always)]
    fn end_item(from: &'a [u8], offset: usize, order: Endian) -> Option<usize> {
        <Block<'a> as ReadPart<'a, (), Error>>::end_at(from, offset, order, &())
    }
}

impl<'a> Closed<'a> for Blocks {
    ghost closes = { λ x. (nat_eq x.is_last 1) };

    ghost from_values = { λ order s n h. h };

    ghost into_values = { λ order s n h. h };

    #[inline(always)]
    fn is_last(x: &Block<'a>) -> bool {
        x.is_last == 1
    }
}

type MetadataParts<'a> = (ListOf<'a, BlocksPart<'a>>, Run<u8>);

type MetadataCtx = (ToLast, ());

// field   offset          size                  notes
// blocks  0               up to its last value  ctx = ToLast
// rest    after `blocks`  1
impl<'a> Shape for Metadata<'a> {
    type Ctx = ();

    type Inner = MetadataCtx;

    type Parts = MetadataParts<'a>;

    ghost parts_of = { λ x. (
      record { 0 = record { 0 = x.blocks }; 1 = record {} },
      record { 0 = x.rest },
    ) };

    ghost of_parts = { λ p. record { blocks = p.0.0.0; rest = p.1.0 } };

    ghost again = { λ x. refl };

    ghost there = { λ p. refl };

    ghost inner_of = { λ _. (record {}, tt) };

    fn split(&self) -> MetadataParts<'a> {
        (ListOf(BlocksPart(self.blocks), PhantomData), Run(self.rest))
    }

    fn join(parts: MetadataParts<'a>) -> Metadata<'a> {
        let (ListOf(BlocksPart(blocks), _), Run(rest)) = parts;
        Metadata { blocks, rest }
    }

    fn inner(_ctx: &()) -> MetadataCtx
        ensures { result ≡ ⟦<Metadata<'a> as Shape>⟧.inner_of _ctx.now }
    {
        (ToLast, ())
    }
}

impl<'a> TryFromCtx<'a, Endian> for Metadata<'a> {
    type Error = Error;

    ghost reads = { ReadsExact (⟦<Metadata<'a> as ReadPart<'a, (), Error>>⟧.format tt) };

    ghost refuses = { λ order s.
        refuses (⟦<Metadata<'a> as ReadPart<'a, (), Error>>⟧.format tt) order s 0 };

    ghost reads_bounded = { λ order s x n h. Prim.search rules };

    #[inline(always)]
    fn try_from_ctx(from: &'a [u8], ctx: Endian) -> Result<(Metadata<'a>, usize), Error> {
        read_exact::<(), Error, Metadata<'a>>(from, ctx, &())
    }
}

impl<'a> TryIntoCtx<Endian> for Metadata<'a> {
    type Error = Error;

    ghost writes = { WritesWhole (⟦<Metadata<'a> as Part<(), Error>>⟧.format tt) };

    ghost refuses = { KeepsWhole (λ e d. d ≡ e)
        (⟦<Metadata<'a> as Part<(), Error>>⟧.format tt) };

    ghost writes_bounded = { λ order x old new n h. Prim.search rules };

    ghost writes_keeps = { λ order x old new n h. WritesPrefix-keeps _ old new n h.wrote };

    #[inline(always)]
    fn try_into_ctx(self, dst: &mut [u8], ctx: Endian) -> Result<usize, Error> {
        write_whole::<(), Error, Metadata<'a>>(&self, dst, ctx, &())
    }
}

#[derive(Drop)]
pub struct BlocksPart<'a>(pub Items<'a, Blocks>);

impl<'a> ListPart<'a> for BlocksPart<'a> {
    type Kind = Blocks;

    ghost seen = { λ x. record { bytes = x.0.bytes.now; order = x.0.order; count = x.0.count } };

    #[inline(always)]
    fn of(bytes: &'a [u8], order: Endian, count: usize) -> BlocksPart<'a> {
        BlocksPart(Items::of(bytes, order, count))
    }

    #[inline(always)]
    fn parts(&self) -> (&'a [u8], Endian, usize) {
        (self.0.bytes, self.0.order, self.0.count)
    }
}
