// Printed by tools/derive from walk.rt.
ghost use Rattle.std.specs.Prelude.{◌≡◌, ◌<◌, ◌^◌, length, nat_eq, not, option_map};
ghost use Rattle.std.proofs.Common.{refl, rules};
ghost use Rattle.scroll.specs.lemmas.Frames.{WritesPrefix-keeps};
ghost use Rattle.scroll_layouts.specs.Formats.{refuses};
ghost use Rattle.scroll_layouts.specs.Lists.{CountedItems};
ghost use Rattle.scroll_layouts.specs.Wholes.{KeepsWhole, ReadsExact, WritesWhole};
ghost use Rattle.scroll_layouts.specs.lemmas.EqualLemmas.{option-again};
ghost use Rattle.scroll_layouts.specs.declared.items.ListOf.{ListOf};

use super::{CStr, FieldKind, Message, MessageField, Reply};
use crate::{
    Head, Headed, IsList, Items, ListOf, ListPart, Listed, Part, ReadPart, Run, Shape, Uleb,
    Unmarked, When, read_exact, write_whole,
};
use scroll::ctx::{TryFromCtx, TryIntoCtx};
use scroll::{Endian, Error};
use std::marker::PhantomData;
use std::result::Result;

type MessageFieldHead = Uleb;

type MessageFieldNext = usize;

#[derive(Drop)]
pub struct MessageFieldSays;

impl Head<MessageFieldHead, Error> for MessageFieldSays {
    type Next = MessageFieldNext;

    ghost holds = { λ _ h. Unit {0} };

    ghost fails = { λ _ h e. ⊥ };

    ghost next = { λ _ h. h.value };

    fn obey(&self, _head: &MessageFieldHead) -> Result<(), Error> {
        Ok(())
    }

    fn next(&self, head: &MessageFieldHead) -> MessageFieldNext {
        head.value as usize
    }
}

type MessageFieldRest<'a> = (MessageFieldHead, &'a [u8]);

type MessageFieldParts<'a> = (Run<u8>, MessageFieldRest<'a>);

type MessageFieldCtx = ((), Headed<(), MessageFieldNext, MessageFieldSays>);

// field   offset       size     notes
// number  0            1
// len     1            1 to 10
// data    after `len`  len      ctx = len as usize
impl<'a> Shape for MessageField<'a> {
    type Ctx = ();

    type Inner = MessageFieldCtx;

    type Parts = MessageFieldParts<'a>;

    ghost parts_of = { λ x. (record { 0 = x.number }, (x.len, x.«data»)) };

    ghost of_parts = { λ p. record { number = p.0.0; len = p.1.0; «data» = p.1.1 } };

    ghost again = { λ x. refl };

    ghost there = { λ p. refl };

    ghost inner_of = { λ _. (tt, record { 0 = tt; 1 = record {}; 2 = record {} }) };

    fn split(&self) -> MessageFieldParts<'a> {
        (Run(self.number), (self.len, self.data))
    }

    fn join(parts: MessageFieldParts<'a>) -> MessageField<'a> {
        let (Run(number), (len, data)) = parts;
        MessageField { number, len, data }
    }

    fn inner(_ctx: &()) -> MessageFieldCtx
        ensures { result ≡ ⟦<MessageField<'a> as Shape>⟧.inner_of _ctx.now }
    {
        ((), Headed((), MessageFieldSays, PhantomData))
    }
}

impl<'a> TryFromCtx<'a, Endian> for MessageField<'a> {
    type Error = Error;

    ghost reads = { ReadsExact (⟦<MessageField<'a> as ReadPart<'a, (), Error>>⟧.format tt) };

    ghost refuses = { λ order s.
        refuses (⟦<MessageField<'a> as ReadPart<'a, (), Error>>⟧.format tt) order s 0 };

    ghost reads_bounded = { λ order s x n h. Prim.search rules };

    #[inline(always)]
    fn try_from_ctx(from: &'a [u8], ctx: Endian) -> Result<(MessageField<'a>, usize), Error> {
        read_exact::<(), Error, MessageField<'a>>(from, ctx, &())
    }
}

impl<'a> TryIntoCtx<Endian> for MessageField<'a> {
    type Error = Error;

    ghost writes = { WritesWhole (⟦<MessageField<'a> as Part<(), Error>>⟧.format tt) };

    ghost refuses = { KeepsWhole (λ e d. d ≡ e)
        (⟦<MessageField<'a> as Part<(), Error>>⟧.format tt) };

    ghost writes_bounded = { λ order x old new n h. Prim.search rules };

    ghost writes_keeps = { λ order x old new n h. WritesPrefix-keeps _ old new n h.wrote };

    #[inline(always)]
    fn try_into_ctx(self, dst: &mut [u8], ctx: Endian) -> Result<usize, Error> {
        write_whole::<(), Error, MessageField<'a>>(&self, dst, ctx, &())
    }
}

impl IsList for FieldKind {
    ghost is_list = { λ order s n. CountedItems
        (⟦<MessageField<'static> as ReadPart<'static, (), Error>>⟧.format tt) order s 0 (length s) n };
}

// values        end
// MessageField  as its field says
impl<'a> Listed<'a> for FieldKind {
    type Error = Error;

    type Item = MessageField<'a>;

    ghost item = { ⟦<MessageField<'a> as ReadPart<'a, (), Error>>⟧.format tt };

    #[inline(always)]
    fn read_item(
        from: &'a [u8],
        offset: usize,
        order: Endian,
    ) -> Result<(MessageField<'a>, usize), Error> {
        <MessageField<'a> as ReadPart<'a, (), Error>>::read_at(from, offset, order, &())
    }

    #[inline(always)]
    fn end_item(from: &'a [u8], offset: usize, order: Endian) -> Option<usize> {
        <MessageField<'a> as ReadPart<'a, (), Error>>::end_at(from, offset, order, &())
    }
}

impl<'a> Unmarked<'a> for FieldKind {
    ghost from_values = { λ order s n h. h };

    ghost into_values = { λ order s n h. h };
}

type MessageHead = Run<u16>;

type MessageNext = ((), usize);

#[derive(Drop)]
pub struct MessageSays;

impl Head<MessageHead, Error> for MessageSays {
    type Next = MessageNext;

    ghost holds = { λ _ h. Unit {0} };

    ghost fails = { λ _ h e. ⊥ };

    ghost next = { λ _ h. (tt, h.0) };

    fn obey(&self, _head: &MessageHead) -> Result<(), Error> {
        Ok(())
    }

    fn next(&self, head: &MessageHead) -> MessageNext {
        ((), head.0 as usize)
    }
}

type MessageParts<'a> = (MessageHead, (CStr<'a>, ListOf<'a, FieldKindPart<'a>>));

type MessageCtx = Headed<(), MessageNext, MessageSays>;

// field   offset        size          notes
// size    0             2
// name    2             up to a zero
// fields  after `name`  size          ctx = size as usize
impl<'a> Shape for Message<'a> {
    type Ctx = ();

    type Inner = MessageCtx;

    type Parts = MessageParts<'a>;

    ghost parts_of = { λ x. (
      record { 0 = x.size },
      (x.name, record { 0 = record { 0 = x.fields }; 1 = record {} }),
    ) };

    ghost of_parts = { λ p. record { size = p.0.0; name = p.1.0; fields = p.1.1.0.0 } };

    ghost again = { λ x. refl };

    ghost there = { λ p. refl };

    ghost inner_of = { λ _. record { 0 = tt; 1 = record {}; 2 = record {} } };

    fn split(&self) -> MessageParts<'a> {
        (
            Run(self.size),
            (self.name, ListOf(FieldKindPart(self.fields), PhantomData)),
        )
    }

    fn join(parts: MessageParts<'a>) -> Message<'a> {
        let (Run(size), (name, ListOf(FieldKindPart(fields), _))) = parts;
        Message { size, name, fields }
    }

    fn inner(_ctx: &()) -> MessageCtx
        ensures { result ≡ ⟦<Message<'a> as Shape>⟧.inner_of _ctx.now }
    {
        Headed((), MessageSays, PhantomData)
    }
}

impl<'a> TryFromCtx<'a, Endian> for Message<'a> {
    type Error = Error;

    ghost reads = { ReadsExact (⟦<Message<'a> as ReadPart<'a, (), Error>>⟧.format tt) };

    ghost refuses = { λ order s.
        refuses (⟦<Message<'a> as ReadPart<'a, (), Error>>⟧.format tt) order s 0 };

    ghost reads_bounded = { λ order s x n h. Prim.search rules };

    #[inline(always)]
    fn try_from_ctx(from: &'a [u8], ctx: Endian) -> Result<(Message<'a>, usize), Error> {
        read_exact::<(), Error, Message<'a>>(from, ctx, &())
    }
}

impl<'a> TryIntoCtx<Endian> for Message<'a> {
    type Error = Error;

    ghost writes = { WritesWhole (⟦<Message<'a> as Part<(), Error>>⟧.format tt) };

    ghost refuses = { KeepsWhole (λ e d. d ≡ e)
        (⟦<Message<'a> as Part<(), Error>>⟧.format tt) };

    ghost writes_bounded = { λ order x old new n h. Prim.search rules };

    ghost writes_keeps = { λ order x old new n h. WritesPrefix-keeps _ old new n h.wrote };

    #[inline(always)]
    fn try_into_ctx(self, dst: &mut [u8], ctx: Endian) -> Result<usize, Error> {
        write_whole::<(), Error, Message<'a>>(&self, dst, ctx, &())
    }
}

#[derive(Drop)]
pub struct FieldKindPart<'a>(pub Items<'a, FieldKind>);

impl<'a> ListPart<'a> for FieldKindPart<'a> {
    type Kind = FieldKind;

    ghost seen = { λ x. record { bytes = x.0.bytes.now; order = x.0.order; count = x.0.count } };

    #[inline(always)]
    fn of(bytes: &'a [u8], order: Endian, count: usize) -> FieldKindPart<'a> {
        FieldKindPart(Items::of(bytes, order, count))
    }

    #[inline(always)]
    fn parts(&self) -> (&'a [u8], Endian, usize) {
        (self.0.bytes, self.0.order, self.0.count)
    }
}

type ReplyHead = Run<u16>;

type ReplyNext = When<usize>;

#[derive(Drop)]
pub struct ReplySays;

impl Head<ReplyHead, Error> for ReplySays {
    type Next = ReplyNext;

    ghost holds = { λ _ h. Unit {0} };

    ghost fails = { λ _ h e. ⊥ };

    ghost next = { λ _ h. record { 0 = (not (nat_eq h.0 0)); 1 = h.0 } };

    fn obey(&self, _head: &ReplyHead) -> Result<(), Error> {
        Ok(())
    }

    fn next(&self, head: &ReplyHead) -> ReplyNext {
        When(head.0 != 0, head.0 as usize)
    }
}

type ReplyParts<'a> = (ReplyHead, Option<ListOf<'a, FieldKindPart<'a>>>);

type ReplyCtx = Headed<(), ReplyNext, ReplySays>;

// field   offset  size        notes
// size    0       2
// fields  2       size, or 0  if = size != 0, ctx = size as usize
impl<'a> Shape for Reply<'a> {
    ghost use Rattle.scroll_layouts.specs.declared.tests.walk.derived.FieldKindPart.{FieldKindPart};

    type Ctx = ();

    type Inner = ReplyCtx;

    type Parts = ReplyParts<'a>;

    ghost parts_of = { λ x. (
      record { 0 = x.size },
      option_map {U = ListOf FieldKindPart}
          (λ v. record { 0 = record { 0 = v }; 1 = record {} }) x.fields,
    ) };

    ghost of_parts = { λ p. record { size = p.0.0; fields = option_map (λ v. v.0.0) p.1 } };

    ghost again = { λ x i. record {
      size = x.size;
      fields = option-again {B = ListOf FieldKindPart}
          (λ v. record { 0 = record { 0 = v }; 1 = record {} }) (λ v. v.0.0) (λ v. refl) x.fields i;
    } };

    ghost there = { λ p i. (
      record { 0 = p.0.0 },
      option-again {A = ListOf FieldKindPart} (λ v. v.0.0)
          (λ v. record { 0 = record { 0 = v }; 1 = record {} }) (λ v. refl) p.1 i,
    ) };

    ghost inner_of = { λ _. record { 0 = tt; 1 = record {}; 2 = record {} } };

    fn split(&self) -> ReplyParts<'a> {
        let fields = match self.fields {
            Some(list) => Some(ListOf(FieldKindPart(list), PhantomData)),
            None => None
        };
        (Run(self.size), fields)
    }

    fn join(parts: ReplyParts<'a>) -> Reply<'a> {
        let (Run(size), fields) = parts;
        let fields = match fields {
            Some(ListOf(FieldKindPart(list), _)) => Some(list),
            None => None
        };
        Reply { size, fields }
    }

    fn inner(_ctx: &()) -> ReplyCtx
        ensures { result ≡ ⟦<Reply<'a> as Shape>⟧.inner_of _ctx.now }
    {
        Headed((), ReplySays, PhantomData)
    }
}

impl<'a> TryFromCtx<'a, Endian> for Reply<'a> {
    type Error = Error;

    ghost reads = { ReadsExact (⟦<Reply<'a> as ReadPart<'a, (), Error>>⟧.format tt) };

    ghost refuses = { λ order s.
        refuses (⟦<Reply<'a> as ReadPart<'a, (), Error>>⟧.format tt) order s 0 };

    ghost reads_bounded = { λ order s x n h. Prim.search rules };

    #[inline(always)]
    fn try_from_ctx(from: &'a [u8], ctx: Endian) -> Result<(Reply<'a>, usize), Error> {
        read_exact::<(), Error, Reply<'a>>(from, ctx, &())
    }
}

impl<'a> TryIntoCtx<Endian> for Reply<'a> {
    type Error = Error;

    ghost writes = { WritesWhole (⟦<Reply<'a> as Part<(), Error>>⟧.format tt) };

    ghost refuses = { KeepsWhole (λ e d. d ≡ e)
        (⟦<Reply<'a> as Part<(), Error>>⟧.format tt) };

    ghost writes_bounded = { λ order x old new n h. Prim.search rules };

    ghost writes_keeps = { λ order x old new n h. WritesPrefix-keeps _ old new n h.wrote };

    #[inline(always)]
    fn try_into_ctx(self, dst: &mut [u8], ctx: Endian) -> Result<usize, Error> {
        write_whole::<(), Error, Reply<'a>>(&self, dst, ctx, &())
    }
}
