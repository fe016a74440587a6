// Printed by tools/derive from message.rt.
ghost use Rattle.std.specs.Prelude.{◌≡◌, ◌<◌, ◌≤◌, ◌+◌, ◌^◌, length, codes, nat_eq};
ghost use Rattle.std.proofs.Common.{refl, rules};
ghost use Rattle.scroll.specs.Arrays.{MakesArray};
ghost use Rattle.scroll.specs.Errors.{IsBadInput};
ghost use Rattle.scroll.specs.Numbers.{number};
ghost use Rattle.scroll.specs.lemmas.Frames.{WritesPrefix-keeps};
ghost use Rattle.scroll_layouts.specs.Formats.{refuses};
ghost use Rattle.scroll_layouts.specs.Lists.{CountedItems};
ghost use Rattle.scroll_layouts.specs.Marks.{CountedMarked};
ghost use Rattle.scroll_layouts.specs.Wholes.{KeepsWhole, ReadsExact, WritesWhole};
ghost use Rattle.scroll_layouts.specs.declared.choice.Choice.TheVariants.{First, Second};
ghost use Rattle.scroll.specs.declared.endian.Endian.TheVariants as endian_is;

use super::{
    Address, Data, Header, Label, Labels, LongAddress, Mail, Message, Name, Question, Questions,
    Resource, Resources, Text, Texts,
};
use scroll::ctx::{Record, TryFromCtx, TryIntoCtx, Written};
use scroll::{BE, Endian, Error};
use scroll_layouts::Choice::{First, Second};
use scroll_layouts::{
    Choice, Choose, Count, EndMark, Field, Given, Head, Headed, IsList, Items, ListOf, ListPart,
    Listed, Low, Marked, NameEnd, Ordered, Packed, Part, ReadPart, Run, Shape, ToMark, Unmarked,
    Within, read_exact, write_whole,
};
use std::marker::PhantomData;
use std::result::Result;

type MessageHead = Header;

type MessageNext = (Count, Count);

#[derive(Drop)]
pub struct MessageSays;

impl Head<MessageHead, Error> for MessageSays {
    type Next = MessageNext;

    ghost holds = { λ _ h. Unit {0} };

    ghost fails = { λ _ h e. ⊥ };

    ghost next = { λ _ h. (
      record { 0 = h.questions },
      record { 0 = h.answers + h.authorities + h.additionals },
    ) };

    fn obey(&self, _head: &MessageHead) -> Result<(), Error> {
        Ok(())
    }

    fn next(&self, head: &MessageHead) -> MessageNext {
        (
            Count(head.questions as usize),
            Count(head.answers as usize + head.authorities as usize + head.additionals as usize),
        )
    }
}

type MessageParts<'a> = (
    MessageHead,
    (ListOf<'a, QuestionsPart<'a>>, ListOf<'a, ResourcesPart<'a>>),
);

type MessageCtx = Ordered<Headed<(), MessageNext, MessageSays>>;

// order = BE
// field      offset             size                                                             notes
// header     0                  that of `Header`
// questions  after `header`     header.questions values                                          ctx = Count(header.questions as usize)
// records    after `questions`  header.answers + header.authorities + header.additionals values  ctx = Count(header.answers as usize + header.authorities as usize + header.additionals as usize)
impl<'a> Shape for Message<'a> {
    type Ctx = ();

    type Inner = MessageCtx;

    type Parts = MessageParts<'a>;

    ghost parts_of = { λ x. (
      x.header,
      (
        record { 0 = record { 0 = x.questions }; 1 = record {} },
        record { 0 = record { 0 = x.records }; 1 = record {} },
      ),
    ) };

    ghost of_parts = { λ p. record { header = p.0; questions = p.1.0.0.0; records = p.1.1.0.0 } };

    ghost again = { λ x. refl };

    ghost there = { λ p. refl };

    ghost inner_of = { λ _. record {
      0 = endian_is.Big;
      1 = record { 0 = tt; 1 = record {}; 2 = record {} };
    } };

    fn split(&self) -> MessageParts<'a> {
        (
            self.header,
            (
                ListOf(QuestionsPart(self.questions), PhantomData),
                ListOf(ResourcesPart(self.records), PhantomData),
            ),
        )
    }

    fn join(parts: MessageParts<'a>) -> Message<'a> {
        let (header, (ListOf(QuestionsPart(questions), _), ListOf(ResourcesPart(records), _))) =
            parts;
        Message {
            header,
            questions,
            records,
        }
    }

    fn inner(_ctx: &()) -> MessageCtx
        ensures { result ≡ ⟦<Message<'a> as Shape>⟧.inner_of _ctx.now }
    {
        Ordered(BE, Headed((), MessageSays, PhantomData))
    }
}

impl<'a> TryFromCtx<'a, Endian> for Message<'a> {
    type Error = Error;

    ghost reads = { ReadsExact (⟦<Message<'a> as ReadPart<'a, (), Error>>⟧.format tt) };

    ghost refuses = { λ order s.
        refuses (⟦<Message<'a> as ReadPart<'a, (), Error>>⟧.format tt) order s 0 };

    ghost reads_bounded = { λ order s x n h. Prim.search rules };

    #[inline(always)]
    fn try_from_ctx(from: &'a [u8], ctx: Endian) -> Result<(Message<'a>, usize), Error> {
        read_exact::<(), Error, Message<'a>>(from, ctx, &())
    }
}

impl<'a> TryIntoCtx<Endian> for Message<'a> {
    type Error = Error;

    ghost writes = { WritesWhole (⟦<Message<'a> as Part<(), Error>>⟧.format tt) };

    ghost refuses = { KeepsWhole (λ e d. d ≡ e)
        (⟦<Message<'a> as Part<(), Error>>⟧.format tt) };

    ghost writes_bounded = { λ order x old new n h. Prim.search rules };

    ghost writes_keeps = { λ order x old new n h. WritesPrefix-keeps _ old new n h.wrote };

    #[inline(always)]
    fn try_into_ctx(self, dst: &mut [u8], ctx: Endian) -> Result<usize, Error> {
        write_whole::<(), Error, Message<'a>>(&self, dst, ctx, &())
    }
}

#[derive(Drop)]
pub struct QuestionsPart<'a>(pub Items<'a, Questions>);

impl<'a> ListPart<'a> for QuestionsPart<'a> {
    type Kind = Questions;

    ghost seen = { λ x. record { bytes = x.0.bytes.now; order = x.0.order; count = x.0.count } };

    #[inline(always)]
    fn of(bytes: &'a [u8], order: Endian, count: usize) -> QuestionsPart<'a> {
        QuestionsPart(Items::of(bytes, order, count))
    }

    #[inline(always)]
    fn parts(&self) -> (&'a [u8], Endian, usize) {
        (self.0.bytes, self.0.order, self.0.count)
    }
}

#[derive(Drop)]
pub struct ResourcesPart<'a>(pub Items<'a, Resources>);

impl<'a> ListPart<'a> for ResourcesPart<'a> {
    type Kind = Resources;

    ghost seen = { λ x. record { bytes = x.0.bytes.now; order = x.0.order; count = x.0.count } };

    #[inline(always)]
    fn of(bytes: &'a [u8], order: Endian, count: usize) -> ResourcesPart<'a> {
        ResourcesPart(Items::of(bytes, order, count))
    }

    #[inline(always)]
    fn parts(&self) -> (&'a [u8], Endian, usize) {
        (self.0.bytes, self.0.order, self.0.count)
    }
}

type HeaderParts = (
    Run<u16>,
    (
        (((((((u16, u16), u16), u16), u16), u16), u16), u16),
        Run<(u16, u16, u16, u16)>,
    ),
);

type HeaderCtx = (
    (),
    (
        Packed<u16, Low<u16, Low<u16, Low<u16, Low<u16, Low<u16, Low<u16, Low<u16, ()>>>>>>>>,
        (),
    ),
);

// field             offset  size
// id                0       2
// is_response       2       1 bit
// operation         2       4 bits
// is_authoritative  2       1 bit
// is_truncated      2       1 bit
// wants_recursion   2       1 bit
// has_recursion     2       1 bit
// reserved          2       3 bits
// code              2       4 bits
// questions         4       2
// answers           6       2
// authorities       8       2
// additionals       10      2
impl Shape for Header {
    type Ctx = ();

    type Inner = HeaderCtx;

    type Parts = HeaderParts;

    ghost parts_of = { λ x. (
      record { 0 = x.id },
      (
        (
          (
            (
              (
                (((x.is_response, x.operation), x.is_authoritative), x.is_truncated),
                x.wants_recursion,
              ),
              x.has_recursion,
            ),
            x.reserved,
          ),
          x.code,
        ),
        record { 0 = (x.questions, x.answers, x.authorities, x.additionals) },
      ),
    ) };

    ghost of_parts = { λ p. record {
      id = p.0.0;
      is_response = p.1.0.0.0.0.0.0.0.0;
      operation = p.1.0.0.0.0.0.0.0.1;
      is_authoritative = p.1.0.0.0.0.0.0.1;
      is_truncated = p.1.0.0.0.0.0.1;
      wants_recursion = p.1.0.0.0.0.1;
      has_recursion = p.1.0.0.0.1;
      reserved = p.1.0.0.1;
      code = p.1.0.1;
      questions = p.1.1.0.0;
      answers = p.1.1.0.1;
      authorities = p.1.1.0.2;
      additionals = p.1.1.0.3;
    } };

    ghost again = { λ x. refl };

    ghost there = { λ p. refl };

    ghost inner_of = { λ _. (
      tt,
      (
        record {
          0 = record {};
          1 = record {
            0 = 15;
            1 = record {
              0 = 7;
              1 = record {
                0 = 1;
                1 = record {
                  0 = 1;
                  1 = record { 0 = 1; 1 = record { 0 = 1; 1 = record { 0 = 15; 1 = tt } } };
                };
              };
            };
          };
        },
        tt,
      ),
    ) };

    fn split(&self) -> HeaderParts {
        let numbers = (
            self.questions,
            self.answers,
            self.authorities,
            self.additionals,
        );
        (
            Run(self.id),
            (
                (
                    (
                        (
                            (
                                (
                                    ((self.is_response, self.operation), self.is_authoritative),
                                    self.is_truncated,
                                ),
                                self.wants_recursion,
                            ),
                            self.has_recursion,
                        ),
                        self.reserved,
                    ),
                    self.code,
                ),
                Run(numbers),
            ),
        )
    }

    fn join(parts: HeaderParts) -> Header {
        let (
            Run(id),
            (
                (
                    (
                        (
                            (
                                (((is_response, operation), is_authoritative), is_truncated),
                                wants_recursion,
                            ),
                            has_recursion,
                        ),
                        reserved,
                    ),
                    code,
                ),
                Run(numbers),
            ),
        ) = parts;
        let (questions, answers, authorities, additionals) = numbers;
        Header {
            id,
            is_response,
            operation,
            is_authoritative,
            is_truncated,
            wants_recursion,
            has_recursion,
            reserved,
            code,
            questions,
            answers,
            authorities,
            additionals,
        }
    }

    fn inner(_ctx: &()) -> HeaderCtx
        ensures { result ≡ ⟦<Header as Shape>⟧.inner_of _ctx.now }
    {
        (
            (),
            (
                Packed(
                    PhantomData,
                    Low(15, Low(7, Low(1, Low(1, Low(1, Low(1, Low(15, ()))))))),
                ),
                (),
            ),
        )
    }
}

type NameParts<'a> = ListOf<'a, LabelsPart<'a>>;

type NameCtx = ToMark;

// field   offset  size            notes
// labels  0       up to its mark  ctx = ToMark
impl<'a> Shape for Name<'a> {
    type Ctx = ();

    type Inner = NameCtx;

    type Parts = NameParts<'a>;

    ghost parts_of = { λ x. record { 0 = record { 0 = x.labels }; 1 = record {} } };

    ghost of_parts = { λ p. record { labels = p.0.0 } };

    ghost again = { λ x. refl };

    ghost there = { λ p. refl };

    ghost inner_of = { λ _. record {} };

    fn split(&self) -> NameParts<'a> {
        ListOf(LabelsPart(self.labels), PhantomData)
    }

    fn join(parts: NameParts<'a>) -> Name<'a> {
        let ListOf(LabelsPart(labels), _) = parts;
        Name { labels }
    }

    fn inner(_ctx: &()) -> NameCtx
        ensures { result ≡ ⟦<Name<'a> as Shape>⟧.inner_of _ctx.now }
    {
        ToMark
    }
}

#[derive(Drop)]
pub struct LabelsPart<'a>(pub Items<'a, Labels>);

impl<'a> ListPart<'a> for LabelsPart<'a> {
    type Kind = Labels;

    ghost seen = { λ x. record { bytes = x.0.bytes.now; order = x.0.order; count = x.0.count } };

    #[inline(always)]
    fn of(bytes: &'a [u8], order: Endian, count: usize) -> LabelsPart<'a> {
        LabelsPart(Items::of(bytes, order, count))
    }

    #[inline(always)]
    fn parts(&self) -> (&'a [u8], Endian, usize) {
        (self.0.bytes, self.0.order, self.0.count)
    }
}

impl IsList for Labels {
    ghost is_list = { λ order s n. CountedMarked ⟦<NameEnd as EndMark>⟧.mark
        (⟦<Label<'static> as ReadPart<'static, (), Error>>⟧.format tt) order s (length s) n };
}

// values  end
// Label   the mark NameEnd
impl<'a> Listed<'a> for Labels {
    type Error = Error;

    type Item = Label<'a>;

    ghost item = { ⟦<Label<'a> as ReadPart<'a, (), Error>>⟧.format tt };

    #[inline(always)]
    fn read_item(
        from: &'a [u8],
        offset: usize,
        order: Endian,
    ) -> Result<(Label<'a>, usize), Error> {
        <Label<'a> as ReadPart<'a, (), Error>>::read_at(from, offset, order, &())
    }

    #[inline(always)]
    fn end_item(from: &'a [u8], offset: usize, order: Endian) -> Option<usize> {
        <Label<'a> as ReadPart<'a, (), Error>>::end_at(from, offset, order, &())
    }
}

impl<'a> Marked<'a> for Labels {
    type End = NameEnd;

    ghost from_values = { λ order s n h. h };

    ghost into_values = { λ order s n h. h };
}

type LabelHead = Run<u8>;

type LabelNext = usize;

#[derive(Drop)]
pub struct LabelSays;

impl Head<LabelHead, Error> for LabelSays {
    type Next = LabelNext;

    ghost holds = { λ _ h. (h.0 < 64) };

    ghost fails = { λ _ h e. (64 ≤ h.0) × IsBadInput e h.0 (codes "it is not so that len < 64") };

    ghost next = { λ _ h. h.0 };

    fn obey(&self, head: &LabelHead) -> Result<(), Error> {
        if head.0 > 63 {
            return Err(Error::BadInput {
                size: head.0 as usize,
                msg: "it is not so that len < 64",
            });
        }
        Ok(())
    }

    fn next(&self, head: &LabelHead) -> LabelNext {
        head.0 as usize
    }
}

type LabelParts<'a> = (LabelHead, &'a [u8]);

type LabelCtx = Headed<(), LabelNext, LabelSays>;

// field  offset  size  notes
// len    0       1     check = len < 64
// text   1       len   ctx = len as usize
impl<'a> Shape for Label<'a> {
    type Ctx = ();

    type Inner = LabelCtx;

    type Parts = LabelParts<'a>;

    ghost parts_of = { λ x. (record { 0 = x.len }, x.text) };

    ghost of_parts = { λ p. record { len = p.0.0; text = p.1 } };

    ghost again = { λ x. refl };

    ghost there = { λ p. refl };

    ghost inner_of = { λ _. record { 0 = tt; 1 = record {}; 2 = record {} } };

    fn split(&self) -> LabelParts<'a> {
        (Run(self.len), self.text)
    }

    fn join(parts: LabelParts<'a>) -> Label<'a> {
        let (Run(len), text) = parts;
        Label { len, text }
    }

    fn inner(_ctx: &()) -> LabelCtx
        ensures { result ≡ ⟦<Label<'a> as Shape>⟧.inner_of _ctx.now }
    {
        Headed((), LabelSays, PhantomData)
    }
}

impl IsList for Questions {
    ghost is_list = { λ order s n. CountedItems
        (⟦<Question<'static> as ReadPart<'static, (), Error>>⟧.format tt) order s 0 (length s) n };
}

// values    end
// Question  as its field says
impl<'a> Listed<'a> for Questions {
    type Error = Error;

    type Item = Question<'a>;

    ghost item = { ⟦<Question<'a> as ReadPart<'a, (), Error>>⟧.format tt };

    #[inline(always)]
    fn read_item(
        from: &'a [u8],
        offset: usize,
        order: Endian,
    ) -> Result<(Question<'a>, usize), Error> {
        <Question<'a> as ReadPart<'a, (), Error>>::read_at(from, offset, order, &())
    }

    #[inline(always)]
    fn end_item(from: &'a [u8], offset: usize, order: Endian) -> Option<usize> {
        <Question<'a> as ReadPart<'a, (), Error>>::end_at(from, offset, order, &())
    }
}

impl<'a> Unmarked<'a> for Questions {
    ghost from_values = { λ order s n h. h };

    ghost into_values = { λ order s n h. h };
}

type QuestionParts<'a> = (Name<'a>, Run<(u16, u16)>);

type QuestionCtx = ((), ());

// field  offset        size
// name   0             that of `Name<'a>`
// kind   after `name`  2
// class  after `kind`  2
impl<'a> Shape for Question<'a> {
    type Ctx = ();

    type Inner = QuestionCtx;

    type Parts = QuestionParts<'a>;

    ghost parts_of = { λ x. (x.name, record { 0 = (x.kind, x.class) }) };

    ghost of_parts = { λ p. record { name = p.0; kind = p.1.0.0; class = p.1.0.1 } };

    ghost again = { λ x. refl };

    ghost there = { λ p. refl };

    ghost inner_of = { λ _. (tt, tt) };

    fn split(&self) -> QuestionParts<'a> {
        (self.name, Run((self.kind, self.class)))
    }

    fn join(parts: QuestionParts<'a>) -> Question<'a> {
        let (name, Run((kind, class))) = parts;
        Question { name, kind, class }
    }

    fn inner(_ctx: &()) -> QuestionCtx
        ensures { result ≡ ⟦<Question<'a> as Shape>⟧.inner_of _ctx.now }
    {
        ((), ())
    }
}

impl<'a> TryFromCtx<'a, Endian> for Question<'a> {
    type Error = Error;

    ghost reads = { ReadsExact (⟦<Question<'a> as ReadPart<'a, (), Error>>⟧.format tt) };

    ghost refuses = { λ order s.
        refuses (⟦<Question<'a> as ReadPart<'a, (), Error>>⟧.format tt) order s 0 };

    ghost reads_bounded = { λ order s x n h. Prim.search rules };

    #[inline(always)]
    fn try_from_ctx(from: &'a [u8], ctx: Endian) -> Result<(Question<'a>, usize), Error> {
        read_exact::<(), Error, Question<'a>>(from, ctx, &())
    }
}

impl<'a> TryIntoCtx<Endian> for Question<'a> {
    type Error = Error;

    ghost writes = { WritesWhole (⟦<Question<'a> as Part<(), Error>>⟧.format tt) };

    ghost refuses = { KeepsWhole (λ e d. d ≡ e)
        (⟦<Question<'a> as Part<(), Error>>⟧.format tt) };

    ghost writes_bounded = { λ order x old new n h. Prim.search rules };

    ghost writes_keeps = { λ order x old new n h. WritesPrefix-keeps _ old new n h.wrote };

    #[inline(always)]
    fn try_into_ctx(self, dst: &mut [u8], ctx: Endian) -> Result<usize, Error> {
        write_whole::<(), Error, Question<'a>>(&self, dst, ctx, &())
    }
}

impl IsList for Resources {
    ghost is_list = { λ order s n. CountedItems
        (⟦<Resource<'static> as ReadPart<'static, (), Error>>⟧.format tt) order s 0 (length s) n };
}

// values    end
// Resource  as its field says
impl<'a> Listed<'a> for Resources {
    type Error = Error;

    type Item = Resource<'a>;

    ghost item = { ⟦<Resource<'a> as ReadPart<'a, (), Error>>⟧.format tt };

    #[inline(always)]
    fn read_item(
        from: &'a [u8],
        offset: usize,
        order: Endian,
    ) -> Result<(Resource<'a>, usize), Error> {
        <Resource<'a> as ReadPart<'a, (), Error>>::read_at(from, offset, order, &())
    }

    #[inline(always)]
    fn end_item(from: &'a [u8], offset: usize, order: Endian) -> Option<usize> {
        <Resource<'a> as ReadPart<'a, (), Error>>::end_at(from, offset, order, &())
    }
}

impl<'a> Unmarked<'a> for Resources {
    ghost from_values = { λ order s n h. h };

    ghost into_values = { λ order s n h. h };
}

type ResourceHead = Run<(u16, u16, u32, u16)>;

type ResourceNext = Given<(u16, usize)>;

#[derive(Drop)]
pub struct ResourceSays;

impl Head<ResourceHead, Error> for ResourceSays {
    type Next = ResourceNext;

    ghost holds = { λ _ h. Unit {0} };

    ghost fails = { λ _ h e. ⊥ };

    ghost next = { λ _ h. record { 0 = (h.0.0, h.0.3) } };

    fn obey(&self, _head: &ResourceHead) -> Result<(), Error> {
        Ok(())
    }

    fn next(&self, head: &ResourceHead) -> ResourceNext {
        Given((head.0.0, head.0.3 as usize))
    }
}

type ResourceRest<'a> = (ResourceHead, Data<'a>);

type ResourceParts<'a> = (Name<'a>, ResourceRest<'a>);

type ResourceCtx = ((), Headed<(), ResourceNext, ResourceSays>);

// field  offset         size                notes
// name   0              that of `Name<'a>`
// kind   after `name`   2
// class  after `kind`   2
// time   after `class`  4
// len    after `time`   2
// data   after `len`    that of `Data<'a>`  ctx = (kind, len as usize)
impl<'a> Shape for Resource<'a> {
    type Ctx = ();

    type Inner = ResourceCtx;

    type Parts = ResourceParts<'a>;

    ghost parts_of = { λ x. (x.name, (record { 0 = (x.kind, x.class, x.time, x.len) }, x.«data»)) };

    ghost of_parts = { λ p. record {
      name = p.0;
      kind = p.1.0.0.0;
      class = p.1.0.0.1;
      time = p.1.0.0.2;
      len = p.1.0.0.3;
      «data» = p.1.1;
    } };

    ghost again = { λ x. refl };

    ghost there = { λ p. refl };

    ghost inner_of = { λ _. (tt, record { 0 = tt; 1 = record {}; 2 = record {} }) };

    fn split(&self) -> ResourceParts<'a> {
        (
            self.name,
            (Run((self.kind, self.class, self.time, self.len)), self.data),
        )
    }

    fn join(parts: ResourceParts<'a>) -> Resource<'a> {
        let (name, (Run((kind, class, time, len)), data)) = parts;
        Resource {
            name,
            kind,
            class,
            time,
            len,
            data,
        }
    }

    fn inner(_ctx: &()) -> ResourceCtx
        ensures { result ≡ ⟦<Resource<'a> as Shape>⟧.inner_of _ctx.now }
    {
        ((), Headed((), ResourceSays, PhantomData))
    }
}

impl<'a> TryFromCtx<'a, Endian> for Resource<'a> {
    type Error = Error;

    ghost reads = { ReadsExact (⟦<Resource<'a> as ReadPart<'a, (), Error>>⟧.format tt) };

    ghost refuses = { λ order s.
        refuses (⟦<Resource<'a> as ReadPart<'a, (), Error>>⟧.format tt) order s 0 };

    ghost reads_bounded = { λ order s x n h. Prim.search rules };

    #[inline(always)]
    fn try_from_ctx(from: &'a [u8], ctx: Endian) -> Result<(Resource<'a>, usize), Error> {
        read_exact::<(), Error, Resource<'a>>(from, ctx, &())
    }
}

impl<'a> TryIntoCtx<Endian> for Resource<'a> {
    type Error = Error;

    ghost writes = { WritesWhole (⟦<Resource<'a> as Part<(), Error>>⟧.format tt) };

    ghost refuses = { KeepsWhole (λ e d. d ≡ e)
        (⟦<Resource<'a> as Part<(), Error>>⟧.format tt) };

    ghost writes_bounded = { λ order x old new n h. Prim.search rules };

    ghost writes_keeps = { λ order x old new n h. WritesPrefix-keeps _ old new n h.wrote };

    #[inline(always)]
    fn try_into_ctx(self, dst: &mut [u8], ctx: Endian) -> Result<usize, Error> {
        write_whole::<(), Error, Resource<'a>>(&self, dst, ctx, &())
    }
}

type DataParts<'a> = Choice<
    Run<Field<Address>>,
    Choice<
        Name<'a>,
        Choice<
            Name<'a>,
            Choice<
                Name<'a>,
                Choice<
                    Mail<'a>,
                    Choice<ListOf<'a, TextsPart<'a>>, Choice<Run<Field<LongAddress>>, &'a [u8]>>,
                >,
            >,
        >,
    >,
>;

type DataCtx = Choose<
    Within<()>,
    Choose<
        Within<()>,
        Choose<
            Within<()>,
            Choose<Within<()>, Choose<Within<()>, Choose<usize, Choose<Within<()>, usize>>>>,
        >,
    >,
>;

// given = (kind: u16, len: usize)
// variant      tag  values            notes
// Address      1    Address           within = len
// Server       2    Name<'a>          within = len
// Alias        5    Name<'a>          within = len
// Pointer      12   Name<'a>          within = len
// Mail         15   Mail<'a>          within = len
// Texts        16   Items<'a, Texts>  ctx = len
// LongAddress  28   LongAddress       within = len
// Other        _    &'a [u8]          ctx = len
impl<'a> Shape for Data<'a> {
    ghost use Rattle.dns.specs.declared.message.Data.TheVariants as data_is;

    type Ctx = (u16, usize);

    type Inner = DataCtx;

    type Parts = DataParts<'a>;

    ghost parts_of = { elim [
      | data_is.Address v0 ↦ First (record { 0 = record { 0 = v0 } })
      | data_is.Server v0 ↦ Second (First v0)
      | data_is.Alias v0 ↦ Second (Second (First v0))
      | data_is.Pointer v0 ↦ Second (Second (Second (First v0)))
      | data_is.Mail v0 ↦ Second (Second (Second (Second (First v0))))
      | data_is.Texts v0 ↦ Second (Second (Second (Second (Second (First (record { 0 = record { 0 = v0 }; 1 = record {} }))))))
      | data_is.LongAddress v0 ↦ Second (Second (Second (Second (Second (Second (First (record { 0 = record { 0 = v0 } })))))))
      | data_is.Other v0 ↦ Second (Second (Second (Second (Second (Second (Second v0))))))
    ] };

    ghost of_parts = { elim [
      | First p ↦ data_is.Address p.0.0
      | Second (First p) ↦ data_is.Server p
      | Second (Second (First p)) ↦ data_is.Alias p
      | Second (Second (Second (First p))) ↦ data_is.Pointer p
      | Second (Second (Second (Second (First p)))) ↦ data_is.Mail p
      | Second (Second (Second (Second (Second (First p))))) ↦ data_is.Texts p.0.0
      | Second (Second (Second (Second (Second (Second (First p)))))) ↦ data_is.LongAddress p.0.0
      | Second (Second (Second (Second (Second (Second (Second p)))))) ↦ data_is.Other p
    ] };

    ghost again = { elim [
      | data_is.Address v0 ↦ refl
      | data_is.Server v0 ↦ refl
      | data_is.Alias v0 ↦ refl
      | data_is.Pointer v0 ↦ refl
      | data_is.Mail v0 ↦ refl
      | data_is.Texts v0 ↦ refl
      | data_is.LongAddress v0 ↦ refl
      | data_is.Other v0 ↦ refl
    ] };

    ghost there = { elim [
      | First p ↦ refl
      | Second (First p) ↦ refl
      | Second (Second (First p)) ↦ refl
      | Second (Second (Second (First p))) ↦ refl
      | Second (Second (Second (Second (First p)))) ↦ refl
      | Second (Second (Second (Second (Second (First p))))) ↦ refl
      | Second (Second (Second (Second (Second (Second (First p)))))) ↦ refl
      | Second (Second (Second (Second (Second (Second (Second p)))))) ↦ refl
    ] };

    ghost inner_of = { λ t. record {
      0 = (nat_eq t.0 1);
      1 = record { 0 = t.1; 1 = tt };
      2 = record {
        0 = (nat_eq t.0 2);
        1 = record { 0 = t.1; 1 = tt };
        2 = record {
          0 = (nat_eq t.0 5);
          1 = record { 0 = t.1; 1 = tt };
          2 = record {
            0 = (nat_eq t.0 12);
            1 = record { 0 = t.1; 1 = tt };
            2 = record {
              0 = (nat_eq t.0 15);
              1 = record { 0 = t.1; 1 = tt };
              2 = record {
                0 = (nat_eq t.0 16);
                1 = t.1;
                2 = record { 0 = (nat_eq t.0 28); 1 = record { 0 = t.1; 1 = tt }; 2 = t.1 };
              };
            };
          };
        };
      };
    } };

    fn split(&self) -> DataParts<'a> {
        match self {
            Data::Address(v0) => First(Run(Field(*v0))),
            Data::Server(v0) => Second(First(*v0)),
            Data::Alias(v0) => Second(Second(First(*v0))),
            Data::Pointer(v0) => Second(Second(Second(First(*v0)))),
            Data::Mail(v0) => Second(Second(Second(Second(First(*v0))))),
            Data::Texts(v0) => Second(Second(Second(Second(Second(First(ListOf(
                TextsPart(*v0),
                PhantomData,
            ))))))),
            Data::LongAddress(v0) => Second(Second(Second(Second(Second(Second(First(Run(Field(
                *v0,
            ))))))))),
            Data::Other(v0) => Second(Second(Second(Second(Second(Second(Second(*v0))))))),
        }
    }

    fn join(parts: DataParts<'a>) -> Data<'a> {
        match parts {
            First(Run(Field(v0))) => Data::Address(v0),
            Second(First(v0)) => Data::Server(v0),
            Second(Second(First(v0))) => Data::Alias(v0),
            Second(Second(Second(First(v0)))) => Data::Pointer(v0),
            Second(Second(Second(Second(First(v0))))) => Data::Mail(v0),
            Second(Second(Second(Second(Second(First(ListOf(TextsPart(v0), _))))))) => Data::Texts(
                v0,
            ),
            Second(Second(Second(Second(Second(Second(First(Run(Field(v0))))))))) =>
                Data::LongAddress(v0),
            Second(Second(Second(Second(Second(Second(Second(v0))))))) => Data::Other(v0),
        }
    }

    fn inner(ctx: &(u16, usize)) -> DataCtx
        ensures { result ≡ ⟦<Data<'a> as Shape>⟧.inner_of ctx.now }
    {
        Choose(
            ctx.0 == 1,
            Within(ctx.1 as usize, ()),
            Choose(
                ctx.0 == 2,
                Within(ctx.1 as usize, ()),
                Choose(
                    ctx.0 == 5,
                    Within(ctx.1 as usize, ()),
                    Choose(
                        ctx.0 == 12,
                        Within(ctx.1 as usize, ()),
                        Choose(
                            ctx.0 == 15,
                            Within(ctx.1 as usize, ()),
                            Choose(
                                ctx.0 == 16,
                                ctx.1 as usize,
                                Choose(ctx.0 == 28, Within(ctx.1 as usize, ()), ctx.1 as usize),
                            ),
                        ),
                    ),
                ),
            ),
        )
    }
}

#[derive(Drop)]
pub struct TextsPart<'a>(pub Items<'a, Texts>);

impl<'a> ListPart<'a> for TextsPart<'a> {
    type Kind = Texts;

    ghost seen = { λ x. record { bytes = x.0.bytes.now; order = x.0.order; count = x.0.count } };

    #[inline(always)]
    fn of(bytes: &'a [u8], order: Endian, count: usize) -> TextsPart<'a> {
        TextsPart(Items::of(bytes, order, count))
    }

    #[inline(always)]
    fn parts(&self) -> (&'a [u8], Endian, usize) {
        (self.0.bytes, self.0.order, self.0.count)
    }
}

// field  offset  size
// bytes  0       4
impl Record for Address {
    type Parts = [u8; 4];

    ghost parts_of = { λ x. x.bytes };

    ghost of_parts = { λ p. record { bytes = p } };

    ghost fields_in = { λ order s x. (MakesArray 1 (λ s x. (x ≡ number order 1 s)) 4 s x.bytes) };

    ghost again = { λ x. refl };

    ghost there = { λ p. refl };

    ghost fields_of_parts = { λ order s x h. h };

    ghost parts_of_fields = { λ order s x h. h };

    ghost small = { Prim.search rules };

    fn parts(self) -> Self::Parts {
        self.bytes
    }

    fn of_parts(parts: Self::Parts) -> Address {
        Address { bytes: parts }
    }
}

impl<'a> Written for &'a Address {
    type Value = Address;

    ghost value_of = { λ x. x.now };

    #[inline(always)]
    fn value(self) -> Address {
        *self
    }
}

// field  offset  size
// bytes  0       16
impl Record for LongAddress {
    type Parts = [u8; 16];

    ghost parts_of = { λ x. x.bytes };

    ghost of_parts = { λ p. record { bytes = p } };

    ghost fields_in = { λ order s x. (MakesArray 1 (λ s x. (x ≡ number order 1 s)) 16 s x.bytes) };

    ghost again = { λ x. refl };

    ghost there = { λ p. refl };

    ghost fields_of_parts = { λ order s x h. h };

    ghost parts_of_fields = { λ order s x h. h };

    ghost small = { Prim.search rules };

    fn parts(self) -> Self::Parts {
        self.bytes
    }

    fn of_parts(parts: Self::Parts) -> LongAddress {
        LongAddress { bytes: parts }
    }
}

impl<'a> Written for &'a LongAddress {
    type Value = LongAddress;

    ghost value_of = { λ x. x.now };

    #[inline(always)]
    fn value(self) -> LongAddress {
        *self
    }
}

type MailParts<'a> = (Run<u16>, Name<'a>);

type MailCtx = ((), ());

// field       offset  size
// preference  0       2
// server      2       that of `Name<'a>`
impl<'a> Shape for Mail<'a> {
    type Ctx = ();

    type Inner = MailCtx;

    type Parts = MailParts<'a>;

    ghost parts_of = { λ x. (record { 0 = x.preference }, x.server) };

    ghost of_parts = { λ p. record { preference = p.0.0; server = p.1 } };

    ghost again = { λ x. refl };

    ghost there = { λ p. refl };

    ghost inner_of = { λ _. (tt, tt) };

    fn split(&self) -> MailParts<'a> {
        (Run(self.preference), self.server)
    }

    fn join(parts: MailParts<'a>) -> Mail<'a> {
        let (Run(preference), server) = parts;
        Mail { preference, server }
    }

    fn inner(_ctx: &()) -> MailCtx
        ensures { result ≡ ⟦<Mail<'a> as Shape>⟧.inner_of _ctx.now }
    {
        ((), ())
    }
}

impl IsList for Texts {
    ghost is_list = { λ order s n. CountedItems
        (⟦<Text<'static> as ReadPart<'static, (), Error>>⟧.format tt) order s 0 (length s) n };
}

// values  end
// Text    as its field says
impl<'a> Listed<'a> for Texts {
    type Error = Error;

    type Item = Text<'a>;

    ghost item = { ⟦<Text<'a> as ReadPart<'a, (), Error>>⟧.format tt };

    #[inline(always)]
    fn read_item(from: &'a [u8], offset: usize, order: Endian) -> Result<(Text<'a>, usize), Error> {
        <Text<'a> as ReadPart<'a, (), Error>>::read_at(from, offset, order, &())
    }

    #[inline(always)]
    fn end_item(from: &'a [u8], offset: usize, order: Endian) -> Option<usize> {
        <Text<'a> as ReadPart<'a, (), Error>>::end_at(from, offset, order, &())
    }
}

impl<'a> Unmarked<'a> for Texts {
    ghost from_values = { λ order s n h. h };

    ghost into_values = { λ order s n h. h };
}

type TextHead = Run<u8>;

type TextNext = usize;

#[derive(Drop)]
pub struct TextSays;

impl Head<TextHead, Error> for TextSays {
    type Next = TextNext;

    ghost holds = { λ _ h. Unit {0} };

    ghost fails = { λ _ h e. ⊥ };

    ghost next = { λ _ h. h.0 };

    fn obey(&self, _head: &TextHead) -> Result<(), Error> {
        Ok(())
    }

    fn next(&self, head: &TextHead) -> TextNext {
        head.0 as usize
    }
}

type TextParts<'a> = (TextHead, &'a [u8]);

type TextCtx = Headed<(), TextNext, TextSays>;

// field  offset  size  notes
// len    0       1
// text   1       len   ctx = len as usize
impl<'a> Shape for Text<'a> {
    type Ctx = ();

    type Inner = TextCtx;

    type Parts = TextParts<'a>;

    ghost parts_of = { λ x. (record { 0 = x.len }, x.text) };

    ghost of_parts = { λ p. record { len = p.0.0; text = p.1 } };

    ghost again = { λ x. refl };

    ghost there = { λ p. refl };

    ghost inner_of = { λ _. record { 0 = tt; 1 = record {}; 2 = record {} } };

    fn split(&self) -> TextParts<'a> {
        (Run(self.len), self.text)
    }

    fn join(parts: TextParts<'a>) -> Text<'a> {
        let (Run(len), text) = parts;
        Text { len, text }
    }

    fn inner(_ctx: &()) -> TextCtx
        ensures { result ≡ ⟦<Text<'a> as Shape>⟧.inner_of _ctx.now }
    {
        Headed((), TextSays, PhantomData)
    }
}
