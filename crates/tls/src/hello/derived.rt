// Printed by tools/derive from hello.rt.
ghost use Rattle.std.specs.Prelude.{◌≡◌, ◌≢◌, ◌<◌, ◌≤◌, ◌/◌, ◌%◌, ◌^◌, length, codes, nat_eq};
ghost use Rattle.std.proofs.Common.{refl, rules};
ghost use Rattle.scroll.specs.Errors.{IsBadInput};
ghost use Rattle.scroll.specs.lemmas.Frames.{WritesPrefix-keeps};
ghost use Rattle.scroll_layouts.specs.Errors.{IsNot};
ghost use Rattle.scroll_layouts.specs.Formats.{refuses};
ghost use Rattle.scroll_layouts.specs.Lists.{CountedItems};
ghost use Rattle.scroll_layouts.specs.Wholes.{KeepsWhole, ReadsExact, WritesWhole};
ghost use Rattle.scroll_layouts.specs.declared.choice.Choice.TheVariants.{First, Second};
ghost use Rattle.scroll.specs.declared.endian.Endian.TheVariants as endian_is;

use super::{
    ClientHello, Extension, ExtensionBody, ExtensionList, Extensions, Handshake, HostName,
    LongList, Protocol, ProtocolList, Protocols, ServerNames, ShortList,
};
use scroll::ctx::{TryFromCtx, TryIntoCtx};
use scroll::{BE, Endian, Error};
use scroll_formats::Table;
use scroll_layouts::Choice::{First, Second};
use scroll_layouts::{
    Behind, Choice, Choose, Given, Head, Headed, IsList, Items, ListOf, ListPart, Listed, Ordered,
    Packed, Part, ReadPart, Run, Shape, U24, Unmarked, Within, is, read_exact, write_whole,
};
use std::marker::PhantomData;
use std::result::Result;

type HandshakeHead2 = u32;

type HandshakeNext2 = Given<usize>;

#[derive(Drop)]
pub struct HandshakeSays2;

impl Head<HandshakeHead2, Error> for HandshakeSays2 {
    type Next = HandshakeNext2;

    ghost holds = { λ _ h. Unit {0} };

    ghost fails = { λ _ h e. ⊥ };

    ghost next = { λ _ h. record { 0 = h } };

    fn obey(&self, _head: &HandshakeHead2) -> Result<(), Error> {
        Ok(())
    }

    fn next(&self, head: &HandshakeHead2) -> HandshakeNext2 {
        Given((*head) as usize)
    }
}

type HandshakeRest2<'a> = (HandshakeHead2, ClientHello<'a>);

type HandshakeHead = Run<u8>;

type HandshakeNext = Headed<Packed<U24, ()>, HandshakeNext2, HandshakeSays2>;

#[derive(Drop)]
pub struct HandshakeSays;

impl Head<HandshakeHead, Error> for HandshakeSays {
    type Next = HandshakeNext;

    ghost holds = { λ _ h. (h.0 ≡ 1) };

    ghost fails = { λ _ h e. IsNot 1 h.0 (codes "kind is not 1") e };

    ghost next = { λ _ h. record {
      0 = record { 0 = record {}; 1 = tt };
      1 = record {};
      2 = record {};
    } };

    fn obey(&self, head: &HandshakeHead) -> Result<(), Error> {
        is(head.0 as usize, 1, "kind is not 1")?;
        Ok(())
    }

    fn next(&self, _head: &HandshakeHead) -> HandshakeNext {
        Headed(Packed(PhantomData, ()), HandshakeSays2, PhantomData)
    }
}

type HandshakeParts<'a> = (HandshakeHead, HandshakeRest2<'a>);

type HandshakeCtx = Ordered<Headed<(), HandshakeNext, HandshakeSays>>;

// order = BE
// field  offset  size                       notes
// kind   0       1                          is = 1
// len    1       24 bits
// hello  4       that of `ClientHello<'a>`  ctx = len as usize
impl<'a> Shape for Handshake<'a> {
    type Ctx = ();

    type Inner = HandshakeCtx;

    type Parts = HandshakeParts<'a>;

    ghost parts_of = { λ x. (record { 0 = x.kind }, (x.len, x.hello)) };

    ghost of_parts = { λ p. record { kind = p.0.0; len = p.1.0; hello = p.1.1 } };

    ghost again = { λ x. refl };

    ghost there = { λ p. refl };

    ghost inner_of = { λ _. record {
      0 = endian_is.Big;
      1 = record { 0 = tt; 1 = record {}; 2 = record {} };
    } };

    fn split(&self) -> HandshakeParts<'a> {
        (Run(self.kind), (self.len, self.hello))
    }

    fn join(parts: HandshakeParts<'a>) -> Handshake<'a> {
        let (Run(kind), (len, hello)) = parts;
        Handshake { kind, len, hello }
    }

    fn inner(_ctx: &()) -> HandshakeCtx
        ensures { result ≡ ⟦<Handshake<'a> as Shape>⟧.inner_of _ctx.now }
    {
        Ordered(BE, Headed((), HandshakeSays, PhantomData))
    }
}

impl<'a> TryFromCtx<'a, Endian> for Handshake<'a> {
    type Error = Error;

    ghost reads = { ReadsExact (⟦<Handshake<'a> as ReadPart<'a, (), Error>>⟧.format tt) };

    ghost refuses = { λ order s.
        refuses (⟦<Handshake<'a> as ReadPart<'a, (), Error>>⟧.format tt) order s 0 };

    ghost reads_bounded = { λ order s x n h. Prim.search rules };

    #[inline(always)]
    fn try_from_ctx(from: &'a [u8], ctx: Endian) -> Result<(Handshake<'a>, usize), Error> {
        read_exact::<(), Error, Handshake<'a>>(from, ctx, &())
    }
}

impl<'a> TryIntoCtx<Endian> for Handshake<'a> {
    type Error = Error;

    ghost writes = { WritesWhole (⟦<Handshake<'a> as Part<(), Error>>⟧.format tt) };

    ghost refuses = { KeepsWhole (λ e d. d ≡ e)
        (⟦<Handshake<'a> as Part<(), Error>>⟧.format tt) };

    ghost writes_bounded = { λ order x old new n h. Prim.search rules };

    ghost writes_keeps = { λ order x old new n h. WritesPrefix-keeps _ old new n h.wrote };

    #[inline(always)]
    fn try_into_ctx(self, dst: &mut [u8], ctx: Endian) -> Result<usize, Error> {
        write_whole::<(), Error, Handshake<'a>>(&self, dst, ctx, &())
    }
}

type ClientHelloHead3 = Run<u8>;

type ClientHelloNext3 = usize;

#[derive(Drop)]
pub struct ClientHelloSays3;

impl Head<ClientHelloHead3, Error> for ClientHelloSays3 {
    type Next = ClientHelloNext3;

    ghost holds = { λ _ h. Unit {0} };

    ghost fails = { λ _ h e. ⊥ };

    ghost next = { λ _ h. h.0 };

    fn obey(&self, _head: &ClientHelloHead3) -> Result<(), Error> {
        Ok(())
    }

    fn next(&self, head: &ClientHelloHead3) -> ClientHelloNext3 {
        head.0 as usize
    }
}

type ClientHelloRest3<'a> = (ClientHelloHead3, &'a [u8]);

type ClientHelloHead2 = Run<u16>;

type ClientHelloNext2 = (usize, Headed<(), ClientHelloNext3, ClientHelloSays3>);

#[derive(Drop)]
pub struct ClientHelloSays2;

impl Head<ClientHelloHead2, Error> for ClientHelloSays2 {
    type Next = ClientHelloNext2;

    ghost holds = { λ _ h. (h.0 % 2 ≡ 0) };

    ghost fails = { λ _ h e. (h.0 % 2 ≢ 0) × IsBadInput e h.0
        (codes "suites_len is no multiple of 2") };

    ghost next = { λ _ h. (h.0 / 2, record { 0 = tt; 1 = record {}; 2 = record {} }) };

    fn obey(&self, head: &ClientHelloHead2) -> Result<(), Error> {
        if head.0 % 2 != 0 {
            return Err(Error::BadInput {
                size: head.0 as usize,
                msg: "suites_len is no multiple of 2",
            });
        }
        Ok(())
    }

    fn next(&self, head: &ClientHelloHead2) -> ClientHelloNext2 {
        (
            head.0 as usize / 2,
            Headed((), ClientHelloSays3, PhantomData),
        )
    }
}

type ClientHelloRest2<'a> = (ClientHelloHead2, (Table<'a, u16>, ClientHelloRest3<'a>));

type ClientHelloHead = Run<(u16, [u8; 32], u8)>;

type ClientHelloNext = (usize, Headed<(), ClientHelloNext2, ClientHelloSays2>);

#[derive(Drop)]
pub struct ClientHelloSays;

impl Head<ClientHelloHead, Error> for ClientHelloSays {
    type Next = ClientHelloNext;

    ghost holds = { λ _ h. (h.0.2 ≤ 32) };

    ghost fails = { λ _ h e. (32 < h.0.2) × IsBadInput e h.0.2
        (codes "it is not so that session_len <= 32") };

    ghost next = { λ _ h. (h.0.2, record { 0 = tt; 1 = record {}; 2 = record {} }) };

    fn obey(&self, head: &ClientHelloHead) -> Result<(), Error> {
        if head.0.2 > 32 {
            return Err(Error::BadInput {
                size: head.0.2 as usize,
                msg: "it is not so that session_len <= 32",
            });
        }
        Ok(())
    }

    fn next(&self, head: &ClientHelloHead) -> ClientHelloNext {
        (head.0.2 as usize, Headed((), ClientHelloSays2, PhantomData))
    }
}

type ClientHelloBefore<'a> = (ClientHelloHead, (&'a [u8], ClientHelloRest2<'a>));

type ClientHelloParts<'a> = (ClientHelloBefore<'a>, Option<ExtensionList<'a>>);

type ClientHelloCtx = Behind<Headed<(), ClientHelloNext, ClientHelloSays>>;

// given = len: usize
// field             offset                    size                     notes
// version           0                         2
// random            2                         32
// session_len       34                        1                        check = session_len <= 32
// session           35                        session_len              ctx = session_len as usize
// suites_len        after `session`           2
// suites            after `suites_len`        suites_len / 2 elements  ctx = suites_len as usize / 2
// compressions_len  after `suites`            1
// compressions      after `compressions_len`  compressions_len         ctx = compressions_len as usize
// extensions        after `compressions`      the rest, or 0           if = rest
impl<'a> Shape for ClientHello<'a> {
    type Ctx = usize;

    type Inner = ClientHelloCtx;

    type Parts = ClientHelloParts<'a>;

    ghost parts_of = { λ x. (
      (
        record { 0 = (x.version, x.random, x.session_len) },
        (
          x.session,
          (
            record { 0 = x.suites_len },
            (x.suites, (record { 0 = x.compressions_len }, x.compressions)),
          ),
        ),
      ),
      x.extensions,
    ) };

    ghost of_parts = { λ p. record {
      version = p.0.0.0.0;
      random = p.0.0.0.1;
      session_len = p.0.0.0.2;
      session = p.0.1.0;
      suites_len = p.0.1.1.0.0;
      suites = p.0.1.1.1.0;
      compressions_len = p.0.1.1.1.1.0.0;
      compressions = p.0.1.1.1.1.1;
      extensions = p.1;
    } };

    ghost again = { λ x. refl };

    ghost there = { λ p. refl };

    ghost inner_of = { λ n. record { 0 = n; 1 = record { 0 = tt; 1 = record {}; 2 = record {} } } };

    fn split(&self) -> ClientHelloParts<'a> {
        let numbers = (self.version, self.random, self.session_len);
        (
            (
                Run(numbers),
                (
                    self.session,
                    (
                        Run(self.suites_len),
                        (self.suites, (Run(self.compressions_len), self.compressions)),
                    ),
                ),
            ),
            self.extensions,
        )
    }

    fn join(parts: ClientHelloParts<'a>) -> ClientHello<'a> {
        let (
            (
                Run(numbers),
                (session, (Run(suites_len), (suites, (Run(compressions_len), compressions)))),
            ),
            extensions,
        ) = parts;
        let (version, random, session_len) = numbers;
        ClientHello {
            version,
            random,
            session_len,
            session,
            suites_len,
            suites,
            compressions_len,
            compressions,
            extensions,
        }
    }

    fn inner(ctx: &usize) -> ClientHelloCtx
        ensures { result ≡ ⟦<ClientHello<'a> as Shape>⟧.inner_of ctx.now }
    {
        Behind((*ctx), Headed((), ClientHelloSays, PhantomData))
    }
}

type ExtensionListHead = Run<u16>;

type ExtensionListNext = usize;

#[derive(Drop)]
pub struct ExtensionListSays;

impl Head<ExtensionListHead, Error> for ExtensionListSays {
    type Next = ExtensionListNext;

    ghost holds = { λ _ h. Unit {0} };

    ghost fails = { λ _ h e. ⊥ };

    ghost next = { λ _ h. h.0 };

    fn obey(&self, _head: &ExtensionListHead) -> Result<(), Error> {
        Ok(())
    }

    fn next(&self, head: &ExtensionListHead) -> ExtensionListNext {
        head.0 as usize
    }
}

type ExtensionListParts<'a> = (ExtensionListHead, ListOf<'a, ExtensionsPart<'a>>);

type ExtensionListCtx = Headed<(), ExtensionListNext, ExtensionListSays>;

// field  offset  size  notes
// len    0       2
// each   2       len   ctx = len as usize
impl<'a> Shape for ExtensionList<'a> {
    type Ctx = ();

    type Inner = ExtensionListCtx;

    type Parts = ExtensionListParts<'a>;

    ghost parts_of = { λ x. (
      record { 0 = x.len },
      record { 0 = record { 0 = x.each }; 1 = record {} },
    ) };

    ghost of_parts = { λ p. record { len = p.0.0; each = p.1.0.0 } };

    ghost again = { λ x. refl };

    ghost there = { λ p. refl };

    ghost inner_of = { λ _. record { 0 = tt; 1 = record {}; 2 = record {} } };

    fn split(&self) -> ExtensionListParts<'a> {
        (
            Run(self.len),
            ListOf(ExtensionsPart(self.each), PhantomData),
        )
    }

    fn join(parts: ExtensionListParts<'a>) -> ExtensionList<'a> {
        let (Run(len), ListOf(ExtensionsPart(each), _)) = parts;
        ExtensionList { len, each }
    }

    fn inner(_ctx: &()) -> ExtensionListCtx
        ensures { result ≡ ⟦<ExtensionList<'a> as Shape>⟧.inner_of _ctx.now }
    {
        Headed((), ExtensionListSays, PhantomData)
    }
}

#[derive(Drop)]
pub struct ExtensionsPart<'a>(pub Items<'a, Extensions>);

impl<'a> ListPart<'a> for ExtensionsPart<'a> {
    type Kind = Extensions;

    ghost seen = { λ x. record { bytes = x.0.bytes.now; order = x.0.order; count = x.0.count } };

    #[inline(always)]
    fn of(bytes: &'a [u8], order: Endian, count: usize) -> ExtensionsPart<'a> {
        ExtensionsPart(Items::of(bytes, order, count))
    }

    #[inline(always)]
    fn parts(&self) -> (&'a [u8], Endian, usize) {
        (self.0.bytes, self.0.order, self.0.count)
    }
}

impl IsList for Extensions {
    ghost is_list = { λ order s n. CountedItems
        (⟦<Extension<'static> as ReadPart<'static, (), Error>>⟧.format tt) order s 0 (length s) n };
}

// values     end
// Extension  as its field says
impl<'a> Listed<'a> for Extensions {
    type Error = Error;

    type Item = Extension<'a>;

    ghost item = { ⟦<Extension<'a> as ReadPart<'a, (), Error>>⟧.format tt };

    #[inline(always)]
    fn read_item(
        from: &'a [u8],
        offset: usize,
        order: Endian,
    ) -> Result<(Extension<'a>, usize), Error> {
        <Extension<'a> as ReadPart<'a, (), Error>>::read_at(from, offset, order, &())
    }

    #[inline(always)]
    fn end_item(from: &'a [u8], offset: usize, order: Endian) -> Option<usize> {
        <Extension<'a> as ReadPart<'a, (), Error>>::end_at(from, offset, order, &())
    }
}

impl<'a> Unmarked<'a> for Extensions {
    ghost from_values = { λ order s n h. h };

    ghost into_values = { λ order s n h. h };
}

type ExtensionHead = Run<(u16, u16)>;

type ExtensionNext = Given<(u16, usize)>;

#[derive(Drop)]
pub struct ExtensionSays;

impl Head<ExtensionHead, Error> for ExtensionSays {
    type Next = ExtensionNext;

    ghost holds = { λ _ h. Unit {0} };

    ghost fails = { λ _ h e. ⊥ };

    ghost next = { λ _ h. record { 0 = (h.0.0, h.0.1) } };

    fn obey(&self, _head: &ExtensionHead) -> Result<(), Error> {
        Ok(())
    }

    fn next(&self, head: &ExtensionHead) -> ExtensionNext {
        Given((head.0.0, head.0.1 as usize))
    }
}

type ExtensionParts<'a> = (ExtensionHead, ExtensionBody<'a>);

type ExtensionCtx = Headed<(), ExtensionNext, ExtensionSays>;

// field  offset  size                         notes
// kind   0       2
// len    2       2
// body   4       that of `ExtensionBody<'a>`  ctx = (kind, len as usize)
impl<'a> Shape for Extension<'a> {
    type Ctx = ();

    type Inner = ExtensionCtx;

    type Parts = ExtensionParts<'a>;

    ghost parts_of = { λ x. (record { 0 = (x.kind, x.len) }, x.body) };

    ghost of_parts = { λ p. record { kind = p.0.0.0; len = p.0.0.1; body = p.1 } };

    ghost again = { λ x. refl };

    ghost there = { λ p. refl };

    ghost inner_of = { λ _. record { 0 = tt; 1 = record {}; 2 = record {} } };

    fn split(&self) -> ExtensionParts<'a> {
        (Run((self.kind, self.len)), self.body)
    }

    fn join(parts: ExtensionParts<'a>) -> Extension<'a> {
        let (Run((kind, len)), body) = parts;
        Extension { kind, len, body }
    }

    fn inner(_ctx: &()) -> ExtensionCtx
        ensures { result ≡ ⟦<Extension<'a> as Shape>⟧.inner_of _ctx.now }
    {
        Headed((), ExtensionSays, PhantomData)
    }
}

impl<'a> TryFromCtx<'a, Endian> for Extension<'a> {
    type Error = Error;

    ghost reads = { ReadsExact (⟦<Extension<'a> as ReadPart<'a, (), Error>>⟧.format tt) };

    ghost refuses = { λ order s.
        refuses (⟦<Extension<'a> as ReadPart<'a, (), Error>>⟧.format tt) order s 0 };

    ghost reads_bounded = { λ order s x n h. Prim.search rules };

    #[inline(always)]
    fn try_from_ctx(from: &'a [u8], ctx: Endian) -> Result<(Extension<'a>, usize), Error> {
        read_exact::<(), Error, Extension<'a>>(from, ctx, &())
    }
}

impl<'a> TryIntoCtx<Endian> for Extension<'a> {
    type Error = Error;

    ghost writes = { WritesWhole (⟦<Extension<'a> as Part<(), Error>>⟧.format tt) };

    ghost refuses = { KeepsWhole (λ e d. d ≡ e)
        (⟦<Extension<'a> as Part<(), Error>>⟧.format tt) };

    ghost writes_bounded = { λ order x old new n h. Prim.search rules };

    ghost writes_keeps = { λ order x old new n h. WritesPrefix-keeps _ old new n h.wrote };

    #[inline(always)]
    fn try_into_ctx(self, dst: &mut [u8], ctx: Endian) -> Result<usize, Error> {
        write_whole::<(), Error, Extension<'a>>(&self, dst, ctx, &())
    }
}

type ExtensionBodyParts<'a> = Choice<
    ServerNames<'a>,
    Choice<LongList<'a>, Choice<ProtocolList<'a>, Choice<ShortList<'a>, &'a [u8]>>>,
>;

type ExtensionBodyCtx = Choose<
    Within<()>,
    Choose<Within<()>, Choose<Within<()>, Choose<Within<()>, usize>>>,
>;

// given = (kind: u16, len: usize)
// variant    tag  values            notes
// Server     0    ServerNames<'a>   within = len
// Groups     10   LongList<'a>      within = len
// Protocols  16   ProtocolList<'a>  within = len
// Versions   43   ShortList<'a>     within = len
// Other      _    &'a [u8]          ctx = len
impl<'a> Shape for ExtensionBody<'a> {
    ghost use Rattle.tls.specs.declared.hello.ExtensionBody.TheVariants as extension_body_is;

    type Ctx = (u16, usize);

    type Inner = ExtensionBodyCtx;

    type Parts = ExtensionBodyParts<'a>;

    ghost parts_of = { elim [
      | extension_body_is.Server v0 ↦ First v0
      | extension_body_is.Groups v0 ↦ Second (First v0)
      | extension_body_is.Protocols v0 ↦ Second (Second (First v0))
      | extension_body_is.Versions v0 ↦ Second (Second (Second (First v0)))
      | extension_body_is.Other v0 ↦ Second (Second (Second (Second v0)))
    ] };

    ghost of_parts = { elim [
      | First p ↦ extension_body_is.Server p
      | Second (First p) ↦ extension_body_is.Groups p
      | Second (Second (First p)) ↦ extension_body_is.Protocols p
      | Second (Second (Second (First p))) ↦ extension_body_is.Versions p
      | Second (Second (Second (Second p))) ↦ extension_body_is.Other p
    ] };

    ghost again = { elim [
      | extension_body_is.Server v0 ↦ refl
      | extension_body_is.Groups v0 ↦ refl
      | extension_body_is.Protocols v0 ↦ refl
      | extension_body_is.Versions v0 ↦ refl
      | extension_body_is.Other v0 ↦ refl
    ] };

    ghost there = { elim [
      | First p ↦ refl
      | Second (First p) ↦ refl
      | Second (Second (First p)) ↦ refl
      | Second (Second (Second (First p))) ↦ refl
      | Second (Second (Second (Second p))) ↦ refl
    ] };

    ghost inner_of = { λ t. record {
      0 = (nat_eq t.0 0);
      1 = record { 0 = t.1; 1 = tt };
      2 = record {
        0 = (nat_eq t.0 10);
        1 = record { 0 = t.1; 1 = tt };
        2 = record {
          0 = (nat_eq t.0 16);
          1 = record { 0 = t.1; 1 = tt };
          2 = record { 0 = (nat_eq t.0 43); 1 = record { 0 = t.1; 1 = tt }; 2 = t.1 };
        };
      };
    } };

    fn split(&self) -> ExtensionBodyParts<'a> {
        match self {
            ExtensionBody::Server(v0) => First(*v0),
            ExtensionBody::Groups(v0) => Second(First(*v0)),
            ExtensionBody::Protocols(v0) => Second(Second(First(*v0))),
            ExtensionBody::Versions(v0) => Second(Second(Second(First(*v0)))),
            ExtensionBody::Other(v0) => Second(Second(Second(Second(*v0)))),
        }
    }

    fn join(parts: ExtensionBodyParts<'a>) -> ExtensionBody<'a> {
        match parts {
            First(v0) => ExtensionBody::Server(v0),
            Second(First(v0)) => ExtensionBody::Groups(v0),
            Second(Second(First(v0))) => ExtensionBody::Protocols(v0),
            Second(Second(Second(First(v0)))) => ExtensionBody::Versions(v0),
            Second(Second(Second(Second(v0)))) => ExtensionBody::Other(v0),
        }
    }

    fn inner(ctx: &(u16, usize)) -> ExtensionBodyCtx
        ensures { result ≡ ⟦<ExtensionBody<'a> as Shape>⟧.inner_of ctx.now }
    {
        Choose(
            ctx.0 == 0,
            Within(ctx.1 as usize, ()),
            Choose(
                ctx.0 == 10,
                Within(ctx.1 as usize, ()),
                Choose(
                    ctx.0 == 16,
                    Within(ctx.1 as usize, ()),
                    Choose(ctx.0 == 43, Within(ctx.1 as usize, ()), ctx.1 as usize),
                ),
            ),
        )
    }
}

type ServerNamesHead = Run<u16>;

type ServerNamesNext = Within<()>;

#[derive(Drop)]
pub struct ServerNamesSays;

impl Head<ServerNamesHead, Error> for ServerNamesSays {
    type Next = ServerNamesNext;

    ghost holds = { λ _ h. Unit {0} };

    ghost fails = { λ _ h e. ⊥ };

    ghost next = { λ _ h. record { 0 = h.0; 1 = tt } };

    fn obey(&self, _head: &ServerNamesHead) -> Result<(), Error> {
        Ok(())
    }

    fn next(&self, head: &ServerNamesHead) -> ServerNamesNext {
        Within(head.0 as usize, ())
    }
}

type ServerNamesParts<'a> = (ServerNamesHead, HostName<'a>);

type ServerNamesCtx = Headed<(), ServerNamesNext, ServerNamesSays>;

// field  offset  size  notes
// len    0       2
// host   2       len   within = len as usize
impl<'a> Shape for ServerNames<'a> {
    type Ctx = ();

    type Inner = ServerNamesCtx;

    type Parts = ServerNamesParts<'a>;

    ghost parts_of = { λ x. (record { 0 = x.len }, x.host) };

    ghost of_parts = { λ p. record { len = p.0.0; host = p.1 } };

    ghost again = { λ x. refl };

    ghost there = { λ p. refl };

    ghost inner_of = { λ _. record { 0 = tt; 1 = record {}; 2 = record {} } };

    fn split(&self) -> ServerNamesParts<'a> {
        (Run(self.len), self.host)
    }

    fn join(parts: ServerNamesParts<'a>) -> ServerNames<'a> {
        let (Run(len), host) = parts;
        ServerNames { len, host }
    }

    fn inner(_ctx: &()) -> ServerNamesCtx
        ensures { result ≡ ⟦<ServerNames<'a> as Shape>⟧.inner_of _ctx.now }
    {
        Headed((), ServerNamesSays, PhantomData)
    }
}

type HostNameHead = Run<(u8, u16)>;

type HostNameNext = usize;

#[derive(Drop)]
pub struct HostNameSays;

impl Head<HostNameHead, Error> for HostNameSays {
    type Next = HostNameNext;

    ghost holds = { λ _ h. (h.0.0 ≡ 0) };

    ghost fails = { λ _ h e. IsNot 0 h.0.0 (codes "kind is not 0") e };

    ghost next = { λ _ h. h.0.1 };

    fn obey(&self, head: &HostNameHead) -> Result<(), Error> {
        is(head.0.0 as usize, 0, "kind is not 0")?;
        Ok(())
    }

    fn next(&self, head: &HostNameHead) -> HostNameNext {
        head.0.1 as usize
    }
}

type HostNameParts<'a> = (HostNameHead, &'a str);

type HostNameCtx = Headed<(), HostNameNext, HostNameSays>;

// field  offset  size  notes
// kind   0       1     is = 0
// len    1       2
// name   3       len   ctx = StrCtx::Length(len as usize)
impl<'a> Shape for HostName<'a> {
    type Ctx = ();

    type Inner = HostNameCtx;

    type Parts = HostNameParts<'a>;

    ghost parts_of = { λ x. (record { 0 = (x.kind, x.len) }, x.name) };

    ghost of_parts = { λ p. record { kind = p.0.0.0; len = p.0.0.1; name = p.1 } };

    ghost again = { λ x. refl };

    ghost there = { λ p. refl };

    ghost inner_of = { λ _. record { 0 = tt; 1 = record {}; 2 = record {} } };

    fn split(&self) -> HostNameParts<'a> {
        (Run((self.kind, self.len)), self.name)
    }

    fn join(parts: HostNameParts<'a>) -> HostName<'a> {
        let (Run((kind, len)), name) = parts;
        HostName { kind, len, name }
    }

    fn inner(_ctx: &()) -> HostNameCtx
        ensures { result ≡ ⟦<HostName<'a> as Shape>⟧.inner_of _ctx.now }
    {
        Headed((), HostNameSays, PhantomData)
    }
}

type LongListHead = Run<u16>;

type LongListNext = usize;

#[derive(Drop)]
pub struct LongListSays;

impl Head<LongListHead, Error> for LongListSays {
    type Next = LongListNext;

    ghost holds = { λ _ h. (h.0 % 2 ≡ 0) };

    ghost fails = { λ _ h e. (h.0 % 2 ≢ 0) × IsBadInput e h.0 (codes "len is no multiple of 2") };

    ghost next = { λ _ h. h.0 / 2 };

    fn obey(&self, head: &LongListHead) -> Result<(), Error> {
        if head.0 % 2 != 0 {
            return Err(Error::BadInput {
                size: head.0 as usize,
                msg: "len is no multiple of 2",
            });
        }
        Ok(())
    }

    fn next(&self, head: &LongListHead) -> LongListNext {
        head.0 as usize / 2
    }
}

type LongListParts<'a> = (LongListHead, Table<'a, u16>);

type LongListCtx = Headed<(), LongListNext, LongListSays>;

// field  offset  size              notes
// len    0       2
// each   2       len / 2 elements  ctx = len as usize / 2
impl<'a> Shape for LongList<'a> {
    type Ctx = ();

    type Inner = LongListCtx;

    type Parts = LongListParts<'a>;

    ghost parts_of = { λ x. (record { 0 = x.len }, x.each) };

    ghost of_parts = { λ p. record { len = p.0.0; each = p.1 } };

    ghost again = { λ x. refl };

    ghost there = { λ p. refl };

    ghost inner_of = { λ _. record { 0 = tt; 1 = record {}; 2 = record {} } };

    fn split(&self) -> LongListParts<'a> {
        (Run(self.len), self.each)
    }

    fn join(parts: LongListParts<'a>) -> LongList<'a> {
        let (Run(len), each) = parts;
        LongList { len, each }
    }

    fn inner(_ctx: &()) -> LongListCtx
        ensures { result ≡ ⟦<LongList<'a> as Shape>⟧.inner_of _ctx.now }
    {
        Headed((), LongListSays, PhantomData)
    }
}

type ShortListHead = Run<u8>;

type ShortListNext = usize;

#[derive(Drop)]
pub struct ShortListSays;

impl Head<ShortListHead, Error> for ShortListSays {
    type Next = ShortListNext;

    ghost holds = { λ _ h. (h.0 % 2 ≡ 0) };

    ghost fails = { λ _ h e. (h.0 % 2 ≢ 0) × IsBadInput e h.0 (codes "len is no multiple of 2") };

    ghost next = { λ _ h. h.0 / 2 };

    fn obey(&self, head: &ShortListHead) -> Result<(), Error> {
        if head.0 % 2 != 0 {
            return Err(Error::BadInput {
                size: head.0 as usize,
                msg: "len is no multiple of 2",
            });
        }
        Ok(())
    }

    fn next(&self, head: &ShortListHead) -> ShortListNext {
        head.0 as usize / 2
    }
}

type ShortListParts<'a> = (ShortListHead, Table<'a, u16>);

type ShortListCtx = Headed<(), ShortListNext, ShortListSays>;

// field  offset  size              notes
// len    0       1
// each   1       len / 2 elements  ctx = len as usize / 2
impl<'a> Shape for ShortList<'a> {
    type Ctx = ();

    type Inner = ShortListCtx;

    type Parts = ShortListParts<'a>;

    ghost parts_of = { λ x. (record { 0 = x.len }, x.each) };

    ghost of_parts = { λ p. record { len = p.0.0; each = p.1 } };

    ghost again = { λ x. refl };

    ghost there = { λ p. refl };

    ghost inner_of = { λ _. record { 0 = tt; 1 = record {}; 2 = record {} } };

    fn split(&self) -> ShortListParts<'a> {
        (Run(self.len), self.each)
    }

    fn join(parts: ShortListParts<'a>) -> ShortList<'a> {
        let (Run(len), each) = parts;
        ShortList { len, each }
    }

    fn inner(_ctx: &()) -> ShortListCtx
        ensures { result ≡ ⟦<ShortList<'a> as Shape>⟧.inner_of _ctx.now }
    {
        Headed((), ShortListSays, PhantomData)
    }
}

type ProtocolListHead = Run<u16>;

type ProtocolListNext = usize;

#[derive(Drop)]
pub struct ProtocolListSays;

impl Head<ProtocolListHead, Error> for ProtocolListSays {
    type Next = ProtocolListNext;

    ghost holds = { λ _ h. Unit {0} };

    ghost fails = { λ _ h e. ⊥ };

    ghost next = { λ _ h. h.0 };

    fn obey(&self, _head: &ProtocolListHead) -> Result<(), Error> {
        Ok(())
    }

    fn next(&self, head: &ProtocolListHead) -> ProtocolListNext {
        head.0 as usize
    }
}

type ProtocolListParts<'a> = (ProtocolListHead, ListOf<'a, ProtocolsPart<'a>>);

type ProtocolListCtx = Headed<(), ProtocolListNext, ProtocolListSays>;

// field  offset  size  notes
// len    0       2
// each   2       len   ctx = len as usize
impl<'a> Shape for ProtocolList<'a> {
    type Ctx = ();

    type Inner = ProtocolListCtx;

    type Parts = ProtocolListParts<'a>;

    ghost parts_of = { λ x. (
      record { 0 = x.len },
      record { 0 = record { 0 = x.each }; 1 = record {} },
    ) };

    ghost of_parts = { λ p. record { len = p.0.0; each = p.1.0.0 } };

    ghost again = { λ x. refl };

    ghost there = { λ p. refl };

    ghost inner_of = { λ _. record { 0 = tt; 1 = record {}; 2 = record {} } };

    fn split(&self) -> ProtocolListParts<'a> {
        (Run(self.len), ListOf(ProtocolsPart(self.each), PhantomData))
    }

    fn join(parts: ProtocolListParts<'a>) -> ProtocolList<'a> {
        let (Run(len), ListOf(ProtocolsPart(each), _)) = parts;
        ProtocolList { len, each }
    }

    fn inner(_ctx: &()) -> ProtocolListCtx
        ensures { result ≡ ⟦<ProtocolList<'a> as Shape>⟧.inner_of _ctx.now }
    {
        Headed((), ProtocolListSays, PhantomData)
    }
}

#[derive(Drop)]
pub struct ProtocolsPart<'a>(pub Items<'a, Protocols>);

impl<'a> ListPart<'a> for ProtocolsPart<'a> {
    type Kind = Protocols;

    ghost seen = { λ x. record { bytes = x.0.bytes.now; order = x.0.order; count = x.0.count } };

    #[inline(always)]
    fn of(bytes: &'a [u8], order: Endian, count: usize) -> ProtocolsPart<'a> {
        ProtocolsPart(Items::of(bytes, order, count))
    }

    #[inline(always)]
    fn parts(&self) -> (&'a [u8], Endian, usize) {
        (self.0.bytes, self.0.order, self.0.count)
    }
}

impl IsList for Protocols {
    ghost is_list = { λ order s n. CountedItems
        (⟦<Protocol<'static> as ReadPart<'static, (), Error>>⟧.format tt) order s 0 (length s) n };
}

// values    end
// Protocol  as its field says
impl<'a> Listed<'a> for Protocols {
    type Error = Error;

    type Item = Protocol<'a>;

    ghost item = { ⟦<Protocol<'a> as ReadPart<'a, (), Error>>⟧.format tt };

    #[inline(always)]
    fn read_item(
        from: &'a [u8],
        offset: usize,
        order: Endian,
    ) -> Result<(Protocol<'a>, usize), Error> {
        <Protocol<'a> as ReadPart<'a, (), Error>>::read_at(from, offset, order, &())
    }

    #[inline(always)]
    fn end_item(from: &'a [u8], offset: usize, order: Endian) -> Option<usize> {
        <Protocol<'a> as ReadPart<'a, (), Error>>::end_at(from, offset, order, &())
    }
}

impl<'a> Unmarked<'a> for Protocols {
    ghost from_values = { λ order s n h. h };

    ghost into_values = { λ order s n h. h };
}

type ProtocolHead = Run<u8>;

type ProtocolNext = usize;

#[derive(Drop)]
pub struct ProtocolSays;

impl Head<ProtocolHead, Error> for ProtocolSays {
    type Next = ProtocolNext;

    ghost holds = { λ _ h. (h.0 ≢ 0) };

    ghost fails = { λ _ h e. (h.0 ≡ 0) × IsBadInput e h.0 (codes "it is not so that len != 0") };

    ghost next = { λ _ h. h.0 };

    fn obey(&self, head: &ProtocolHead) -> Result<(), Error> {
        if head.0 == 0 {
            return Err(Error::BadInput {
                size: head.0 as usize,
                msg: "it is not so that len != 0",
            });
        }
        Ok(())
    }

    fn next(&self, head: &ProtocolHead) -> ProtocolNext {
        head.0 as usize
    }
}

type ProtocolParts<'a> = (ProtocolHead, &'a [u8]);

type ProtocolCtx = Headed<(), ProtocolNext, ProtocolSays>;

// field  offset  size  notes
// len    0       1     check = len != 0
// name   1       len   ctx = len as usize
impl<'a> Shape for Protocol<'a> {
    type Ctx = ();

    type Inner = ProtocolCtx;

    type Parts = ProtocolParts<'a>;

    ghost parts_of = { λ x. (record { 0 = x.len }, x.name) };

    ghost of_parts = { λ p. record { len = p.0.0; name = p.1 } };

    ghost again = { λ x. refl };

    ghost there = { λ p. refl };

    ghost inner_of = { λ _. record { 0 = tt; 1 = record {}; 2 = record {} } };

    fn split(&self) -> ProtocolParts<'a> {
        (Run(self.len), self.name)
    }

    fn join(parts: ProtocolParts<'a>) -> Protocol<'a> {
        let (Run(len), name) = parts;
        Protocol { len, name }
    }

    fn inner(_ctx: &()) -> ProtocolCtx
        ensures { result ≡ ⟦<Protocol<'a> as Shape>⟧.inner_of _ctx.now }
    {
        Headed((), ProtocolSays, PhantomData)
    }
}
