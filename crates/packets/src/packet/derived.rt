// Printed by tools/derive from packet.rt.
ghost use Rattle.std.specs.Prelude.{◌≡◌, ◌<◌, ◌≤◌, ◌-◌, ◌^◌, drop};
ghost use Rattle.std.proofs.Common.{refl, rules};
ghost use Rattle.scroll.specs.Numbers.{number};
ghost use Rattle.scroll.specs.lemmas.Frames.{WritesPrefix-keeps};
ghost use Rattle.scroll_layouts.specs.Formats.{refuses};
ghost use Rattle.scroll_layouts.specs.Wholes.{KeepsWhole, ReadsExact, WritesWhole};
ghost use Rattle.packets.specs.declared.packet.PacketError.TheVariants as packet_error_is;

use super::{DnsHeader, Packet, PacketError, UdpHeader};
use scroll::ctx::{Record, TryFromCtx, TryIntoCtx, Written};
use scroll::{Endian, Error};
use scroll_layouts::{Field, Head, Headed, Part, ReadPart, Run, Shape, read_exact, write_whole};
use std::marker::PhantomData;
use std::result::Result;

// field        offset  size
// source       0       2
// destination  2       2
// len          4       2
// checksum     6       2
impl Record for UdpHeader {
    type Parts = (u16, u16, u16, u16);

    ghost parts_of = { λ x. (x.source, x.destination, x.len, x.checksum) };

    ghost of_parts = { λ p. record { source = p.0; destination = p.1; len = p.2; checksum = p.3 } };

    ghost fields_in = { λ order s x.
        (x.source ≡ number order 2 s)
        × (x.destination ≡ number order 2 (drop 2 s))
        × (x.len ≡ number order 2 (drop 4 s))
        × (x.checksum ≡ number order 2 (drop 6 s)) };

    ghost again = { λ x. refl };

    ghost there = { λ p. refl };

    ghost fields_of_parts = { λ order s x h. (h.0, h.1.0, h.1.1.0, h.1.1.1) };

    ghost parts_of_fields = { λ order s x h. (h.0, (h.1, (h.2, h.3))) };

    ghost small = { Prim.search rules };

    fn parts(self) -> Self::Parts {
        (self.source, self.destination, self.len, self.checksum)
    }

    fn of_parts(parts: Self::Parts) -> UdpHeader {
        UdpHeader {
            source: parts.0,
            destination: parts.1,
            len: parts.2,
            checksum: parts.3,
        }
    }
}

impl<'a> Written for &'a UdpHeader {
    type Value = UdpHeader;

    ghost value_of = { λ x. x.now };

    #[inline(always)]
    fn value(self) -> UdpHeader {
        *self
    }
}

// field        offset  size
// id           0       2
// flags        2       2
// questions    4       2
// answers      6       2
// authorities  8       2
// additionals  10      2
impl Record for DnsHeader {
    type Parts = ((u16, u16, u16, u16), (u16, u16));

    ghost parts_of = { λ x. (
      (x.id, x.flags, x.questions, x.answers),
      (x.authorities, x.additionals),
    ) };

    ghost of_parts = { λ p. record {
      id = p.0.0;
      flags = p.0.1;
      questions = p.0.2;
      answers = p.0.3;
      authorities = p.1.0;
      additionals = p.1.1;
    } };

    ghost fields_in = { λ order s x.
        (x.id ≡ number order 2 s)
        × (x.flags ≡ number order 2 (drop 2 s))
        × (x.questions ≡ number order 2 (drop 4 s))
        × (x.answers ≡ number order 2 (drop 6 s))
        × (x.authorities ≡ number order 2 (drop 8 s))
        × (x.additionals ≡ number order 2 (drop 10 s)) };

    ghost again = { λ x. refl };

    ghost there = { λ p. refl };

    ghost fields_of_parts = { λ order s x h. (h.0.0, h.0.1.0, h.0.1.1.0, h.0.1.1.1, h.1.0, h.1.1) };

    ghost parts_of_fields = { λ order s x h. ((h.0, (h.1, (h.2, h.3))), (h.4, h.5)) };

    ghost small = { Prim.search rules };

    fn parts(self) -> Self::Parts {
        (
            (self.id, self.flags, self.questions, self.answers),
            (self.authorities, self.additionals),
        )
    }

    fn of_parts(parts: Self::Parts) -> DnsHeader {
        DnsHeader {
            id: parts.0.0,
            flags: parts.0.1,
            questions: parts.0.2,
            answers: parts.0.3,
            authorities: parts.1.0,
            additionals: parts.1.1,
        }
    }
}

impl<'a> Written for &'a DnsHeader {
    type Value = DnsHeader;

    ghost value_of = { λ x. x.now };

    #[inline(always)]
    fn value(self) -> DnsHeader {
        *self
    }
}

type PacketHead = Run<(Field<UdpHeader>, Field<DnsHeader>)>;

type PacketNext = usize;

#[derive(Drop)]
pub struct PacketSays;

impl Head<PacketHead, PacketError> for PacketSays {
    type Next = PacketNext;

    ghost holds = { λ _ h. (20 ≤ h.0.0.0.len) };

    ghost fails = { λ _ h e. (h.0.0.0.len < 20) × (e ≡ packet_error_is.NoMessage h.0.0.0.len) };

    ghost next = { λ _ h. h.0.0.0.len - 20 };

    fn obey(&self, head: &PacketHead) -> Result<(), PacketError> {
        if 20 > head.0.0.0.len as usize {
            return Err(PacketError::NoMessage(head.0.0.0.len));
        }
        Ok(())
    }

    fn next(&self, head: &PacketHead) -> PacketNext {
        (head.0.0.0.len as usize).saturating_sub(20)
    }
}

type PacketParts<'a> = (PacketHead, &'a [u8]);

type PacketCtx = Headed<(), PacketNext, PacketSays>;

// error = PacketError::Short
// field  offset  size          notes
// udp    0       8
// dns    8       12
// body   20      udp.len - 20  ctx = udp.len as usize - 20, else = PacketError::NoMessage
impl<'a> Shape for Packet<'a> {
    type Ctx = ();

    type Inner = PacketCtx;

    type Parts = PacketParts<'a>;

    ghost parts_of = { λ x. (record { 0 = (record { 0 = x.udp }, record { 0 = x.dns }) }, x.body) };

    ghost of_parts = { λ p. record { udp = p.0.0.0.0; dns = p.0.0.1.0; body = p.1 } };

    ghost again = { λ x. refl };

    ghost there = { λ p. refl };

    ghost inner_of = { λ _. record { 0 = tt; 1 = record {}; 2 = record {} } };

    fn split(&self) -> PacketParts<'a> {
        (Run((Field(self.udp), Field(self.dns))), self.body)
    }

    fn join(parts: PacketParts<'a>) -> Packet<'a> {
        let (Run((Field(udp), Field(dns))), body) = parts;
        Packet { udp, dns, body }
    }

    fn inner(_ctx: &()) -> PacketCtx
        ensures { result ≡ ⟦<Packet<'a> as Shape>⟧.inner_of _ctx.now }
    {
        Headed((), PacketSays, PhantomData)
    }
}

impl<'a> TryFromCtx<'a, Endian> for Packet<'a> {
    type Error = PacketError;

    ghost reads = { ReadsExact (⟦<Packet<'a> as ReadPart<'a, (), PacketError>>⟧.format tt) };

    ghost refuses = { λ order s.
        refuses (⟦<Packet<'a> as ReadPart<'a, (), PacketError>>⟧.format tt) order s 0 };

    ghost reads_bounded = { λ order s x n h. Prim.search rules };

    #[inline(always)]
    fn try_from_ctx(from: &'a [u8], ctx: Endian) -> Result<(Packet<'a>, usize), PacketError> {
        read_exact::<(), PacketError, Packet<'a>>(from, ctx, &())
    }
}

impl<'a> TryIntoCtx<Endian> for Packet<'a> {
    type Error = PacketError;

    ghost writes = { WritesWhole (⟦<Packet<'a> as Part<(), PacketError>>⟧.format tt) };

    ghost refuses = { KeepsWhole (λ error e. e ≡ packet_error_is.Short error)
        (⟦<Packet<'a> as Part<(), PacketError>>⟧.format tt) };

    ghost writes_bounded = { λ order x old new n h. Prim.search rules };

    ghost writes_keeps = { λ order x old new n h. WritesPrefix-keeps _ old new n h.wrote };

    #[inline(always)]
    fn try_into_ctx(self, dst: &mut [u8], ctx: Endian) -> Result<usize, PacketError> {
        write_whole::<(), PacketError, Packet<'a>>(&self, dst, ctx, &())
    }
}
