//! DNS messages over UDP: the headers of [RFC 768](https://www.rfc-editor.org/rfc/rfc768) and of
//! [RFC 1035](https://www.rfc-editor.org/rfc/rfc1035), section 4.1.1, read from bytes and written
//! to them.
//!
//! A packet is a datagram from its UDP header on, without the IP header before it. Its questions
//! and records are kept as bytes, and its checksum isn't checked. Both round trips are clauses of
//! [`read_packet`] and [`write_packet`]: a packet that was read is written back byte for byte, and
//! one that was written is read again equal.
//!
//! ```rust
//! let query = read_packet(bytes)?;
//! let answer = Packet {
//!     dns: DnsHeader {
//!         flags: query.dns.flags | 0x8000,
//!         ..query.dns
//!     },
//!     ..query
//! };
//! let size = write_packet(&mut out, answer)?;
//! ```
//!
//! The module [`log`] reads and writes logs of such packets, or of anything else.
#![tactic(auto)]

ghost use Rattle.std.specs.Prelude.{◌≡◌, ◌≤◌, ◌-◌, length, take, drop, IfOk, IfErr, IsOk, OnOk, OnErr};
ghost use Rattle.scroll.specs.declared.endian.Endian.TheVariants.{Big};
ghost use Rattle.packets.specs.Headers.{field};
ghost use Rattle.packets.specs.declared.packet.PacketError.TheVariants.{Short};
ghost use Rattle.scroll_layouts.specs.Formats.{refuses};
ghost use Rattle.scroll_layouts.specs.Wholes.{WritesWhole, KeepsWhole};
ghost use Rattle.packets.specs.Packets.{IsPacket, WritesHeaders, RefusesHeaders};

use scroll::{NETWORK, Pread, slice};
use scroll_layouts::ReadPart;

pub mod log;
mod packet;
#[cfg(test)]
mod tests;

pub use crate::packet::{DnsHeader, Packet, PacketError, UdpHeader};

/// Reads the packet at the start of some bytes. The bytes after its UDP length are ignored.
pub fn read_packet<'a>(bytes: &'a [u8]) -> Result<Packet<'a>, PacketError>
    ensures read { IfOk result (IsPacket (⟦<Packet<'a> as ReadPart<'a, (), PacketError>>⟧.format tt)
        bytes.now) }
    ensures udp_len { IfOk result (λ x. x.udp.len ≡ field 4 bytes.now) }
    ensures source { IfOk result (λ x. x.udp.source ≡ field 0 bytes.now) }
    ensures id { IfOk result (λ x. x.dns.id ≡ field 8 bytes.now) }
    ensures flags { IfOk result (λ x. x.dns.flags ≡ field 10 bytes.now) }
    ensures body { IfOk result (λ x. x.body.now ≡ take (x.udp.len - 20) (drop 20 bytes.now)) }
    ensures refused { IfErr result (refuses (⟦<Packet<'a> as ReadPart<'a, (), PacketError>>⟧.format tt) Big bytes.now 0) }
    ensures accepted { 20 ≤ field 4 bytes.now → field 4 bytes.now ≤ length bytes.now → IsOk result }
{
    let packet: Packet<'a> = bytes.pread_with(0, NETWORK)?;
    Ok(packet)
}

/// Writes a packet to the start of `target`, and returns its size in bytes. On an error the target
/// is unchanged.
pub fn write_packet<'a>(target: &mut [u8], packet: Packet<'a>) -> Result<usize, PacketError>
    ensures wrote { IfOk result (WritesWhole (⟦<Packet<'a> as ReadPart<'a, (), PacketError>>⟧.format tt) Big packet.entry target.old target.new) }
    ensures again { OnOk result (IsPacket (⟦<Packet<'a> as ReadPart<'a, (), PacketError>>⟧.format tt) target.new packet.entry) }
    ensures refused { IfErr result (KeepsWhole (λ error e. e ≡ Short error)
        (⟦<Packet<'a> as ReadPart<'a, (), PacketError>>⟧.format tt) Big packet.entry target.old
        target.new) }
    ensures stays { OnErr result (target.new ≡ target.old) }
{
    let size = slice::pwrite_with(target, packet, 0, NETWORK)?;
    Ok(size)
}

/// Writes the two headers before a body that starts at offset 20: the message's first, since the
/// length of a datagram is known last. The other order leaves the same bytes. On an error the
/// target is unchanged.
pub fn write_headers(target: &mut [u8], udp: UdpHeader, dns: DnsHeader) -> Result<(), PacketError>
    ensures either_order { OnOk result (WritesHeaders udp dns target.old target.new) }
    ensures refused { IfErr result (RefusesHeaders target.old) }
    ensures stays { OnErr result (target.new ≡ target.old) }
    ensures accepted { 20 ≤ length target.old → IsOk result }
{
    slice::pwrite_with(target, dns, 8, NETWORK)?;
    slice::pwrite_with(target, udp, 0, NETWORK)?;
    Ok(())
}
