// Packets and records of a log, read and written.
use crate::inputs::{Digest, Random, change_all, low16, number_end, push_letters};
use packets::log::{Record, read_records, write_records};
use packets::{Packet, PacketError, read_packet, write_packet};
use scroll::{BE, LE};
use std::alloc::{AllocError, Global};

const PACKETS: usize = 12_000;

const RECORDS: usize = 30_000;

// Bytes, and the places of what is changed in them.
#[derive(Drop)]
struct Log {
    bytes: Vec<u8>,
    places: Vec<usize>,
}

// Mostly short, as in captures.
fn choose_len(random: &mut Random) -> u64 {
    match random.next() % 10 {
        0..=6 => random.between(0, 120),
        7 | 8 => random.between(100, 600),
        _ => random.between(600, 1480),
    }
}

fn push_body(bytes: &mut Vec<u8>, random: &mut Random, len: u64) -> Result<(), AllocError> {
    for _ in 0..len {
        bytes.push((random.next() & 0xff) as u8)?;
    }
    Ok(())
}

fn make_packets(alloc: Global, random: &mut Random) -> Result<Log, AllocError> {
    let mut bytes = Vec::new(alloc);
    let mut places = Vec::new(alloc);
    for _ in 0..PACKETS {
        let len = choose_len(random);
        push_body(&mut bytes, random, 4)?;
        bytes.extend_from_slice(&low16(len.saturating_add(20)).to_be_bytes())?;
        push_body(&mut bytes, random, 2)?;
        places.push(bytes.len())?;
        push_body(&mut bytes, random, len.saturating_add(12))?;
    }
    // The last packet is cut off.
    push_body(&mut bytes, random, 4)?;
    bytes.extend_from_slice(&200u16.to_be_bytes())?;
    push_body(&mut bytes, random, 15)?;
    Ok(Log { bytes, places })
}

fn add_packet_error(digest: &mut Digest, error: &PacketError) {
    match error {
        PacketError::Short(error) => digest.add_error(error),
        PacketError::NoMessage(len) => digest.add_as(11, u64::from(*len)),
    }
}

fn add_packet(digest: &mut Digest, packet: &Packet) {
    let udp = &packet.udp;
    digest.add(u64::from(udp.source) << 16 ^ u64::from(udp.destination));
    digest.add(u64::from(udp.len) << 16 ^ u64::from(udp.checksum));
    let dns = &packet.dns;
    digest.add(u64::from(dns.id) << 16 ^ u64::from(dns.flags));
    digest.add(u64::from(dns.questions) << 16 ^ u64::from(dns.answers));
    digest.add(u64::from(dns.authorities) << 16 ^ u64::from(dns.additionals));
    digest.add(u64::from(dns.is_response()) << 16 ^ u64::from(dns.response_code()));
    digest.add_ends(packet.body);
}

// The answer to a packet.
fn answer<'a>(packet: &Packet<'a>) -> Packet<'a> {
    let mut dns = packet.dns;
    dns.flags |= 0x8000;
    Packet {
        udp: packet.udp,
        dns,
        body: packet.body,
    }
}

// Writes a packet at an offset. Returns its size.
fn put_packet(target: &mut [u8], offset: usize, packet: Packet) -> Result<usize, PacketError> {
    match target.get_mut(offset..) {
        Some(target) => write_packet(target, packet),
        None => Ok(0),
    }
}

// Reads the packet at an offset, and writes the answer there. Returns its size.
fn copy_packet(
    bytes: &[u8],
    target: &mut [u8],
    offset: usize,
    digest: &mut Digest,
) -> Result<usize, PacketError> {
    let from = bytes.get(offset..).unwrap_or(b"");
    let packet = read_packet(from)?;
    add_packet(digest, &packet);
    put_packet(target, offset, answer(&packet))
}

fn copy_packets(bytes: &[u8], target: &mut [u8], round: u64, digest: &mut Digest) {
    let mut offset: usize = 0;
    for _ in 0..bytes.len() {
        match copy_packet(bytes, target, offset, digest) {
            Ok(size) => {
                offset = offset.saturating_add(size);
                digest.add(size as u64);
            }
            Err(error) => {
                add_packet_error(digest, &error);
                break;
            }
        }
    }
    digest.add_written(target, round);
}

// A name, in half of the records with letters beyond ASCII.
fn push_name(bytes: &mut Vec<u8>, random: &mut Random) -> Result<(), AllocError> {
    let letters = random.between(0, 30);
    if random.next() % 2 == 0 {
        return push_letters(bytes, random, letters);
    }
    for _ in 0..letters {
        match random.next() % 4 {
            0 => bytes.extend_from_slice("é".as_bytes())?,
            1 => bytes.extend_from_slice("漢".as_bytes())?,
            _ => push_letters(bytes, random, 1)?,
        }
    }
    Ok(())
}

fn make_log(alloc: Global, random: &mut Random) -> Result<Log, AllocError> {
    let mut bytes = Vec::new(alloc);
    let mut places = Vec::new(alloc);
    let mut name = Vec::new(alloc);
    for i in 0..RECORDS {
        name.clear();
        // (one of twenty has no bytes)
        let len = if i % 20 == 3 { 0 } else { choose_len(random) };
        if len != 0 {
            push_name(&mut name, random)?;
        }
        let size = (name.len() as u64).saturating_add(1).saturating_add(len);
        bytes.extend_from_slice(&low16(size).to_le_bytes())?;
        bytes.extend_from_slice(name.as_slice())?;
        bytes.push(0)?;
        if len != 0 {
            places.push(bytes.len())?;
        }
        push_body(&mut bytes, random, len)?;
    }
    Ok(Log { bytes, places })
}

fn copy_log(alloc: Global, bytes: &[u8], target: &mut [u8], round: u64, digest: &mut Digest) {
    let to = if round % 2 == 0 { BE } else { LE };
    match read_records(alloc, bytes, LE) {
        Ok(records) => {
            digest.add(records.len() as u64);
            for record in &records {
                let record: &Record = record;
                digest.add(u64::from(record.len));
                digest.add_ends(record.name.as_bytes());
                digest.add_ends(record.body);
            }
            match write_records(target, records.as_slice(), to) {
                Ok(size) => digest.add(size as u64),
                Err(located) => digest.add_located(&located),
            }
        }
        Err(located) => digest.add_located(&located),
    }
    digest.add_written(target, round);
}

fn change_log(log: &mut Log, random: &mut Random) {
    change_all(
        log.bytes.as_mut_slice(),
        log.places.as_slice(),
        random,
        0xff,
    );
}

/// Changes the packets and the bodies of the records, reads them and writes them to a target. In
/// every fourth round the last record is cut off, and in another one the target is too short.
pub fn run(alloc: Global, seed: u64, rounds: u64, digest: &mut Digest) -> Result<(), AllocError> {
    let mut random = Random::new(seed);
    let mut packets = make_packets(alloc, &mut random)?;
    let mut log = make_log(alloc, &mut random)?;
    let size = packets.bytes.len().max(log.bytes.len());
    let mut target = vec![in alloc; 0u8; size]?;
    for round in 0..rounds {
        change_log(&mut packets, &mut random);
        // (the read of a packet is given those behind it too)
        number_end(packets.bytes.as_mut_slice(), round);
        copy_packets(
            packets.bytes.as_slice(),
            target.as_mut_slice(),
            round,
            digest,
        );
        change_log(&mut log, &mut random);
        let cut = if round % 4 == 3 { 1 } else { 0 };
        let bytes = log
            .bytes
            .get(..log.bytes.len().saturating_sub(cut))
            .unwrap_or(b"");
        let short = if round % 4 == 1 { 1 } else { 0 };
        let room = log.bytes.len().saturating_sub(short);
        if let Some(target) = target.as_mut_slice().get_mut(..room) {
            copy_log(alloc, bytes, target, round, digest);
        }
    }
    Ok(())
}
