// Numbers from readers and to writers, and values that are appended.
use crate::inputs::{Digest, Random, add_to_words, low32, number_end};
use scroll::{BE, IOread, IOwrite, LE};
use scroll_formats::{Value, append};
use std::alloc::{AllocError, Global};
use std::io;
use std::io::{BufReader, BufWriter, Read, Write};
use std::ops::Range;

// What is read in a round: records from a slice, numbers of one width, and records from a slow
// source. Each of them ends within a value, of which more than one byte is there.
const SIZE: usize = 2_400_000;

const RECORDS: Range<usize> = 0..999_994;

const NUMBERS: Range<usize> = 1_000_000..1_999_999;

const SLOW: Range<usize> = 2_000_000..2_399_998;

// So many records are written each time.
const WRITTEN: u64 = 20_000;

// A reader that gives from one to sixteen bytes a call.
#[derive(Drop)]
struct Trickle<'a> {
    rest: &'a [u8],
    step: usize,
}

impl<'a> Read for Trickle<'a> {
    fn read(&mut self, buf: &mut [u8]) -> io::Result<usize> {
        self.step = self.step % 16 + 1;
        let count = self.step.min(buf.len());
        self.rest.read(&mut buf[..count])
    }
}

// Reads a record of numbers of each width, in both orders.
fn read_record<R: Read>(reader: &mut R, digest: &mut Digest) -> io::Result<()> {
    let kind: u8 = reader.ioread_with(LE)?;
    let flags: u16 = reader.ioread_with(BE)?;
    let size: u32 = reader.ioread_with(LE)?;
    let time: u64 = reader.ioread_with(BE)?;
    let shift: i32 = reader.ioread_with(LE)?;
    digest.add(u64::from(kind) ^ u64::from(flags) << 16 ^ u64::from(size) << 32);
    digest.add(time ^ u64::from(shift.cast_unsigned()));
    Ok(())
}

// Reads records up to the end, where one is cut off.
fn read_all<R: Read>(reader: &mut R, most: usize, digest: &mut Digest) {
    for i in 0..most {
        if let Err(error) = read_record(reader, digest) {
            digest.add(i as u64);
            return digest.add_io_error(&error);
        }
    }
}

// Numbers of one width, as in a table.
fn read_table(bytes: &[u8], digest: &mut Digest) {
    let mut rest = bytes;
    for i in 0..bytes.len() {
        match rest.ioread_with::<u32>(LE) {
            Ok(number) => digest.add(u64::from(number)),
            Err(error) => {
                digest.add(i as u64);
                return digest.add_io_error(&error);
            }
        }
    }
}

fn write_record<W: Write>(writer: &mut W, number: u64) -> io::Result<()> {
    writer.iowrite_with((number & 0xff) as u8, LE)?;
    writer.iowrite_with((number & 0xffff) as u16, BE)?;
    writer.iowrite_with((number >> 7 & 0xffff_ffff) as u32, LE)?;
    writer.iowrite_with(number, BE)?;
    writer.iowrite_with((number >> 3 & 0x7fff_ffff) as i32, LE)
}

fn write_all<W: Write>(writer: &mut W, first: u64, digest: &mut Digest) {
    for i in 0..WRITTEN {
        let number = first.wrapping_add(i).wrapping_mul(0x9e37_79b9_7f4a_7c15);
        if let Err(error) = write_record(writer, number) {
            digest.add(i);
            return digest.add_io_error(&error);
        }
    }
}

fn write_buffered(
    alloc: Global,
    target: &mut Vec<u8>,
    first: u64,
    digest: &mut Digest,
) -> Result<(), AllocError> {
    let Ok(mut buffered) = BufWriter::new(alloc, target) else {
        return Err(AllocError);
    };
    write_all(&mut buffered, first, digest);
    if let Err(error) = buffered.flush() {
        digest.add_io_error(&error);
    }
    Ok(())
}

// Appends records of values with a text.
fn append_all(target: &mut Vec<u8>, first: u64, text: &[u8]) -> scroll::Result<()> {
    for i in 0..WRITTEN {
        let number = first.wrapping_add(i).wrapping_mul(0x9e37_79b9_7f4a_7c15);
        append(target, Value((number & 0xffff) as u16), LE)?;
        append(target, (Value(number), text), BE)?;
        append(target, Value((number >> 20 & 0xffff_ffff) as u32), BE)?;
    }
    Ok(())
}

// Returns the first number of what is written next, and begins the target with it. No number comes
// twice, and no write finds a target as an earlier one found it.
fn begin(target: &mut Vec<u8>, count: u64, random: &mut Random) -> Result<u64, AllocError> {
    let first = count << 32 ^ random.next() >> 1;
    target.clear();
    target.extend_from_slice(&first.to_le_bytes())?;
    Ok(first)
}

// Writes records to a vector and to a buffered writer, and appends others.
fn write_round(
    alloc: Global,
    target: &mut Vec<u8>,
    text: &[u8],
    round: u64,
    random: &mut Random,
    digest: &mut Digest,
) -> Result<(), AllocError> {
    let count = round.wrapping_mul(3);
    let first = begin(target, count, random)?;
    write_all(target, first, digest);
    digest.add_written(target.as_slice(), round);
    let first = begin(target, count.wrapping_add(1), random)?;
    write_buffered(alloc, target, first, digest)?;
    digest.add_written(target.as_slice(), round);
    let first = begin(target, count.wrapping_add(2), random)?;
    if append_all(target, first, text).is_err() {
        return Err(AllocError);
    }
    digest.add_written(target.as_slice(), round);
    Ok(())
}

fn read_round(alloc: Global, bytes: &[u8], digest: &mut Digest) -> Result<(), AllocError> {
    let mut records = bytes.get(RECORDS).unwrap_or(b"");
    read_all(&mut records, SIZE, digest);
    read_table(bytes.get(NUMBERS).unwrap_or(b""), digest);
    let rest = bytes.get(SLOW).unwrap_or(b"");
    let Ok(mut buffered) = BufReader::new(alloc, Trickle { rest, step: 0 }) else {
        return Err(AllocError);
    };
    read_all(&mut buffered, SIZE, digest);
    Ok(())
}

// Changes all bytes, and ends what is read with the number of the round, since a read is given all
// that is left.
fn change_bytes(bytes: &mut [u8], odd: u64, round: u64) {
    add_to_words(bytes, odd);
    for end in [RECORDS.end, NUMBERS.end, SLOW.end] {
        if let Some(read) = bytes.get_mut(..end) {
            number_end(read, round);
        }
    }
}

/// Changes the bytes, reads records from a slice and from a buffered reader of a slow source, and
/// numbers of one width, and writes others.
pub fn run(alloc: Global, seed: u64, rounds: u64, digest: &mut Digest) -> Result<(), AllocError> {
    let mut random = Random::new(seed);
    let mut bytes = Vec::new(alloc);
    for _ in 0..SIZE / 4 {
        bytes.extend_from_slice(&low32(random.next()).to_le_bytes())?;
    }
    let odd = random.next() << 32 | random.next() | 1;
    let mut target = Vec::new(alloc);
    for round in 0..rounds {
        change_bytes(bytes.as_mut_slice(), odd, round);
        read_round(alloc, bytes.as_slice(), digest)?;
        let text = bytes.get(..9).unwrap_or(b"");
        write_round(alloc, &mut target, text, round, &mut random, digest)?;
    }
    Ok(())
}
