// Records of 5 and 12 bytes at a cursor, in both orders, and records of 20 bytes of streams.
use crate::inputs::{Digest, Random, add_to_words, low32, number_end};
use crate::own::types::{Entry, Sample, Slot};
use scroll::{BE, Endian, IOread, IOwrite, LE, Pread, slice};
use std::alloc::{AllocError, Global};
use std::io::{BufReader, Read};
use std::ops::Range;

const SIZE: usize = 580_000;

// Each of them ends within a record.
const LITTLE_ENTRIES: Range<usize> = 0..50_002;

const BIG_ENTRIES: Range<usize> = 50_004..100_007;

const LITTLE_SLOTS: Range<usize> = 100_008..220_010;

const BIG_SLOTS: Range<usize> = 220_014..340_019;

const SLICE_SAMPLES: Range<usize> = 340_024..460_026;

const STREAM_SAMPLES: Range<usize> = 460_030..580_000;

// Reads entries in one order, and writes them in the other.
fn copy_entries(source: &[u8], target: &mut [u8], from: Endian, to: Endian, digest: &mut Digest) {
    let mut start = 0;
    let mut end = 0;
    for _ in 0..source.len() {
        match source.gread_with::<Entry>(&mut start, from) {
            Ok(entry) => {
                digest.add(u64::from(entry.kind) ^ u64::from(entry.size) << 8);
                if let Err(error) = slice::gwrite_with(target, entry, &mut end, to) {
                    digest.add_error(&error);
                }
            }
            Err(error) => return digest.add_error(&error),
        }
    }
}

// The same for slots.
fn copy_slots(source: &[u8], target: &mut [u8], from: Endian, to: Endian, digest: &mut Digest) {
    let mut start = 0;
    let mut end = 0;
    for _ in 0..source.len() {
        match source.gread_with::<Slot>(&mut start, from) {
            Ok(slot) => {
                digest.add(u64::from(slot.key) ^ u64::from(slot.flags) << 16);
                digest.add(slot.value);
                if let Err(error) = slice::gwrite_with(target, slot, &mut end, to) {
                    digest.add_error(&error);
                }
            }
            Err(error) => return digest.add_error(&error),
        }
    }
}

fn add_sample(digest: &mut Digest, sample: &Sample) {
    digest.add(sample.time);
    digest.add(u64::from(sample.level.cast_unsigned()) ^ u64::from(sample.low) << 32);
    digest.add(u64::from(sample.high));
}

// Reads the samples of a stream, and appends each to a vector.
fn copy_samples<R: Read>(reader: &mut R, target: &mut Vec<u8>, digest: &mut Digest) {
    for i in 0..SIZE {
        match reader.ioread_with::<Sample>(BE) {
            Ok(sample) => {
                add_sample(digest, &sample);
                if let Err(error) = target.iowrite_with(sample, LE) {
                    digest.add_io_error(&error);
                }
            }
            Err(error) => {
                digest.add(i as u64);
                return digest.add_io_error(&error);
            }
        }
    }
}

fn window(bytes: &[u8], range: Range<usize>) -> &[u8] {
    bytes.get(range).unwrap_or(b"")
}

#[inline(never)]
fn copy_records(bytes: &[u8], target: &mut [u8], round: u64, digest: &mut Digest) {
    copy_entries(window(bytes, LITTLE_ENTRIES), target, LE, BE, digest);
    digest.add_written(target, round);
    copy_entries(window(bytes, BIG_ENTRIES), target, BE, LE, digest);
    digest.add_written(target, round);
    copy_slots(window(bytes, LITTLE_SLOTS), target, LE, BE, digest);
    digest.add_written(target, round);
    copy_slots(window(bytes, BIG_SLOTS), target, BE, LE, digest);
    digest.add_written(target, round);
}

// Reads samples from a slice and from a buffered reader. The target begins with the number of the
// round, so that no write finds it as an earlier one found it.
#[inline(never)]
fn copy_streams(
    alloc: Global,
    bytes: &[u8],
    target: &mut Vec<u8>,
    round: u64,
    digest: &mut Digest,
) -> Result<(), AllocError> {
    target.clear();
    target.extend_from_slice(&round.to_le_bytes())?;
    let mut rest = window(bytes, SLICE_SAMPLES);
    copy_samples(&mut rest, target, digest);
    let rest = window(bytes, STREAM_SAMPLES);
    let Ok(mut buffered) = BufReader::new(alloc, rest) else {
        return Err(AllocError);
    };
    copy_samples(&mut buffered, target, digest);
    digest.add_written(target.as_slice(), round);
    Ok(())
}

/// Changes the bytes, reads the records and writes them in the other order.
pub fn run(alloc: Global, seed: u64, rounds: u64, digest: &mut Digest) -> Result<(), AllocError> {
    let mut random = Random::new(seed ^ 0x2222);
    let mut bytes = Vec::new(alloc);
    for _ in 0..SIZE / 4 {
        bytes.extend_from_slice(&low32(random.next()).to_le_bytes())?;
    }
    let odd = random.next() << 32 | random.next() | 1;
    // (a slot has no room at the end)
    let mut target = vec![in alloc; 0u8; 120_000 - 4]?;
    let mut samples = Vec::new(alloc);
    for round in 0..rounds {
        add_to_words(bytes.as_mut_slice(), odd);
        for end in [
            LITTLE_ENTRIES.end,
            BIG_ENTRIES.end,
            LITTLE_SLOTS.end,
            BIG_SLOTS.end,
            SLICE_SAMPLES.end,
            STREAM_SAMPLES.end,
        ] {
            if let Some(read) = bytes.as_mut_slice().get_mut(..end) {
                number_end(read, round);
            }
        }
        copy_records(bytes.as_slice(), target.as_mut_slice(), round, digest);
        copy_streams(alloc, bytes.as_slice(), &mut samples, round, digest)?;
    }
    Ok(())
}
