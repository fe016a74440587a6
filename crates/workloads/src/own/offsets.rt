// Offsets that are read from a table, and what stands there.
use crate::inputs::{Digest, Random, low32};
use crate::own::marks::{Marked, ascii_mark};
use scroll::{LE, Pread, Result};
use std::alloc::{AllocError, Global};
use std::result;

const COUNT: usize = 12_000;

// A number of 32 bits that is past the end, as an offset and as a length.
const PAST: u32 = 1 << 24;

// What stands at the offset with an index: a length, and so many bytes.
#[inline(never)]
fn read_body<'a>(file: &'a [u8], index: usize) -> Result<&'a [u8]> {
    let place: u32 = file.pread_with(index.saturating_mul(4), LE)?;
    let mut offset = place as usize;
    let len: u32 = file.gread_with(&mut offset, LE)?;
    let body: &[u8] = file.gread_with(&mut offset, len as usize)?;
    Ok(body)
}

// Appends bodies, and returns the place of each. Of forty one states a length that is past the end.
fn push_bodies(
    alloc: Global,
    file: &mut Marked,
    random: &mut Random,
) -> result::Result<Vec<u32>, AllocError> {
    let mut places = Vec::new(alloc);
    for _ in 0..COUNT {
        places.push(low32(file.bytes.len() as u64))?;
        let len = random.between(4, 60);
        let past = if random.next() % 40 == 0 { PAST } else { 0 };
        let stated = low32(len) | past;
        file.bytes.extend_from_slice(&stated.to_le_bytes())?;
        file.push_text(random, len)?;
    }
    Ok(places)
}

// A table of offsets, and the bodies. The offsets are those of bodies in any order, and of forty
// one is past the end.
fn make_file(alloc: Global, random: &mut Random) -> result::Result<Marked, AllocError> {
    let mut file = Marked::new(alloc);
    file.bytes.resize(4 * COUNT, 0)?;
    let places = push_bodies(alloc, &mut file, random)?;
    for entry in file.bytes.as_mut_slice().chunks_exact_mut(4).take(COUNT) {
        let place = places.get(random.next() as usize % COUNT);
        let past = if random.next() % 40 == 0 { PAST } else { 0 };
        if let Some(entry) = entry.as_mut_array() {
            *entry = (place.copied().unwrap_or(0) | past).to_le_bytes();
        }
    }
    Ok(file)
}

#[inline(never)]
fn add_bodies(file: &[u8], digest: &mut Digest) {
    for index in 0..COUNT {
        match read_body(file, index) {
            Ok(body) => digest.add_ends(body),
            Err(error) => digest.add_error(&error),
        }
    }
}

/// Writes the mark of the round into each body, and reads what stands at each offset.
pub fn run(
    alloc: Global,
    seed: u64,
    rounds: u64,
    digest: &mut Digest,
) -> result::Result<(), AllocError> {
    let mut random = Random::new(seed ^ 0x6666);
    let mut file = make_file(alloc, &mut random)?;
    for round in 0..rounds {
        file.mark(ascii_mark(round));
        add_bodies(file.bytes.as_slice(), digest);
    }
    Ok(())
}
