// Indexes of git, read and written.
use crate::inputs::{Digest, Random, change_all, low32};
use git_index::{Entry, IndexError, WriteError, read_index, write_index};
use std::alloc::{AllocError, Global};

const ENTRIES: u64 = 30_000;

// An index, and the place of the size in each entry.
#[derive(Drop)]
struct Index {
    bytes: Vec<u8>,
    sizes: Vec<usize>,
}

// Appends the path of an entry, of 20 to 120 bytes. Paths are in order.
fn push_path(bytes: &mut Vec<u8>, random: &mut Random, number: u64) -> Result<(), AllocError> {
    bytes.extend_from_slice(b"src/")?;
    for power in [10_000, 1000, 100, 10, 1] {
        bytes.push(b'0' + (number / power % 10) as u8)?;
    }
    for i in 0..random.between(8, 108) {
        let letter = if i % 9 == 4 {
            b'/'
        } else {
            b'a' + (random.next() % 26) as u8
        };
        bytes.push(letter)?;
    }
    bytes.extend_from_slice(b".rs\0")?;
    Ok(())
}

fn make_index(alloc: Global, random: &mut Random) -> Result<Index, AllocError> {
    let mut bytes = Vec::new(alloc);
    let mut sizes = Vec::new(alloc);
    bytes.extend_from_slice(b"DIRC\0\0\0\x02")?;
    bytes.extend_from_slice(&(ENTRIES as u32).to_be_bytes())?;
    for number in 0..ENTRIES {
        let start = bytes.len();
        for _ in 0..15 {
            bytes.extend_from_slice(&low32(random.next()).to_be_bytes())?;
        }
        sizes.push(start.saturating_add(39))?;
        bytes.extend_from_slice(&[0, 0])?;
        push_path(&mut bytes, random, number)?;
        for _ in 0..8 {
            if bytes.len().saturating_sub(start) % 8 == 0 {
                break;
            }
            bytes.push(0)?;
        }
    }
    Ok(Index { bytes, sizes })
}

fn add_error(digest: &mut Digest, error: &IndexError) {
    match error {
        IndexError::Refused(located) => digest.add_located(located),
        IndexError::BadVersion(version) => digest.add_as(11, u64::from(*version)),
        IndexError::BadSignature(signature) => digest.add_as(12, u64::from(*signature)),
        IndexError::Short(error) => digest.add_error(error),
    }
}

fn add_write_error(digest: &mut Digest, error: &WriteError) {
    match error {
        WriteError::TooMany(count) => digest.add_as(13, *count as u64),
        WriteError::Short(error) => digest.add_error(error),
    }
}

fn add_entry(digest: &mut Digest, entry: &Entry) {
    let stat = &entry.stat;
    digest.add(u64::from(stat.changed) ^ u64::from(stat.changed_nanos) << 32);
    digest.add(u64::from(stat.modified) ^ u64::from(stat.modified_nanos) << 32);
    digest.add(u64::from(stat.device) ^ u64::from(stat.inode) << 32);
    digest.add(u64::from(stat.user) ^ u64::from(stat.group) << 32);
    digest.add(u64::from(stat.mode) ^ u64::from(stat.size) << 32);
    for word in stat.id.as_slice().chunks_exact(4) {
        if let Some(word) = word.as_array() {
            digest.add(u64::from(u32::from_le_bytes(*word)));
        }
    }
    digest.add(u64::from(stat.flags));
    digest.add_ends(entry.path.to_bytes());
}

fn copy_index(alloc: Global, bytes: &[u8], target: &mut [u8], round: u64, digest: &mut Digest) {
    match read_index(alloc, bytes) {
        Ok(entries) => {
            digest.add(entries.len() as u64);
            for entry in &entries {
                add_entry(digest, entry);
            }
            match write_index(target, entries.as_slice()) {
                Ok(size) => digest.add(size as u64),
                Err(error) => add_write_error(digest, &error),
            }
        }
        Err(error) => add_error(digest, &error),
    }
    digest.add_written(target, round);
}

/// Changes the sizes, reads the index, and writes it. In every eighth round its end is cut off.
pub fn run(alloc: Global, seed: u64, rounds: u64, digest: &mut Digest) -> Result<(), AllocError> {
    let mut random = Random::new(seed);
    let mut index = make_index(alloc, &mut random)?;
    let mut target = vec![in alloc; 0u8; index.bytes.len()]?;
    for round in 0..rounds {
        change_all(
            index.bytes.as_mut_slice(),
            index.sizes.as_slice(),
            &mut random,
            0xff,
        );
        let cut = if round % 8 == 7 { 3 } else { 0 };
        let len = index.bytes.len().saturating_sub(cut);
        let bytes = index.bytes.get(..len).unwrap_or(b"");
        copy_index(alloc, bytes, target.as_mut_slice(), round, digest);
    }
    Ok(())
}
