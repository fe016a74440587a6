// ZIP archives and the chunks of PNG, written and read.
use crate::inputs::{Digest, Random, low8, low16, low32, push_letters};
use png::{Checksum, ChunkError, read_chunk, write_chunk};
use std::alloc::{AllocError, Global};
use zip::{Entry, StoredFile, ZipError, find_end, read_archive, read_file, write_archive};

const FILES: usize = 6000;

const CHUNKS: usize = 6000;

// So many bytes stand before an archive with a long comment.
const BEFORE: usize = 64;

// The bytes of names and contents, from which files are cut.
#[derive(Drop)]
struct Pool {
    bytes: Vec<u8>,
}

impl Pool {
    fn slice(&self, start: u64, len: u64) -> &[u8] {
        let start = start as usize % 60_000;
        self.bytes
            .get(start..start + len as usize % 5000)
            .unwrap_or(b"")
    }
}

// A checksum that takes little time: the sum of words.
struct Sum;

impl Checksum for Sum {
    ghost counts = { λ _ _ _ _. Unit {0} };

    fn checksum(&self, kind: u32, contents: &[u8]) -> u32 {
        let mut sum = kind;
        for word in contents.chunks_exact(4) {
            if let Some(word) = word.as_array() {
                sum = sum.wrapping_add(u32::from_le_bytes(*word));
            }
        }
        sum
    }
}

fn make_file<'a>(pool: &'a Pool, random: &mut Random) -> StoredFile<'a> {
    let name = pool.slice(random.next(), random.between(20, 120));
    let contents = pool.slice(random.next(), random.between(0, 900));
    StoredFile {
        signature: 0x04034b50,
        version: 20,
        flags: 0,
        method: 0,
        time: (random.next() & 0xffff) as u16,
        date: (random.next() & 0xffff) as u16,
        crc: low32(random.next()),
        packed: low32(contents.len() as u64),
        size: low32(contents.len() as u64),
        name_len: low16(name.len() as u64),
        extra_len: 0,
        name,
        extra: b"",
        contents,
    }
}

#[inline(never)]
fn make_files<'a>(
    alloc: Global,
    pool: &'a Pool,
    random: &mut Random,
) -> Result<Vec<StoredFile<'a>>, AllocError> {
    let mut files = Vec::new(alloc);
    for _ in 0..FILES {
        files.push(make_file(pool, random))?;
    }
    Ok(files)
}

fn add_zip_error(digest: &mut Digest, error: &ZipError) {
    match error {
        ZipError::NoEnd => digest.add_as(11, 0),
        ZipError::Refused(located) => digest.add_located(located),
        ZipError::Differs => digest.add_as(12, 0),
        ZipError::TooLarge(size) => digest.add_as(13, *size as u64),
        ZipError::TooMany(count) => digest.add_as(14, *count as u64),
    }
}

fn add_entry(digest: &mut Digest, entry: &Entry) {
    digest.add(u64::from(entry.signature) ^ u64::from(entry.external) << 32);
    digest.add(u64::from(entry.made_by) ^ u64::from(entry.version) << 32);
    digest.add(u64::from(entry.flags) ^ u64::from(entry.method) << 32);
    digest.add(u64::from(entry.time) ^ u64::from(entry.date) << 32);
    digest.add(u64::from(entry.crc) ^ u64::from(entry.place) << 32);
    digest.add(u64::from(entry.packed) ^ u64::from(entry.size) << 32);
    digest.add(u64::from(entry.name_len) ^ u64::from(entry.extra_len) << 32);
    digest.add(u64::from(entry.comment_len) ^ u64::from(entry.disk) << 32);
    digest.add(u64::from(entry.internal));
    digest.add_ends(entry.name);
    digest.add_ends(entry.extra);
    digest.add_ends(entry.comment);
}

fn add_file(digest: &mut Digest, file: &StoredFile) {
    digest.add(u64::from(file.signature) ^ u64::from(file.version) << 32);
    digest.add(u64::from(file.flags) ^ u64::from(file.method) << 32);
    digest.add(u64::from(file.time) ^ u64::from(file.date) << 32);
    digest.add(u64::from(file.crc) ^ u64::from(file.name_len) << 32);
    digest.add(u64::from(file.packed) ^ u64::from(file.size) << 32);
    digest.add_ends(file.name);
    digest.add_ends(file.extra);
    digest.add_ends(file.contents);
}

fn add_archive(alloc: Global, archive: &[u8], digest: &mut Digest) {
    match read_archive(alloc, archive) {
        Ok(entries) => {
            digest.add(entries.len() as u64);
            for entry in &entries {
                add_entry(digest, entry);
                match read_file(archive, entry) {
                    Ok(file) => add_file(digest, &file),
                    Err(error) => add_zip_error(digest, &error),
                }
            }
        }
        Err(error) => add_zip_error(digest, &error),
    }
}

// Writes the files, and reads them.
fn copy_files(
    alloc: Global,
    files: &[StoredFile],
    target: &mut [u8],
    round: u64,
    digest: &mut Digest,
) {
    match write_archive(alloc, target, files) {
        Ok(size) => {
            let archive = target.get(..size).unwrap_or(b"");
            add_archive(alloc, archive, digest);
            digest.add_written(archive, round);
        }
        Err(error) => add_zip_error(digest, &error),
    }
}

// An archive without files, behind some other bytes, whose comment of 60,000 bytes is full of what
// looks like an end record.
fn make_comment(alloc: Global, random: &mut Random) -> Result<Vec<u8>, AllocError> {
    let mut bytes = Vec::new(alloc);
    push_letters(&mut bytes, random, BEFORE as u64)?;
    bytes.extend_from_slice(b"PK\x05\x06\0\0\0\0\0\0\0\0\0\0\0\0\0\0\0\0")?;
    bytes.extend_from_slice(&60_000u16.to_le_bytes())?;
    for _ in 0..5000 {
        bytes.extend_from_slice(b"PK\x05\x06\xff")?;
        bytes.push(low8(random.next()))?;
        bytes.extend_from_slice(b"PK\xff")?;
        bytes.push(low8(random.next()))?;
        bytes.extend_from_slice(b"PK")?;
    }
    Ok(bytes)
}

// Changes a byte behind each signature.
#[inline(never)]
fn change_comment(comment: &mut [u8], random: &mut Random) {
    let Some(behind) = comment.get_mut(BEFORE + 22..) else {
        return;
    };
    for part in behind.chunks_exact_mut(12) {
        if let Some(byte) = part.get_mut(5) {
            *byte = low8(random.next());
        }
    }
}

// Searches for the end of an archive, and reads it, each time with another comment and with other
// bytes before it.
fn add_comments(alloc: Global, comment: &mut [u8], random: &mut Random, digest: &mut Digest) {
    for _ in 0..2 {
        change_comment(comment, random);
        let start = random.next() as usize % BEFORE;
        match find_end(comment.get(start..).unwrap_or(b"")) {
            Some(place) => digest.add_as(15, place as u64),
            None => digest.add_as(16, 0),
        }
        change_comment(comment, random);
        let start = random.next() as usize % BEFORE;
        add_archive(alloc, comment.get(start..).unwrap_or(b""), digest);
    }
}

fn add_chunk_error(digest: &mut Digest, error: &ChunkError) {
    match error {
        ChunkError::Refused(error) => digest.add_error(error),
        ChunkError::BadChecksum { stated, counted } => {
            digest.add_as(17, u64::from(*stated) << 32 ^ u64::from(*counted))
        }
        ChunkError::TooLong(len) => digest.add_as(18, *len as u64),
    }
}

fn write_chunks(target: &mut [u8], pool: &Pool, random: &mut Random, digest: &mut Digest) -> usize {
    let mut offset = 0;
    for _ in 0..CHUNKS {
        let contents = pool.slice(random.next(), random.between(0, 1000));
        if let Err(error) = write_chunk(target, &mut offset, low32(random.next()), contents, &Sum) {
            add_chunk_error(digest, &error);
            break;
        }
    }
    offset
}

// Writes chunks, and reads them up to the end.
fn copy_chunks(
    target: &mut [u8],
    pool: &Pool,
    round: u64,
    random: &mut Random,
    digest: &mut Digest,
) {
    let end = write_chunks(target, pool, random, digest);
    let file = target.get(..end).unwrap_or(b"");
    digest.add_written(file, round);
    let mut offset = 0;
    for _ in 0..file.len() {
        match read_chunk(file, &mut offset, &Sum) {
            Ok(chunk) => {
                digest.add(u64::from(chunk.kind) << 32 ^ u64::from(chunk.crc));
                digest.add(u64::from(chunk.len));
                digest.add_ends(chunk.contents);
            }
            Err(error) => return add_chunk_error(digest, &error),
        }
    }
}

/// Makes files and chunks, writes and reads them, and searches for the end of an archive with a
/// long comment.
pub fn run(alloc: Global, seed: u64, rounds: u64, digest: &mut Digest) -> Result<(), AllocError> {
    let mut random = Random::new(seed ^ 0x3333);
    let mut pool = Pool {
        bytes: Vec::new(alloc),
    };
    for _ in 0..65_000 {
        pool.bytes.push((random.next() & 0xff) as u8)?;
    }
    let mut target = vec![in alloc; 0u8; 8_000_000]?;
    let mut comment = make_comment(alloc, &mut random)?;
    for round in 0..rounds {
        let files = make_files(alloc, &pool, &mut random)?;
        copy_files(
            alloc,
            files.as_slice(),
            target.as_mut_slice(),
            round,
            digest,
        );
        copy_chunks(target.as_mut_slice(), &pool, round, &mut random, digest);
        add_comments(alloc, comment.as_mut_slice(), &mut random, digest);
    }
    Ok(())
}
