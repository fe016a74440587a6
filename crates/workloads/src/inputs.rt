// What the jobs share: random numbers, digests, and bytes of a file in the making.
use scroll::{Error, Sleb128, Uleb128};
use scroll_formats::At;
use std::alloc::AllocError;
use std::io;
use std::io::ErrorKind;

/// A linear congruential generator with the multiplier of D. E. Knuth's MMIX, of whose state the
/// upper half is given.
#[derive(Drop)]
pub struct Random {
    state: u64,
}

impl Random {
    /// Returns the generator of a seed.
    pub fn new(seed: u64) -> Random {
        let mut random = Random {
            state: seed ^ 0x9e37_79b9_7f4a_7c15,
        };
        let _first = random.next();
        random
    }

    /// Returns the next number of 32 bits.
    #[inline]
    pub fn next(&mut self) -> u64 {
        self.state = self
            .state
            .wrapping_mul(6_364_136_223_846_793_005)
            .wrapping_add(1_442_695_040_888_963_407);
        self.state >> 32
    }

    /// Returns a number from `low` to `high`.
    #[inline]
    pub fn between(&mut self, low: u64, high: u64) -> u64 {
        let range = high.saturating_sub(low).saturating_add(1);
        low.wrapping_add(self.next() % range.max(1))
    }
}

/// A sum of numbers and the sum of these sums, as in Fletcher's checksum: it depends on the order.
#[derive(Drop)]
pub struct Digest {
    sum: u64,
    sums: u64,
}

impl Digest {
    /// Returns the digest of no numbers.
    pub fn new() -> Digest {
        Digest { sum: 1, sums: 0 }
    }

    /// Adds a number.
    #[inline(always)]
    pub fn add(&mut self, number: u64) {
        self.sum = self.sum.wrapping_add(number);
        self.sums = self.sums.wrapping_add(self.sum);
    }

    /// Adds a number of a kind, so that what differs in its kind alone differs in the digest.
    #[inline(always)]
    pub fn add_as(&mut self, kind: u64, number: u64) {
        self.add(number ^ kind.wrapping_mul(0x9e37_79b9_7f4a_7c15));
    }

    /// Adds an error: its kind, and what it says.
    pub fn add_error(&mut self, error: &Error) {
        match error {
            Error::TooBig { size, len } => {
                self.add_as(1, *size as u64);
                self.add(*len as u64);
            }
            Error::BadOffset(offset) => self.add_as(2, *offset as u64),
            Error::BadInput { size, msg } => {
                self.add_as(3, *size as u64);
                self.add_ends(msg.as_bytes());
            }
            Error::Custom(text) => self.add_as(4, text.len() as u64),
            Error::IO(error) => self.add_io_error(error),
            Error::NoMemory => self.add_as(5, 0),
        }
    }

    /// Adds the error of a stream, by its kind.
    pub fn add_io_error(&mut self, error: &io::Error) {
        let kind = match error.kind() {
            ErrorKind::UnexpectedEof => 0,
            ErrorKind::WriteZero => 1,
            ErrorKind::OutOfMemory => 2,
            _ => 3,
        };
        self.add_as(6, kind);
    }

    /// Adds an error, and the offset at which it came.
    pub fn add_located(&mut self, located: &At<Error>) {
        self.add_as(7, located.offset as u64);
        self.add_error(&located.error);
    }

    /// Adds the bytes that a round wrote, by words: all of them in every sixteenth round, and else
    /// one of 64, since to look at all of them takes as long as to write them. The last eight bytes
    /// are always among them.
    pub fn add_written(&mut self, bytes: &[u8], round: u64) {
        let (start, size) = if round % 16 == 0 {
            (0, 8)
        } else {
            ((round % 64) as usize * 8, 512)
        };
        let mut total: u64 = 0;
        for part in bytes.get(start..).unwrap_or(b"").chunks_exact(size) {
            if let Some(word) = part.first_chunk() {
                total = total.rotate_left(1) ^ u64::from_le_bytes(*word);
            }
        }
        for byte in bytes.iter().rev().take(8) {
            total = total.rotate_left(8) ^ u64::from(*byte);
        }
        self.add(total);
        self.add(bytes.len() as u64);
    }

    /// Adds the ends of bytes, and their length.
    #[inline(always)]
    pub fn add_ends(&mut self, bytes: &[u8]) {
        let first = bytes.first().copied().unwrap_or(0);
        let last = bytes.last().copied().unwrap_or(0);
        self.add((bytes.len() as u64) << 16 | u64::from(first) << 8 | u64::from(last));
    }

    /// Adds an unsigned number in LEB128, with the size of its encoding.
    #[inline(always)]
    pub fn add_unsigned(&mut self, number: Uleb128) {
        self.add(u64::from(number) ^ (number.size() as u64) << 56);
    }

    /// Adds a signed number in LEB128, with the size of its encoding.
    #[inline(always)]
    pub fn add_signed(&mut self, number: Sleb128) {
        self.add(i64::from(number).cast_unsigned() ^ (number.size() as u64) << 56);
    }

    /// Returns the digest.
    pub fn value(&self) -> u64 {
        self.sum ^ self.sums.rotate_left(32)
    }
}

/// Returns the lowest 8 bits of a number.
#[inline(always)]
pub fn low8(number: u64) -> u8 {
    (number & 0xff) as u8
}

/// Returns the lowest 16 bits of a number.
#[inline(always)]
pub fn low16(number: u64) -> u16 {
    (number & 0xffff) as u16
}

/// Returns the lowest 32 bits of a number.
#[inline(always)]
pub fn low32(number: u64) -> u32 {
    (number & 0xffff_ffff) as u32
}

/// Appends letters.
pub fn push_letters(
    bytes: &mut Vec<u8>,
    random: &mut Random,
    count: u64,
) -> Result<(), AllocError> {
    for _ in 0..count {
        bytes.push(b'a' + (random.next() % 26) as u8)?;
    }
    Ok(())
}

/// Appends a number in little-endian order.
pub fn push_number(bytes: &mut Vec<u8>, number: u64, size: usize) -> Result<(), AllocError> {
    for byte in number.to_le_bytes().iter().take(size) {
        bytes.push(*byte)?;
    }
    Ok(())
}

/// Appends a number in LEB128, with at least so many bytes.
pub fn push_leb128(bytes: &mut Vec<u8>, number: u64, least: usize) -> Result<(), AllocError> {
    let mut left = number;
    for i in 0..10 {
        let group = (left & 0x7f) as u8;
        left >>= 7;
        if left == 0 && i + 1 >= least {
            return Ok(bytes.push(group)?);
        }
        bytes.push(group | 0x80)?;
    }
    Ok(())
}

/// Changes the byte at each of these places by random bits of a mask, so that bytes with many of
/// them are others in each round.
#[inline(never)]
pub fn change_all(bytes: &mut [u8], places: &[usize], random: &mut Random, mask: u8) {
    for place in places {
        if let Some(byte) = bytes.get_mut(*place) {
            *byte ^= low8(random.next()) & mask;
        }
    }
}

/// Adds an odd number to each word, so that one which nothing else changes is never as before.
#[inline(never)]
pub fn add_to_words(bytes: &mut [u8], odd: u64) {
    for word in bytes.chunks_exact_mut(8) {
        if let Some(word) = word.as_mut_array() {
            *word = u64::from_le_bytes(*word).wrapping_add(odd).to_le_bytes();
        }
    }
}

/// Writes the number of a round over the last two bytes, so that every end of at least two bytes is
/// another in each round.
pub fn number_end(bytes: &mut [u8], round: u64) {
    if let Some(end) = bytes.last_chunk_mut() {
        *end = low16(round).to_le_bytes();
    }
}
