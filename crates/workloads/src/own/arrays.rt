// Arrays of four numbers and of three hundred, and numbers that are read into a slice.
use crate::inputs::{Digest, Random, add_to_words, low32};
use scroll::{BE, LE, Pread, Result};
use std::alloc::{AllocError, Global};
use std::result;

const SIZE: usize = 200_008;

// The arrays of four numbers end here, and the last one of each kind is cut off.
const SHORT_END: usize = 80_005;

fn add_array(digest: &mut Digest, numbers: &[u16]) {
    for number in numbers {
        digest.add(u64::from(*number));
    }
}

// Arrays of four numbers one after another, up to the one that is refused.
#[inline(never)]
fn add_short(bytes: &[u8], digest: &mut Digest) {
    let mut offset = 0;
    for _ in 0..bytes.len() {
        match bytes.gread_with::<[u16; 4]>(&mut offset, LE) {
            Ok(numbers) => {
                let [first, second, third, fourth] = numbers;
                let low = u64::from(first) ^ u64::from(second) << 16;
                digest.add(low ^ u64::from(third) << 32 ^ u64::from(fourth) << 48);
            }
            Err(error) => {
                digest.add(offset as u64);
                return digest.add_error(&error);
            }
        }
    }
}

// The same for arrays of three hundred.
#[inline(never)]
fn add_long(bytes: &[u8], digest: &mut Digest) {
    let mut offset = 0;
    for _ in 0..bytes.len() {
        match bytes.gread_with::<[u16; 300]>(&mut offset, BE) {
            Ok(numbers) => add_array(digest, &numbers),
            Err(error) => {
                digest.add(offset as u64);
                return digest.add_error(&error);
            }
        }
    }
}

// Fills a slice again and again, the last time in part.
#[inline(never)]
fn fill_slice(bytes: &[u8], numbers: &mut [u16], digest: &mut Digest) -> Result<()> {
    let mut offset = 0;
    for _ in 0..bytes.len() {
        let filled: Result<()> = bytes.gread_inout(&mut offset, numbers);
        add_array(digest, numbers);
        filled?;
    }
    Ok(())
}

/// Changes the bytes, and reads them as arrays.
pub fn run(
    alloc: Global,
    seed: u64,
    rounds: u64,
    digest: &mut Digest,
) -> result::Result<(), AllocError> {
    let mut random = Random::new(seed ^ 0x4444);
    let mut bytes = Vec::new(alloc);
    for _ in 0..SIZE / 4 {
        bytes.extend_from_slice(&low32(random.next()).to_le_bytes())?;
    }
    let odd = random.next() << 32 | random.next() | 1;
    let mut numbers = vec![in alloc; 0u16; 500]?;
    for round in 0..rounds {
        add_to_words(bytes.as_mut_slice(), odd);
        add_short(bytes.get(..SHORT_END).unwrap_or(b""), digest);
        let rest = bytes.get(SHORT_END..).unwrap_or(b"");
        add_long(rest, digest);
        if let Err(error) = fill_slice(rest, numbers.as_mut_slice(), digest) {
            digest.add_error(&error);
        }
    }
    Ok(())
}
