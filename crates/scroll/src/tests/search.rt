// The search for a byte compared with a plain one, at every length that a vector, a word and a tail
// can leave.
use crate::Pread;
use crate::ctx::StrCtx;
use crate::search::{first_stop, index_of, narrow_index_of, near_index_of};
use crate::tests::results::check_eq;
use std::process::Abort;

static DELIMITERS: [u8; 5] = [0x00, 0x01, 0x7f, 0x80, 0xff];

// How the bytes before and after the delimiter differ from it: in the highest bit, in the lowest,
// in the lowest directly after an equal byte, where a subtraction borrows, and not at all after it,
// so that there is a second delimiter.
static DIFFERENCES: [(u8, u8); 4] = [(0x80, 0x80), (0x01, 0x01), (0x80, 0x01), (0x01, 0x00)];

// Returns the offset of the first byte that is the delimiter or no ASCII, or the length if there is
// none.
fn plain_stop(delimiter: u8, source: &[u8]) -> usize {
    for (index, byte) in source.iter().enumerate() {
        if *byte == delimiter || *byte > 0x7f {
            return index;
        }
    }
    source.len()
}

// Writes the delimiter at `index`, and bytes that differ from it everywhere else.
fn fill(bytes: &mut [u8], delimiter: u8, index: usize, before: u8, behind: u8) {
    for (i, byte) in bytes.iter_mut().enumerate() {
        *byte = if i < index {
            delimiter ^ before
        } else if i == index {
            delimiter
        } else {
            delimiter ^ behind
        };
    }
}

// Returns the text before the delimiter, or `None` if it isn't UTF-8.
fn text_before(delimiter: u8, source: &[u8]) -> Option<&str> {
    source.pread_with(0, StrCtx::Delimiter(delimiter)).ok()
}

// Expects that each search stops where a plain one does.
fn check_searches(rt: &impl Abort, delimiter: u8, index: usize, source: &[u8]) {
    let wanted = index.min(source.len());
    let found = (index_of(delimiter, source), first_stop(delimiter, source));
    check_eq(rt, found, (wanted, plain_stop(delimiter, source)));
    check_eq(rt, near_index_of(delimiter, source), wanted);
    check_eq(rt, narrow_index_of(delimiter, source), wanted);
    let text = str::from_utf8(&source[..wanted]).ok();
    check_eq(rt, text_before(delimiter, source), text);
}

#[test]
fn every_length_and_place(rt: HostRuntime) {
    let mut bytes = [0u8; 70];
    for &delimiter in &DELIMITERS {
        for &(before, behind) in &DIFFERENCES {
            for index in 0..71 {
                fill(&mut bytes, delimiter, index, before, behind);
                for len in 0..71 {
                    check_searches(&rt, delimiter, index, &bytes[..len]);
                }
            }
        }
    }
}

// Lengths at which wide blocks end, and what they leave.
static LENGTHS: [usize; 11] = [63, 64, 65, 95, 96, 127, 128, 129, 170, 192, 200];

#[test]
fn sources_of_several_wide_blocks(rt: HostRuntime) {
    let mut bytes = [0u8; 200];
    for &delimiter in &DELIMITERS {
        for index in 0..201 {
            // (without a second delimiter, and with many)
            for behind in [0x01, 0x00] {
                fill(&mut bytes, delimiter, index, 0x80, behind);
                for &len in &LENGTHS {
                    check_searches(&rt, delimiter, index, &bytes[..len]);
                }
            }
        }
    }
}

#[test]
fn texts_that_are_not_ascii(rt: HostRuntime) {
    // One character of two bytes, at each offset of a vector and after it; then the same, truncated
    // after its first byte.
    let rt = &rt;
    for index in 0..40 {
        let mut bytes = [b'a'; 50];
        bytes[index] = 0xc3;
        bytes[index + 1] = 0xa4;
        bytes[index + 5] = 0;
        let text = text_before(0, &bytes).unwrap_or_default();
        check_eq(rt, text.as_bytes(), &bytes[..index + 5]);
        check_eq(rt, text_before(0xa4, &bytes), None);
        check_eq(rt, first_stop(0, &bytes), index);
    }
}
