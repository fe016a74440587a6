// Whether bytes are UTF-8, for texts that aren't ASCII. A table says for each byte which state
// follows each state, so that no branch depends on how many bytes a letter has, since texts mix
// them. ASCII between such letters is passed by 32 bytes at once.
ghost use Rattle.std.specs.Prelude.{◌≡◌, ◌<◌, ◌≤◌, IsTrue, IsUtf8};
ghost use Rattle.std.specs.Bool.{MatchBool};
ghost use Rattle.std.specs.Str.{IsAscii};
ghost use Rattle.scroll.specs.TextStates.{states_after, last_state};

use std::simd::prelude::*;

// The states after a byte: two octal digits for each state before it, from the lowest on. The
// states are 0, 6, .. 48; specs/TextStates.antt says what follows each of them.

// ASCII
const ASCII: u64 = 0o60_60_60_60_60_60_60_60_00;

// 80 to 8F, the second byte of a letter or a later one
const NEXT_80: u64 = 0o60_14_60_06_60_14_06_00_60;

// 90 to 9F
const NEXT_90: u64 = 0o60_60_14_06_60_14_06_00_60;

// A0 to BF
const NEXT_A0: u64 = 0o60_60_14_60_06_14_06_00_60;

// no byte of UTF-8
const NEVER: u64 = 0o60_60_60_60_60_60_60_60_60;

// C2 to DF, the first byte of two
const OF_TWO: u64 = 0o60_60_60_60_60_60_60_60_06;

// E0, the first byte of three
const FIRST_E0: u64 = 0o60_60_60_60_60_60_60_60_30;

// E1 to EF but ED
const OF_THREE: u64 = 0o60_60_60_60_60_60_60_60_14;

// ED
const FIRST_ED: u64 = 0o60_60_60_60_60_60_60_60_36;

// F0, the first byte of four
const FIRST_F0: u64 = 0o60_60_60_60_60_60_60_60_44;

// F1 to F3
const OF_FOUR: u64 = 0o60_60_60_60_60_60_60_60_22;

// F4
const FIRST_F4: u64 = 0o60_60_60_60_60_60_60_60_52;

#[rattlefmt::skip]
static STATES_AFTER: [u64; 256] = [
    ASCII, ASCII, ASCII, ASCII, ASCII, ASCII, ASCII, ASCII,
    ASCII, ASCII, ASCII, ASCII, ASCII, ASCII, ASCII, ASCII,
    ASCII, ASCII, ASCII, ASCII, ASCII, ASCII, ASCII, ASCII,
    ASCII, ASCII, ASCII, ASCII, ASCII, ASCII, ASCII, ASCII,
    ASCII, ASCII, ASCII, ASCII, ASCII, ASCII, ASCII, ASCII,
    ASCII, ASCII, ASCII, ASCII, ASCII, ASCII, ASCII, ASCII,
    ASCII, ASCII, ASCII, ASCII, ASCII, ASCII, ASCII, ASCII,
    ASCII, ASCII, ASCII, ASCII, ASCII, ASCII, ASCII, ASCII,
    ASCII, ASCII, ASCII, ASCII, ASCII, ASCII, ASCII, ASCII,
    ASCII, ASCII, ASCII, ASCII, ASCII, ASCII, ASCII, ASCII,
    ASCII, ASCII, ASCII, ASCII, ASCII, ASCII, ASCII, ASCII,
    ASCII, ASCII, ASCII, ASCII, ASCII, ASCII, ASCII, ASCII,
    ASCII, ASCII, ASCII, ASCII, ASCII, ASCII, ASCII, ASCII,
    ASCII, ASCII, ASCII, ASCII, ASCII, ASCII, ASCII, ASCII,
    ASCII, ASCII, ASCII, ASCII, ASCII, ASCII, ASCII, ASCII,
    ASCII, ASCII, ASCII, ASCII, ASCII, ASCII, ASCII, ASCII,
    NEXT_80, NEXT_80, NEXT_80, NEXT_80, NEXT_80, NEXT_80, NEXT_80, NEXT_80,
    NEXT_80, NEXT_80, NEXT_80, NEXT_80, NEXT_80, NEXT_80, NEXT_80, NEXT_80,
    NEXT_90, NEXT_90, NEXT_90, NEXT_90, NEXT_90, NEXT_90, NEXT_90, NEXT_90,
    NEXT_90, NEXT_90, NEXT_90, NEXT_90, NEXT_90, NEXT_90, NEXT_90, NEXT_90,
    NEXT_A0, NEXT_A0, NEXT_A0, NEXT_A0, NEXT_A0, NEXT_A0, NEXT_A0, NEXT_A0,
    NEXT_A0, NEXT_A0, NEXT_A0, NEXT_A0, NEXT_A0, NEXT_A0, NEXT_A0, NEXT_A0,
    NEXT_A0, NEXT_A0, NEXT_A0, NEXT_A0, NEXT_A0, NEXT_A0, NEXT_A0, NEXT_A0,
    NEXT_A0, NEXT_A0, NEXT_A0, NEXT_A0, NEXT_A0, NEXT_A0, NEXT_A0, NEXT_A0,
    NEVER, NEVER, OF_TWO, OF_TWO, OF_TWO, OF_TWO, OF_TWO, OF_TWO,
    OF_TWO, OF_TWO, OF_TWO, OF_TWO, OF_TWO, OF_TWO, OF_TWO, OF_TWO,
    OF_TWO, OF_TWO, OF_TWO, OF_TWO, OF_TWO, OF_TWO, OF_TWO, OF_TWO,
    OF_TWO, OF_TWO, OF_TWO, OF_TWO, OF_TWO, OF_TWO, OF_TWO, OF_TWO,
    FIRST_E0, OF_THREE, OF_THREE, OF_THREE, OF_THREE, OF_THREE, OF_THREE, OF_THREE,
    OF_THREE, OF_THREE, OF_THREE, OF_THREE, OF_THREE, FIRST_ED, OF_THREE, OF_THREE,
    FIRST_F0, OF_FOUR, OF_FOUR, OF_FOUR, FIRST_F4, NEVER, NEVER, NEVER,
    NEVER, NEVER, NEVER, NEVER, NEVER, NEVER, NEVER, NEVER,
];

// The state after what makes no text.
const WRONG: u64 = 48;

// From so many bytes on, a text needs a letter beyond ASCII in its middle, and from so many on two,
// to count as dense.
const MIDDLING: usize = 32;

const LONG: usize = 96;

/// Returns whether the bytes are UTF-8.
pub(crate) fn is_text(bytes: &[u8]) -> bool
    ensures { MatchBool result (IsUtf8 bytes.now) (¬ (IsUtf8 bytes.now)) }
{
    let mut state = 0;
    let (blocks, rest) = bytes.as_chunks::<32>();
    for (k, block) in blocks.iter().enumerate() {
        state = state_by_block(state, block);
        if state == WRONG {
            return false;
        }
    }
    state_by_bytes(state, rest) == 0
}

// Returns the state after a state and a block, which is passed at once if it is ASCII.
#[inline(always)]
fn state_by_block(start: u64, block: &[u8; 32]) -> u64
    requires { start < 64 }
    ensures state { result ≡ last_state start block.now }
    ensures small { result < 64 }
{
    if start == 0 && is_ascii(block) {
        return 0;
    }
    state_by_bytes(start, block)
}

// Returns the state after a state and some bytes. It isn't inlined, so that the test of a block
// stays a vector's: beside loads of its single bytes the vector would be put together from these.
#[inline(never)]
fn state_by_bytes(start: u64, bytes: &[u8]) -> u64
    requires { start < 64 }
    ensures state { result ≡ last_state start bytes.now }
    ensures small { result < 64 }
{
    // (the six lowest bits are the state)
    let mut word = start;
    for i in 0..bytes.len() {
        word = states_after(bytes[i]) >> (word & 63);
    }
    word & 63
}

// Returns the states after a byte.
#[inline(always)]
fn states_after(byte: u8) -> u64
    ensures { result ≡ states_after byte }
{
    STATES_AFTER[usize::from(byte)]
}

/// Returns whether letters beyond ASCII stand close together in bytes of which the first isn't
/// ASCII. If they do, their lengths often differ in a way that a processor can't predict, and
/// [`is_text`] takes less time than std's test; where ASCII follows a single letter, or the first
/// bytes are no letters, std's takes less. Looks at the first 17 bytes, and in the middle of a
/// longer text; where there are fewer, one letter is enough. The answer decides nothing but the
/// time.
#[inline(always)]
pub(crate) fn is_dense(bytes: &[u8]) -> bool {
    let Some((first, rest)) = bytes.split_first() else {
        return false;
    };
    if *first < 0xc2 || *first > 0xf4 {
        return false;
    }
    // (without the first byte, which the caller has loaded: beside it the vector would be put
    // together from single bytes)
    let Some(front) = rest.first_chunk::<16>() else {
        return matches!(rest, [second, ..] if *second & 0xc0 == 0x80);
    };
    let starts = starts_in(front);
    let later = beyond_ascii_in(front) & !starts;
    let after_starts = (starts << 1 | 1) & 0xffff;
    if starts == 0 || after_starts & !later != 0 {
        return false;
    }
    if bytes.len() < MIDDLING {
        return true;
    }
    match bytes[bytes.len() / 2..].first_chunk::<16>() {
        Some(middle) if bytes.len() < LONG => starts_in(middle) != 0,
        Some(middle) => starts_in(middle).count_ones() >= 2,
        None => false,
    }
}

// Returns at which bytes of a block a letter beyond ASCII may begin.
#[inline(always)]
fn starts_in(block: &[u8; 16]) -> u64 {
    Simd::from_array(*block)
        .simd_ge(Simd::splat(0xc0))
        .to_bitmask()
}

// Returns which bytes of a block aren't ASCII.
#[inline(always)]
fn beyond_ascii_in(block: &[u8; 16]) -> u64 {
    Simd::from_array(*block)
        .simd_ge(Simd::splat(0x80))
        .to_bitmask()
}

// Returns whether a block is ASCII.
#[inline(always)]
fn is_ascii<const N: usize>(block: &[u8; N]) -> bool
    requires { N ≤ 64 }
    ensures { IsTrue result → IsAscii block.now }
{
    let bytes = Simd::from_array(*block);
    bytes.simd_ge(Simd::splat(128)).to_bitmask() == 0
}
