// The search for a byte: 64 or 32 bytes at a time, then eight, and the last ones one by one.
ghost use Rattle.std.specs.Prelude.{◌≡◌, ◌≤◌, ◌<◌, ◌*◌, ◌/◌, length, IfSome, IfNone};
ghost use Rattle.std.specs.List.{position_or_len};
ghost use Rattle.scroll.specs.Texts.{index_of, is_stop};

mod stops;

use crate::search::stops::{ByteOrNotAscii, OneByte, StopsIn};

/// Returns the offset of the first delimiter, or the length of the source if there is none.
///
/// Most names end within 64 bytes. So wide a block takes more instructions than a narrower one, but
/// no branch depends on where in it the name ends, which a processor would have to guess; and it is
/// searched where the caller is, without a call.
#[inline(always)]
pub(crate) fn index_of(delimiter: u8, source: &[u8]) -> usize
    ensures { result ≡ index_of delimiter source.now }
{
    let Some(block) = source.first_chunk::<64>() else {
        return near_index_of(delimiter, source);
    };
    let marks = OneByte(delimiter).marks(block);
    if marks != 0 {
        return marks.trailing_zeros() as usize;
    }
    64 + far_index_of(delimiter, &source[64..])
}

/// Returns what [`index_of`] does, by a call and by narrower blocks.
#[inline(never)]
pub(crate) fn near_index_of(delimiter: u8, source: &[u8]) -> usize
    ensures { result ≡ index_of delimiter source.now }
{
    narrow_index_of(delimiter, source)
}

/// Returns what [`index_of`] does, by narrower blocks and without a call.
#[inline(always)]
pub(crate) fn narrow_index_of(delimiter: u8, source: &[u8]) -> usize
    ensures { result ≡ index_of delimiter source.now }
{
    first(OneByte(delimiter), source)
}

// Returns what `index_of` does, by a call, 64 bytes at a time.
#[inline(never)]
#[tactic(auto, using(crate::proofs::lemmas::SearchLemmas::searches))]
fn far_index_of(delimiter: u8, source: &[u8]) -> usize
    ensures { result ≡ index_of delimiter source.now }
{
    if let Some(index) = first_in_blocks::<64, OneByte>(OneByte(delimiter), source) {
        return index;
    }
    let wide = source.len() / 64 * 64;
    wide + first(OneByte(delimiter), &source[wide..])
}

/// Returns the offset of the first byte that is the delimiter or isn't ASCII, or the length of the
/// source if there is none.
pub(crate) fn first_stop(delimiter: u8, source: &[u8]) -> usize
    ensures index { result ≡ position_or_len (is_stop delimiter) source.now }
    ensures within { result ≤ length source.now }
{
    first(ByteOrNotAscii(delimiter), source)
}

// Returns the offset of the first stop, or the length of the source if there is none.
#[inline(always)]
#[tactic(auto, using(crate::proofs::lemmas::SearchLemmas::searches))]
fn first<S: StopsIn<32> + StopsIn<8> + StopsIn<1>>(at: S, source: &[u8]) -> usize
    ensures index { result ≡ position_or_len (S.stops at) source.now }
    ensures within { result ≤ length source.now }
{
    if let Some(index) = first_in_blocks::<32, S>(at, source) {
        return index;
    }
    let wide = source.len() / 32 * 32;
    let rest = &source[wide..];
    if let Some(index) = first_in_blocks::<8, S>(at, rest) {
        return wide + index;
    }
    let narrow = rest.len() / 8 * 8;
    match first_in_blocks::<1, S>(at, &rest[narrow..]) {
        Some(index) => wide + narrow + index,
        None => source.len(),
    }
}

// Returns the offset of the first stop in the blocks of N bytes that the source begins with.
#[inline(always)]
fn first_in_blocks<const N: usize, S: StopsIn<N>>(at: S, source: &[u8]) -> Option<usize>
    requires width { (0 < N) × (N ≤ 64) }
    ensures index { IfSome result (λ index. index ≡ position_or_len (S.stops at) source.now) }
    ensures none { IfNone result (length source.now / N * N
        ≤ position_or_len (S.stops at) source.now) }
{
    let (blocks, _) = source.as_chunks::<N>();
    for (k, block) in blocks.iter().enumerate() {
        let marks = at.marks(block);
        if marks != 0 {
            return Some(k * N + marks.trailing_zeros() as usize);
        }
    }
    None
}
