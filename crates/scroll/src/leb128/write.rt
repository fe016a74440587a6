// Writes of LEB128 encodings.
ghost use Rattle.std.specs.Prelude.{◌≡◌, ℕ, ◌+◌, ◌-◌, ◌*◌, ◌/◌, ◌%◌, ◌^◌, ◌<◌, ◌≤◌, ◌++◌, length, drop, slice_index, IfOk, IfErr};
ghost use Rattle.scroll.specs.Bytes.{sum_below, WritesPrefix, FailsShort};
ghost use Rattle.scroll.specs.Encoding.{encoding, encoded_byte, HoldsGroups, ten_groups, magnitude_bits, IsLeast};

use crate::error::{Result, check_room};

// Returns the least number of groups that hold `value`.
#[inline(always)]
pub(crate) fn shortest_count(value: u64) -> usize
    ensures { IsLeast (HoldsGroups value) result }
{
    // Most numbers have one byte, and a write tests for one byte first: the two tests become one
    // jump.
    if value < 0x80 {
        1
    } else {
        count_by_top_bit(value)
    }
}

// Returns the shortest count of a value of 128 or more, from the position of its highest digit.
#[inline(always)]
fn count_by_top_bit(value: u64) -> usize
    ensures { IsLeast (HoldsGroups value) result }
{
    // The position of the highest set bit. Seven positions make a group: for positions up to 63
    // this is index / 7 + 1.
    let index = 63 - (value | 1).leading_zeros() as usize;
    (index * 9 + 73) / 64
}

// Returns the bits of a number, inverted if it is negative. A signed number takes as many groups as
// twice the result.
#[inline(always)]
pub(crate) fn to_magnitude(value: i64) -> u64
    ensures { result ≡ magnitude_bits value }
{
    if value < 0 {
        (!value).cast_unsigned()
    } else {
        value.cast_unsigned()
    }
}

// Writes an encoding of `count` groups to the start of a target, and returns `count`. The first
// nine groups are those of `low`, and the tenth is `tenth`. A shorter target returns `TooBig`, and
// is unchanged.
#[inline(always)]
pub(crate) fn put_groups(dst: &mut [u8], low: u64, tenth: u8, count: usize) -> Result<usize>
    requires group { tenth < 128 }
    requires some { 1 ≤ count }
    requires few { count ≤ 10 }
    ensures wrote { IfOk result (WritesPrefix count
        (encoding (ten_groups low tenth % 128 ^ count) count) dst.old dst.new) }
    ensures refused { IfErr result (FailsShort count dst.old dst.new) }
{
    // This comes before the check for room, so that the jump that found a count of one leads here.
    if count == 1 {
        check_room(1, dst.len())?;
        put_one(dst, low, tenth);
        return Ok(1);
    }
    check_room(count, dst.len())?;
    if count <= 3 {
        put_short(dst, low, tenth, count);
    } else if count <= 8 {
        put_words(dst, low, tenth, count);
    } else {
        put_long(dst, low, tenth, count);
    }
    Ok(count)
}

// Writes an encoding of one byte.
#[inline(always)]
fn put_one(dst: &mut [u8], low: u64, tenth: u8)
    requires group { tenth < 128 }
    requires room { 1 ≤ length dst.old }
    ensures { dst.new ≡ encoding (ten_groups low tenth % 128 ^ 1) 1 ++ drop 1 dst.old }
{
    dst[0] = byte_of(low, tenth, 1, 0);
}

// Writes an encoding of two or three bytes without a branch on the length: the second byte is
// written twice if it is the last.
#[inline(always)]
fn put_short(dst: &mut [u8], low: u64, tenth: u8, count: usize)
    requires group { tenth < 128 }
    requires some { 2 ≤ count }
    requires few { count ≤ 3 }
    requires room { count ≤ length dst.old }
    ensures { dst.new ≡ encoding (ten_groups low tenth % 128 ^ count) count ++ drop count dst.old }
{
    let last = last_of_short(low, tenth, count);
    dst[0] = byte_of(low, tenth, 3, 0);
    dst[1] = byte_of(low, tenth, 3, 1);
    dst[count - 1] = last;
}

// Returns the last byte of an encoding of two or three bytes.
#[inline(always)]
fn last_of_short(low: u64, tenth: u8, count: usize) -> u8
    requires group { tenth < 128 }
    requires some { 2 ≤ count }
    requires few { count ≤ 3 }
    ensures { result ≡ encoded_byte (ten_groups low tenth % 128 ^ count) count (count - 1) }
{
    if count == 2 {
        byte_of(low, tenth, 2, 1)
    } else {
        byte_of(low, tenth, 3, 2)
    }
}

// Writes an encoding of four to eight bytes by two words, which may overlap.
#[inline(always)]
fn put_words(dst: &mut [u8], low: u64, tenth: u8, count: usize)
    requires some { 4 ≤ count }
    requires few { count ≤ 8 }
    requires room { count ≤ length dst.old }
    ensures { dst.new ≡ encoding (ten_groups low tenth % 128 ^ count) count ++ drop count dst.old }
{
    let last = count - 4;
    put_four(dst, 0, open_groups(low));
    put_four(dst, last, last_groups(low >> (7 * last)));
}

// Writes an encoding of nine or ten bytes.
#[inline(always)]
fn put_long(dst: &mut [u8], low: u64, tenth: u8, count: usize)
    requires group { tenth < 128 }
    requires some { 9 ≤ count }
    requires few { count ≤ 10 }
    requires room { count ≤ length dst.old }
    ensures { dst.new ≡ encoding (ten_groups low tenth % 128 ^ count) count ++ drop count dst.old }
{
    put_four(dst, 0, open_groups(low));
    put_four(dst, 4, open_groups(low >> 28));
    dst[8] = byte_of(low, tenth, count, 8);
    if count == 10 {
        dst[9] = byte_of(low, tenth, count, 9);
    }
}

// Writes four bytes at an offset.
#[inline(always)]
fn put_four(dst: &mut [u8], at: usize, bytes: [u8; 4])
    requires { at + 4 ≤ length dst.old }
    ensures put { (k : ℕ) → k < 4 → slice_index dst.new (at + k) ≡ slice_index bytes k }
    ensures before { (k : ℕ) → k < at → slice_index dst.new k ≡ slice_index dst.old k }
    ensures after { drop (at + 4) dst.new ≡ drop (at + 4) dst.old }
{
    fill_four(&mut dst[at..at + 4], bytes);
}

// Fills four bytes by one store, where `copy_from_slice` would first test whether source and target
// overlap.
#[inline(always)]
fn fill_four(dst: &mut [u8], bytes: [u8; 4])
    requires { length dst.old ≡ 4 }
    ensures { dst.new ≡ bytes }
{
    *dst.as_mut_array().unwrap() = bytes;
}

// Returns the lowest four groups, each with the bit that says that more groups follow.
#[inline(always)]
#[tactic(auto, using(crate::proofs::lemmas::LebWordLemmas::open_bytes))]
fn open_groups(low: u64) -> [u8; 4]
    ensures { (k : ℕ) → k < 4 → slice_index result k ≡ 128 + low / 128 ^ k % 128 }
{
    (spread(low) | 0x8080_8080).to_le_bytes()
}

// Returns the lowest four groups, the last of which ends the encoding.
#[inline(always)]
#[tactic(auto, using(crate::proofs::lemmas::LebWordLemmas::last_bytes))]
fn last_groups(low: u64) -> [u8; 4]
    ensures open { (k : ℕ) → k < 3 → slice_index result k ≡ 128 + low / 128 ^ k % 128 }
    ensures last { slice_index result 3 ≡ low / 128 ^ 3 % 128 }
{
    (spread(low) | 0x0080_8080).to_le_bytes()
}

// Returns the lowest four groups, one per byte.
#[inline(always)]
#[tactic(auto, using(crate::proofs::lemmas::LebWordLemmas::spread_word))]
fn spread(low: u64) -> u32
    ensures { result ≡ sum_below (λ i. low / 128 ^ i % 128 * 256 ^ i) 4 }
{
    let groups = (low & 0x0fff_ffff) as u32;
    let pairs = groups.wrapping_add((groups & 0x0fff_c000).wrapping_mul(3));
    pairs.wrapping_add(pairs & 0x3f80_3f80)
}

// Returns byte `i` of an encoding.
#[inline(always)]
fn byte_of(low: u64, tenth: u8, count: usize, i: usize) -> u8
    requires group { tenth < 128 }
    requires within { i < count }
    requires few { count ≤ 10 }
    ensures { result ≡ encoded_byte (ten_groups low tenth % 128 ^ count) count i }
{
    let group = if i < 9 {
        (low >> (7 * i) & 0x7f) as u8
    } else {
        tenth
    };
    if i + 1 < count { group | 0x80 } else { group }
}
