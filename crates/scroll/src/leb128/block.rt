// LEB128 encodings within a word of eight bytes.
ghost use Rattle.std.specs.Prelude.{◌≡◌, ◌-◌, ◌<◌, ◌≤◌, ◌*◌, ◌^◌, nat_lt, pos, ◌-ℤ◌, if◌then◌else◌, IfSome, IfNone, MatchOption};
ghost use Rattle.std.specs.Int.{w64, to_le_bytes};
ghost use Rattle.scroll.specs.Leb128.{end_of, groups_value, ReadsGroups, ReadsSleb, ReadsUleb};

// The low seven bits of each byte.
const GROUPS: u64 = 0x7f7f_7f7f_7f7f_7f7f;

/// Returns the value of the unsigned encoding at the start of eight bytes, and its size in bytes,
/// or `None` where none of them ends it.
#[inline(always)]
pub fn uleb_block(b: [u8; 8]) -> Option<(u64, usize)>
    ensures read { IfSome result (λ read. ReadsUleb b read.0 read.1) }
    ensures none { IfNone result (8 ≤ end_of b) }
{
    groups_in(u64::from_le_bytes(b))
}

/// Returns the value of the signed encoding at the start of eight bytes, and its size in bytes, or
/// `None` where none of them ends it.
#[inline(always)]
pub fn sleb_block(b: [u8; 8]) -> Option<(i64, usize)>
    ensures read { IfSome result (λ read. ReadsSleb b read.0 read.1) }
    ensures none { IfNone result (8 ≤ end_of b) }
{
    signed_in(u64::from_le_bytes(b))
}

// Returns all eight groups of eight bytes as one number.
#[inline(always)]
pub(crate) fn block_groups(b: [u8; 8]) -> u64
    ensures { result ≡ groups_value b 8 }
{
    gathered(u64::from_le_bytes(b))
}

// Returns the groups up to the end of the encoding as one number, and how many there are.
// (`signed_in` is its twin.)
#[inline(always)]
#[tactic(auto, using(crate::proofs::lemmas::ShortBlockLemmas::one_byte, crate::proofs::lemmas::ShortBlockLemmas::two_bytes))]
fn groups_in(word: u64) -> Option<(u64, usize)>
    ensures { MatchOption result (8 ≤ end_of (to_le_bytes w64 word)) (λ read.
        ReadsGroups (to_le_bytes w64 word) read.0 read.1) }
{
    // Most encodings have one or two bytes: a predicted branch takes less time than waiting for a
    // count.
    if word & 0x80 == 0 {
        return Some((word & 0x7f, 1));
    }
    if word & 0x8000 == 0 {
        return Some((word & 0x7f | (word & 0x7f00) >> 1, 2));
    }
    counted_groups(word)
}

// Returns the signed number that the groups encode, and how many groups there are. It tests for one
// and two bytes itself, as its twin `groups_in` does: where it took the groups and their count from
// there, it would shift by a count.
#[inline(always)]
fn signed_in(word: u64) -> Option<(i64, usize)>
    ensures { MatchOption result (8 ≤ end_of (to_le_bytes w64 word)) (λ read.
        ReadsSleb (to_le_bytes w64 word) read.0 read.1) }
{
    // A shift by a constant takes one step, and a shift by a count takes three.
    if word & 0x80 == 0 {
        return Some((sign_extend(word & 0x7f, 1), 1));
    }
    if word & 0x8000 == 0 {
        return Some((sign_extend(word & 0x7f | (word & 0x7f00) >> 1, 2), 2));
    }
    let (groups, count) = counted_groups(word)?;
    Some((sign_extend(groups, count), count))
}

// Returns the groups up to the end, whose offset is computed.
#[inline(always)]
fn counted_groups(word: u64) -> Option<(u64, usize)>
    ensures { MatchOption result (8 ≤ end_of (to_le_bytes w64 word)) (λ read.
        ReadsGroups (to_le_bytes w64 word) read.0 read.1) }
{
    let filled = word | GROUPS;
    if filled == u64::MAX {
        return None;
    }
    // The carry goes up to the first high bit that was clear. It sets that bit and clears all bits
    // below it.
    let carried = filled + 1;
    let count = (carried << 1).trailing_zeros() as usize / 8;
    Some((gathered(word & !carried), count))
}

// Returns the low seven bits of the eight bytes next to each other: combined in pairs first, then
// in fours.
#[inline(always)]
#[tactic(auto, using(crate::proofs::lemmas::WordLemmas::gathered_word))]
fn gathered(word: u64) -> u64
    ensures { result ≡ groups_value (to_le_bytes w64 word) 8 }
{
    let groups = word & GROUPS;
    let pairs = groups.wrapping_add(groups & 0x007f_007f_007f_007f) >> 1;
    let low = pairs & 0x0000_3fff_0000_3fff;
    let fours = pairs.wrapping_add(low.wrapping_mul(3)) >> 2;
    fours & 0x0000_0000_0fff_ffff | (fours & 0x0fff_ffff_0000_0000) >> 4
}

// Sign-extends the number that `count` groups are. Flips the sign bit of the last group and then
// subtracts it: where it was set, this subtracts the power of 128. One shift by a count, and no
// branch.
#[inline(always)]
pub(crate) fn sign_extend(groups: u64, count: usize) -> i64
    requires some { 1 ≤ count }
    requires few { count ≤ 9 }
    requires low { groups < 128 ^ count }
    ensures { result ≡ (if nat_lt groups
        (64 * 128 ^ (count - 1)) then pos groups else pos groups -ℤ pos (128 ^ count)) }
{
    let sign = 0x40u64 << (7 * (count - 1));
    (groups ^ sign).wrapping_sub(sign).cast_signed()
}
