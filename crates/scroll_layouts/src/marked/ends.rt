// What ends a list.
ghost use Rattle.std.specs.Prelude.{◌≡◌, ◌≤◌, ◌<◌, [], ◌∷◌, length, Some, None, IfSome};
ghost use Rattle.scroll_layouts.specs.ListEnds.{bytes_mark, zero_mark, two_zeros_mark, name_mark};
ghost use Rattle.scroll_layouts.specs.MarkSizes.{zero_size, two_zeros_size, name_size};
ghost use Rattle.scroll_layouts.specs.Marks.{Mark};

use scroll::Uleb128;
use scroll::ctx::TryFromCtx;

/// A kind of mark.
///
/// From `crates/scroll_layouts/src/tests/many.rt`, whose lists end with a zero byte:
///
/// ```rust
/// impl EndMark for StoredFiles {
///     ghost mark = { bytes_mark (0 ∷ []) };
///
///     fn mark_size(from: &[u8]) -> Option<usize>
///         ensures { result ≡ (bytes_mark (0 ∷ [])).size from.now }
///     {
///         begins_with(from, &[0])
///     }
/// }
/// ```
pub trait EndMark {
    // The size of the mark that some bytes begin with, and its laws.
    ghost mark: { Mark };

    /// Returns the size in bytes of the mark at the start of `from`, or `None` if `from` doesn't
    /// begin with one.
    fn mark_size(from: &[u8]) -> Option<usize>
        ensures { result ≡ mark.size from.now };
}

/// Returns the length of `mark` if `from` begins with it: what a mark of fixed bytes answers.
#[inline(always)]
pub fn begins_with(from: &[u8], mark: &[u8]) -> Option<usize>
    ensures size { result ≡ (bytes_mark mark.now).size from.now }
{
    if from.starts_with(mark) {
        Some(mark.len())
    } else {
        None
    }
}

/// A number in LEB128 that is zero, however padded.
pub struct ZeroUleb;

impl EndMark for ZeroUleb {
    ghost mark = { zero_mark };

    #[inline(always)]
    fn mark_size(from: &[u8]) -> Option<usize>
        ensures { result ≡ zero_mark.size from.now }
    {
        zero_size(from)
    }
}

/// Two numbers in LEB128 that are zero, however padded.
pub struct TwoZeroUlebs;

impl EndMark for TwoZeroUlebs {
    ghost mark = { two_zeros_mark };

    #[inline(always)]
    fn mark_size(from: &[u8]) -> Option<usize>
        ensures { result ≡ two_zeros_mark.size from.now }
    {
        two_zeros_size(from)
    }
}

/// The end of a name in DNS (RFC 1035, section 4.1.4): a zero byte; or a pointer, two bytes of
/// which the first has its two highest bits.
pub struct NameEnd;

impl EndMark for NameEnd {
    ghost mark = { name_mark };

    #[inline(always)]
    fn mark_size(from: &[u8]) -> Option<usize>
        ensures { result ≡ name_mark.size from.now }
    {
        name_size(from)
    }
}

// Returns the size of the end of a name that `from` begins with.
#[inline(always)]
fn name_size(from: &[u8]) -> Option<usize>
    ensures size { result ≡ name_size from.now }
{
    match from {
        [0, ..] => Some(1),
        [first, _, ..] if *first >= 192 => Some(2),
        _ => None,
    }
}

// Returns the size of the number in LEB128 at the start of `from` if it is zero, however padded.
#[inline(always)]
fn zero_size(from: &[u8]) -> Option<usize>
    ensures size { result ≡ zero_size from.now }
    ensures inside { IfSome result (λ n. n ≤ length from.now) }
{
    // Most numbers have a bit of their value in two bytes, and then aren't zero, whatever follows.
    let first = *from.first()?;
    if first & 0x7f != 0 {
        return None;
    }
    if first == 0 {
        return Some(1);
    }
    let second = *from.get(1)?;
    if second & 0x7f != 0 {
        return None;
    }
    padded_zero_size(from)
}

// Returns what `zero_size` does, by decoding the number. (Few numbers begin so. If it were inlined,
// or not marked as cold, the loops over lists would keep their values in memory.)
#[cold]
#[inline(never)]
fn padded_zero_size(from: &[u8]) -> Option<usize>
    ensures size { result ≡ zero_size from.now }
    ensures inside { IfSome result (λ n. n ≤ length from.now) }
{
    let (number, size) = Uleb128::try_from_ctx(from, ()).ok()?;
    if u64::from(number) == 0 {
        Some(size)
    } else {
        None
    }
}

// Returns the size of the two numbers in LEB128 at the start of `from` if both are zero.
#[inline(always)]
fn two_zeros_size(from: &[u8]) -> Option<usize>
    ensures size { result ≡ two_zeros_size from.now }
{
    let first = zero_size(from)?;
    let second = zero_size(&from[first..])?;
    Some(first + second)
}
