// Counts by powers of two.
ghost use Rattle.std.specs.Prelude.{◌≡◌, ◌-◌, ◌*◌, ◌^◌, min};

/// Returns `number << bits`, or the greatest `usize` if that doesn't fit.
///
/// ```rust
/// assert_eq!(rt; shifted(3, 8), 768);
/// assert_eq!(rt; shifted(1, 64), usize::MAX);
/// ```
#[inline(always)]
pub fn shifted(number: usize, bits: usize) -> usize
    ensures { result ≡ min (number * 2 ^ bits) (2 ^ 64 - 1) }
{
    if number == 0 {
        0
    } else if bits < 64 {
        number.saturating_mul(1 << bits)
    } else {
        usize::MAX
    }
}
