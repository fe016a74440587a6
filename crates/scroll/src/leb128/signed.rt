// Signed numbers in LEB128.
ghost use Rattle.std.specs.Prelude.{◌≡◌, ◌↔◌, FitsSigned, IsTrue};
ghost use Rattle.std.proofs.Common.{rules};
ghost use Rattle.std.specs.Int.{w64};
ghost use Rattle.std.specs.Ordering.{int_eq};
ghost use Rattle.std.specs.Cmp.Rules.{comparing};
ghost use Rattle.scroll.specs.Leb128.{counted_eq, signed_of};
ghost use Rattle.scroll.specs.Encoding.{HasSignedEncoding, unsigned_form};

use super::counted::{Leb128, LebNumber};
use super::sleb_loads;
use super::write::{put_groups, shortest_count, to_magnitude};
use crate::error::Result;
use crate::loads::Loads;

/// A signed [`Leb128`].
///
/// Its groups are in two's complement: the value is negative if the second highest bit of the last
/// byte is set.
///
/// ```rust
/// let bytes: [u8; 3] = [0xff, 0x7e, 0x00];
/// let number: Sleb128 = bytes[..].pread(0)?;
/// assert_eq!(rt; i64::from(number), -129);
/// assert_eq!(rt; number.size(), 2);
/// let bytes: [u8; 3] = [0x80, 0x80, 0x40];
/// assert_eq!(rt; i64::from(bytes[..].pread::<Sleb128>(0)?), -1048576);
/// ```
pub type Sleb128 = Leb128<i64>;

impl LebNumber for i64 {
    ghost value_of = { signed_of };

    ghost fits = { FitsSigned w64 };

    ghost has = { HasSignedEncoding };

    ghost form = { unsigned_form };

    #[inline(always)]
    fn name() -> &'static str {
        "Sleb128"
    }

    #[inline(always)]
    fn read(src: &mut Loads<'_>) -> Result<(i64, usize)> {
        sleb_loads(src)
    }

    #[inline(always)]
    fn shortest(self) -> usize {
        shortest_count(to_magnitude(self) << 1)
    }

    #[inline(always)]
    fn put(self, dst: &mut [u8], count: usize) -> Result<usize> {
        // Above the highest digit every bit is the sign.
        let tenth = if self < 0 { 0x7f } else { 0 };
        put_groups(dst, self.cast_unsigned(), tenth, count)
    }
}

/// Equal are two numbers whose values are equal and whose encodings have the same length.
impl PartialEq for Sleb128 {
    ghost eq = { counted_eq int_eq };

    ghost laws = { Prim.search (comparing, rules) };

    #[inline]
    fn eq(&self, other: &Sleb128) -> bool
        ensures answer { result ≡ counted_eq int_eq self.now other.now }
        ensures same { IsTrue result ↔ (self.now ≡ other.now) }
    {
        self.value == other.value && self.count == other.count
    }
}

impl From<Sleb128> for i64 {
    ghost from_gives = { λ number x. x ≡ number.value };

    /// Returns the value.
    #[inline(always)]
    fn from(number: Sleb128) -> i64 {
        number.value
    }
}
