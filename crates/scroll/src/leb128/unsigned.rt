// Unsigned numbers in LEB128.
ghost use Rattle.std.specs.Prelude.{◌≡◌, ◌↔◌, ◌==◌, ◌<◌, ◌^◌, IsTrue};
ghost use Rattle.std.proofs.Common.{rules};
ghost use Rattle.std.specs.Cmp.Rules.{comparing};
ghost use Rattle.scroll.specs.Leb128.{counted_eq, unsigned_of};
ghost use Rattle.scroll.specs.Encoding.{HasEncoding};

use super::counted::{Leb128, LebNumber};
use super::uleb_loads;
use super::write::{put_groups, shortest_count};
use crate::error::Result;
use crate::loads::Loads;

/// An unsigned [`Leb128`].
///
/// ```rust
/// let bytes: [u8; 3] = [0x82, 0x01, 0xff];
/// let number: Uleb128 = bytes[..].pread(0)?;
/// assert_eq!(rt; u64::from(number), 130);
/// assert_eq!(rt; number.size(), 2);
///
/// let zero: &[u8] = &[0x80, 0x00];
/// let padded: Uleb128 = zero.pread(0)?;
/// assert!(rt; padded != Uleb128::shortest(0));
/// let truncated: &[u8] = &[0xff, 0x82];
/// assert!(rt; matches!(truncated.pread::<Uleb128>(0), Err(Error::TooBig { size: 1, len: 0 })));
/// let long = [0x80u8; 11];
/// let failed = long[..].pread::<Uleb128>(0);
/// assert!(rt; matches!(failed, Err(Error::BadInput { size: 11, msg: "failed to parse" })));
/// ```
pub type Uleb128 = Leb128<u64>;

impl LebNumber for u64 {
    ghost value_of = { unsigned_of };

    ghost fits = { λ v. v < 2 ^ 64 };

    ghost has = { HasEncoding };

    ghost form = { λ v n. v };

    #[inline(always)]
    fn name() -> &'static str {
        "Uleb128"
    }

    #[inline(always)]
    fn read(src: &mut Loads<'_>) -> Result<(u64, usize)> {
        uleb_loads(src)
    }

    #[inline(always)]
    fn shortest(self) -> usize {
        shortest_count(self)
    }

    #[inline(always)]
    fn put(self, dst: &mut [u8], count: usize) -> Result<usize> {
        put_groups(dst, self, (self >> 63) as u8, count)
    }
}

/// Equal are two numbers whose values are equal and whose encodings have the same length.
impl PartialEq for Uleb128 {
    ghost eq = { counted_eq ◌==◌ };

    ghost laws = { Prim.search (comparing, rules) };

    #[inline]
    fn eq(&self, other: &Uleb128) -> bool
        ensures answer { result ≡ counted_eq ◌==◌ self.now other.now }
        ensures same { IsTrue result ↔ (self.now ≡ other.now) }
    {
        self.value == other.value && self.count == other.count
    }
}

impl From<Uleb128> for u64 {
    ghost from_gives = { λ number x. x ≡ number.value };

    /// Returns the value.
    #[inline(always)]
    fn from(number: Uleb128) -> u64 {
        number.value
    }
}
