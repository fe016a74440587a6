// Numbers in LEB128. (The types of `scroll` can't be named in a bound yet.)
ghost use Rattle.std.specs.Prelude.{◌≡◌};
ghost use Rattle.scroll.specs.Encoding.{HasEncoding, HasSignedEncoding, IsLeast};
ghost use Rattle.scroll_layouts.specs.Varints.{zigzag};

mod parts;
mod zigzags;

use self::zigzags::to_zigzag;
use scroll::{Sleb128, Uleb128};

/// An unsigned number of 64 bits in LEB128, with the length of its encoding, from 1 to 10 bytes.
///
/// ```rust
/// let code = Uleb::shortest(300);
/// assert_eq!(rt; (code.value, code.count), (300, 2));
/// ```
#[derive(Clone, Copy, Debug)]
pub struct Uleb {
    /// The number.
    pub value: u64,
    /// The length of its encoding in bytes.
    pub count: usize,
    ghost encoded: { HasEncoding value count },
}

impl Uleb {
    /// Returns the number with the length of its shortest encoding.
    pub fn shortest(value: u64) -> Uleb
        ensures value { result.value ≡ value }
        ensures least { IsLeast (HasEncoding value) result.count }
    {
        let number = Uleb128::shortest(value);
        Uleb {
            value,
            count: number.size(),
        }
    }
}

/// A signed number of 64 bits in LEB128, with the length of its encoding, from 1 to 10 bytes.
///
/// ```rust
/// let delta = Sleb::shortest(-65);
/// assert_eq!(rt; (delta.value, delta.count), (-65, 2));
/// ```
#[derive(Clone, Copy, Debug)]
pub struct Sleb {
    /// The number.
    pub value: i64,
    /// The length of its encoding in bytes.
    pub count: usize,
    ghost encoded: { HasSignedEncoding value count },
}

impl Sleb {
    /// Returns the number with the length of its shortest encoding.
    pub fn shortest(value: i64) -> Sleb
        ensures value { result.value ≡ value }
        ensures least { IsLeast (HasSignedEncoding value) result.count }
    {
        let number = Sleb128::shortest(value);
        Sleb {
            value,
            count: number.size(),
        }
    }
}

/// A signed number of 64 bits in zigzag, as Protocol Buffers has signed ones: twice the number in
/// LEB128, or of a negative one twice the number without its sign, less one; with the length of its
/// encoding, from 1 to 10 bytes.
///
/// ```rust
/// let delta = Zigzag::shortest(-65);
/// assert_eq!(rt; (delta.value, delta.count), (-65, 2));
/// ```
#[derive(Clone, Copy, Debug)]
pub struct Zigzag {
    /// The number.
    pub value: i64,
    /// The length of its encoding in bytes.
    pub count: usize,
    ghost encoded: { HasEncoding (zigzag value) count },
}

impl Zigzag {
    /// Returns the number with the length of its shortest encoding.
    pub fn shortest(value: i64) -> Zigzag
        ensures value { result.value ≡ value }
        ensures least { IsLeast (HasEncoding (zigzag value)) result.count }
    {
        let number = Uleb128::shortest(to_zigzag(value));
        Zigzag {
            value,
            count: number.size(),
        }
    }
}
