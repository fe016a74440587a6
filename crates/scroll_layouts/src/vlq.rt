// Numbers with their high groups first.
ghost use Rattle.std.specs.Prelude.{◌≡◌};
ghost use Rattle.scroll.specs.Encoding.{HasEncoding, IsLeast};

mod parts;

use scroll::Uleb128;

/// An unsigned number of 64 bits with its high groups first, as MIDI has delta times: each byte has
/// seven bits of it, and a byte below 128 ends it; with the length of its encoding, from 1 to 10
/// bytes.
///
/// ```rust
/// let delta = Vlq::shortest(192);
/// assert_eq!(rt; (delta.value, delta.count), (192, 2));
/// ```
#[derive(Clone, Copy, Debug)]
pub struct Vlq {
    /// The number.
    pub value: u64,
    /// The length of its encoding in bytes.
    pub count: usize,
    ghost encoded: { HasEncoding value count },
}

impl Vlq {
    /// Returns the number with the length of its shortest encoding.
    pub fn shortest(value: u64) -> Vlq
        ensures value { result.value ≡ value }
        ensures least { IsLeast (HasEncoding value) result.count }
    {
        // (an encoding has as many bytes in LEB128)
        let number = Uleb128::shortest(value);
        Vlq {
            value,
            count: number.size(),
        }
    }
}
