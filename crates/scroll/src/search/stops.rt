// What a search stops at: one byte, or that byte and every byte that isn't ASCII.
ghost use Rattle.std.specs.Prelude.{◌≡◌, ◌≤◌, ◌==◌, ℕ, Bool, map};
ghost use Rattle.std.specs.Simd.Lanes.{mask_l};
ghost use Rattle.scroll.specs.Texts.{is_stop};

use std::simd::prelude::*;

/// The bytes that a search stops at.
pub(crate) trait Stops: Copy {
    // Whether the search stops at a byte.
    ghost stops: { Self → ℕ → Bool };
}

/// The stops in a block of N bytes, which are compared at once.
pub(crate) trait StopsIn<const N: usize>: Stops {
    /// Returns which bytes of a block are stops: bit `i` is set where the byte at offset `i` is
    /// one.
    fn marks(self, block: &[u8; N]) -> u64
        requires { N ≤ 64 }
        ensures { result ≡ mask_l (map (Self.stops self) block.now) };
}

/// Stops at one byte.
#[derive(Clone, Copy)]
pub(crate) struct OneByte(pub(crate) u8);

/// Stops at one byte, and at every byte that isn't ASCII.
#[derive(Clone, Copy)]
pub(crate) struct ByteOrNotAscii(pub(crate) u8);

impl Stops for OneByte {
    ghost stops = { λ at b. b == at.0 };
}

impl<const N: usize> StopsIn<N> for OneByte {
    #[inline(always)]
    fn marks(self, block: &[u8; N]) -> u64 {
        Simd::from_array(*block)
            .simd_eq(Simd::splat(self.0))
            .to_bitmask()
    }
}

impl Stops for ByteOrNotAscii {
    ghost stops = { λ at. is_stop at.0 };
}

impl<const N: usize> StopsIn<N> for ByteOrNotAscii {
    #[inline(always)]
    fn marks(self, block: &[u8; N]) -> u64 {
        let bytes = Simd::from_array(*block);
        let delimiters = bytes.simd_eq(Simd::splat(self.0)).to_bitmask();
        let others = bytes.simd_ge(Simd::splat(128)).to_bitmask();
        delimiters | others
    }
}
