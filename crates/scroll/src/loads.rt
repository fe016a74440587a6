// A source that counts its loads.
ghost use Rattle.std.specs.Prelude.{◌≡◌, ◌↔◌, ◌+◌, ◌^◌, ◌<◌, ◌≤◌, length, take, slice_get, IfSome, IfNone, IsTrue};
ghost use Rattle.scroll.specs.Reads.{Loading};

use std::marker::Model;

/// A source whose bytes are read only by counted loads.
///
/// ```rust
/// let bytes: [u8; 3] = [0x82, 0x01, 0xff];
/// let mut source = Loads::new(&bytes);
/// assert_eq!(rt; source.byte(1), Some(1));
/// assert!(rt; source.word().is_none());
/// assert_eq!(rt; source.made(), 2);
/// ```
#[derive(Drop)]
pub struct Loads<'a> {
    src: &'a [u8],
    made: usize,
}

impl<'a> Model for Loads<'a> {
    ghost Value = { Loading };

    ghost view = { λ l. record { bytes = l.src.now; made = l.made } };
}

impl<'a> Loads<'a> {
    /// Returns the source `src` with no loads counted.
    #[inline]
    pub fn new(src: &'a [u8]) -> Loads<'a>
        ensures { result ≡ record { bytes = src.now; made = 0 } }
    {
        Loads { src, made: 0 }
    }

    /// Returns the length of the source in bytes. This is not a load.
    #[inline]
    pub fn len(&self) -> usize
        ensures { result ≡ length self.now.bytes }
    {
        self.src.len()
    }

    /// Returns whether the source has no bytes. This is not a load.
    #[inline]
    pub fn is_empty(&self) -> bool
        ensures { IsTrue result ↔ (length self.now.bytes ≡ 0) }
    {
        self.src.is_empty()
    }

    /// Returns how many loads were made.
    #[inline]
    pub fn made(&self) -> usize
        ensures { result ≡ self.now.made }
    {
        self.made
    }

    /// Loads the first eight bytes at once, or returns `None` where there are fewer; both count as
    /// one load. The caller ensures that fewer than 2^63 loads were made before.
    #[inline]
    pub fn word(&mut self) -> Option<[u8; 8]>
        requires { self.old.made < 2 ^ 63 }
        ensures counted { self.new ≡ record self.old { made = self.old.made + 1 } }
        ensures first { IfSome result (λ b. (8 ≤ length self.old.bytes)
            × (b ≡ take 8 self.old.bytes)) }
        ensures short { IfNone result (length self.old.bytes < 8) }
    {
        self.count();
        self.src.first_chunk::<8>().copied()
    }

    /// Loads the byte at offset `i`, or returns `None` where that is out of bounds; both count as
    /// one load. The caller ensures that fewer than 2^63 loads were made before.
    #[inline]
    pub fn byte(&mut self, i: usize) -> Option<u8>
        requires { self.old.made < 2 ^ 63 }
        ensures counted { self.new ≡ record self.old { made = self.old.made + 1 } }
        ensures value { result ≡ slice_get self.old.bytes i }
    {
        self.count();
        self.src.get(i).copied()
    }

    // Counts one load.
    #[inline]
    fn count(&mut self)
        requires { self.old.made < 2 ^ 63 }
        ensures { self.new ≡ record self.old { made = self.old.made + 1 } }
    {
        self.made += 1;
    }
}
