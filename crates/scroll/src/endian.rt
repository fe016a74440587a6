// Byte orders.
ghost use Rattle.std.specs.Prelude.{◌≡◌, ◌↔◌, IsTrue, true, if◌then◌else◌};
ghost use Rattle.scroll.specs.declared.endian.Endian.TheVariants.{Little, Big};

/// The order of a number's bytes.
///
/// The default is the machine's own order, [`NATIVE`].
#[derive(Clone, Copy, Debug, PartialEq, Eq)]
pub enum Endian {
    /// The lowest byte comes first.
    Little,
    /// The highest byte comes first.
    Big,
}

/// Little-endian: the lowest byte comes first.
pub const LE: Endian = Endian::Little;

/// Big-endian: the highest byte comes first.
pub const BE: Endian = Endian::Big;

/// The byte order of network protocols, which is big-endian.
pub const NETWORK: Endian = Endian::Big;

/// The machine's own byte order, which is little-endian on every machine that Rattle builds for.
pub const NATIVE: Endian = Endian::Little;

impl Default for Endian {
    ghost is_default = { λ order. order ≡ Little };

    fn default() -> Endian {
        NATIVE
    }
}

impl From<bool> for Endian {
    ghost from_gives = { λ little order. order ≡ (if little then Little else Big) };

    /// Returns [`LE`] for `true` and [`BE`] for `false`.
    fn from(little_endian: bool) -> Endian {
        if little_endian { LE } else { BE }
    }
}

impl Endian {
    /// Returns the byte order of network protocols, [`NETWORK`].
    pub fn network() -> Endian
        ensures { result ≡ Big }
    {
        NETWORK
    }

    /// Returns whether this is the little-endian order.
    pub fn is_little(&self) -> bool
        ensures { IsTrue result ↔ (self.now ≡ Little) }
    {
        match *self {
            Endian::Little => true,
            Endian::Big => false,
        }
    }
}
