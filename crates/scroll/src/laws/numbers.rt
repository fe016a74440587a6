// Laws of numbers, floats and the constants.
ghost use Rattle.std.specs.Prelude.{◌≡◌, ℕ, List, length, reverse, ◌<◌, ◌++◌, All, drop, take};
ghost use Rattle.scroll.specs.Numbers.{number, ReadsFloat, WritesFloat};
ghost use Rattle.scroll.specs.declared.endian.Endian.TheVariants.{Little, Big};
ghost use Rattle.std.specs.Float.{Float, Format, NotNan};
ghost use Rattle.scroll.specs.declared.endian.Endian.{Endian};
ghost use Rattle.scroll.specs.declared.ctx.str_ctx.TheConstants.{NULL, SPACE, RET, TAB};
ghost use Rattle.scroll.specs.declared.endian.TheConstants.{LE, BE, NETWORK, NATIVE};

/// The big-endian number of some bytes is the little-endian number of the reversed bytes.
pub fn big_endian_is_little_endian_reversed()
    ensures { (s : List ℕ) → number Big (length s) s ≡ number Little (length s) (reverse s) }
{}

/// A float other than a NaN that was read is written back byte for byte.
///
/// That a float which was written reads back, a NaN as a NaN, is
/// [`fixed_size_is_kept`](super::fixed_size_is_kept).
pub fn float_is_written_back()
    ensures { (f : Format) (order : Endian) (source old new : List ℕ) (x : Float) (m n : ℕ)
        → All (λ b. b < 256) source
        → ReadsFloat f order source x n → NotNan x → WritesFloat f order x old new m
        → (m ≡ n) × (new ≡ take n source ++ drop n old) }
{}

/// Each constant of the crate has the value that its name says: `RET` is a line feed.
pub fn constants_have_their_values()
    ensures le { LE ≡ Little }
    ensures be { BE ≡ Big }
    ensures network { NETWORK ≡ Big }
    ensures native { NATIVE ≡ Little }
    ensures null { NULL ≡ 0x00 }
    ensures space { SPACE ≡ 0x20 }
    ensures ret { RET ≡ 0x0a }
    ensures tab { TAB ≡ 0x09 }
{}
