// Laws of LEB128 encodings.
ghost use Rattle.std.specs.Prelude.{◌≤◌, ℕ, ℤ, List, length};
ghost use Rattle.scroll.specs.Leb128.{ReadsUleb, ReadsSleb};
ghost use Rattle.scroll.specs.Encoding.{ReadsEncodings, KeepsTexts, HasEncoding, HasSignedEncoding, unsigned_form};

/// A read of an unsigned number returns a value and a size exactly where the source begins with the
/// encoding of that value in that many bytes. A value has one encoding of each length from its
/// shortest to ten, and none is a prefix of another.
pub fn unsigned_reads_are_encodings()
    ensures { ReadsEncodings ReadsUleb HasEncoding (λ v n. v) }
{}

/// What [`unsigned_reads_are_encodings`] says, of signed numbers.
pub fn signed_reads_are_encodings()
    ensures { ReadsEncodings ReadsSleb HasSignedEncoding unsigned_form }
{}

/// A number in LEB128 that was read has a size of one to ten bytes, all of them in the source.
pub fn leb128_reads_have_one_to_ten_bytes()
    ensures unsigned { (source : List ℕ) (x n : ℕ) → ReadsUleb source x n
        → (1 ≤ n) × (n ≤ 10) × (n ≤ length source) }
    ensures signed { (source : List ℕ) (x : ℤ) (n : ℕ) → ReadsSleb source x n
        → (1 ≤ n) × (n ≤ 10) × (n ≤ length source) }
{}

/// An unsigned number in LEB128 that was read is written back byte for byte. One that was written
/// reads back with the same value and size, whatever bytes follow, and every source that reads as
/// it begins with the bytes that were written.
pub fn unsigned_texts_are_kept()
    ensures { KeepsTexts ReadsUleb HasEncoding (λ v n. v) }
{}

/// What [`unsigned_texts_are_kept`] says, of signed numbers.
pub fn signed_texts_are_kept()
    ensures { KeepsTexts ReadsSleb HasSignedEncoding unsigned_form }
{}
