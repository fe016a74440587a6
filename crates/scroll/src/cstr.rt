//! C strings: bytes other than zero, followed by a zero byte.
//!
//! A [`CStr`] borrows one, a [`CString`] owns one. Their types ensure that there is exactly one
//! zero, at the end.
//!
//! ```rust
//! let text = CStr::from_bytes_until_nul(b"on\0off\0").ok_or("no zero")?;
//! assert_eq!(rt; text.to_bytes(), b"on".as_slice());
//! assert_eq!(rt; text.to_bytes_with_nul(), b"on\0".as_slice());
//!
//! let source: &[u8] = b"on\0off\0";
//! let offset = &mut 3;
//! let text: CStr = source.gread(offset)?;
//! assert_eq!(rt; text.to_bytes(), b"off".as_slice());
//! assert_eq!(rt; *offset, 7);
//! assert!(rt; matches!(source[..2].pread::<CStr>(0), Err(Error::BadInput { size: 0, .. })));
//! ```
ghost use Rattle.std.specs.Prelude.{◌≡◌, ◌<◌, ◌+◌, ◌↔◌, ◌++◌, [], ◌∷◌, length, take, nat_eq, vec_capacity, vec_len, IsTrue, IsOk, IfOk, IfErr, OnOk, IfSome, IfNone, OnSome};
ghost use Rattle.std.specs.Cmp.Lexicographic.{pointwise, nat_list_eq_equiv};
ghost use Rattle.std.specs.Cmp.{partial_equiv_from_equiv, on_per, on_equiv};
ghost use Rattle.scroll.specs.CStrings.{IsCString, RefusesToHold};
ghost use Rattle.scroll.specs.Texts.{index_of};

use crate::error::{Error, Result};
use crate::search::{index_of, narrow_index_of};
use std::alloc::{AllocError, Global};
use std::result;

mod of_std;

/// A borrowed C string. It is read and written in the context `()`, and its size counts the zero.
#[derive(Clone, Copy, Debug)]
pub struct CStr<'a> {
    // The text and the zero after it.
    bytes: &'a [u8],
    ghost one_zero: { IsCString bytes.now },
}

impl<'a> CStr<'a> {
    ghost use Rattle.scroll.specs.CStringTexts.{c_str_text};

    /// Returns the C string at the start of `bytes`, up to and including the first zero, which it
    /// borrows. Returns `None` exactly where there is no zero.
    #[inline(always)]
    pub fn from_bytes_until_nul(bytes: &'a [u8]) -> Option<CStr<'a>>
        ensures found { OnSome result (index_of 0 bytes.now < length bytes.now) }
        ensures text { IfSome result (λ s.
            c_str_text s ≡ take (index_of 0 bytes.now) bytes.now) }
        ensures none { IfNone result (index_of 0 bytes.now ≡ length bytes.now) }
    {
        let index = index_of(0, bytes);
        if index == bytes.len() {
            return None;
        }
        Some(CStr {
            bytes: &bytes[..index + 1],
        })
    }

    /// Returns the text without the zero.
    #[inline]
    #[tactic(auto, using(crate::proofs::lemmas::TextLemmas::text_without_zero))]
    pub fn to_bytes(self) -> &'a [u8]
        ensures text { result.now ≡ c_str_text self.entry }
        ensures no_zero { index_of 0 result.now ≡ length result.now }
    {
        &self.bytes[..self.bytes.len() - 1]
    }

    /// Returns the text with the zero after it.
    #[inline]
    #[tactic(auto, using(crate::proofs::lemmas::TextLemmas::with_zero_again))]
    pub fn to_bytes_with_nul(self) -> &'a [u8]
        ensures text { result.now ≡ c_str_text self.entry ++ 0 ∷ [] }
        ensures one_zero { IsCString result.now }
    {
        self.bytes
    }
}

impl<'a> PartialEq for CStr<'a> {
    ghost use Rattle.scroll.specs.CStringTexts.{c_str_text};

    ghost eq = { λ x y. pointwise nat_eq (c_str_text x) (c_str_text y) };

    ghost laws = { on_per c_str_text (partial_equiv_from_equiv nat_list_eq_equiv) };

    /// Returns whether both hold the same bytes.
    fn eq(&self, other: &CStr<'a>) -> bool
        ensures answer { result ≡ pointwise nat_eq (c_str_text self.now) (c_str_text other.now) }
        ensures same { IsTrue result ↔ (c_str_text self.now ≡ c_str_text other.now) }
    {
        self.to_bytes() == other.to_bytes()
    }
}

impl<'a> Eq for CStr<'a> {
    ghost use Rattle.scroll.specs.CStringTexts.{c_str_text};

    ghost laws = { on_equiv c_str_text nat_list_eq_equiv };
}

/// A C string that owns its memory. It is read in a context `&Global`, the allocator, and written
/// in `()`; its size counts the zero.
#[derive(Debug, Drop)]
pub struct CString {
    // The text and the zero after it.
    bytes: Vec<u8>,
    ghost one_zero: { IsCString bytes.items },
}

impl CString {
    ghost use Rattle.scroll.specs.CStringTexts.{c_str_text, c_string_text};

    /// Copies `text` and appends a zero.
    ///
    /// A text that contains a zero returns [`Error::BadInput`] with the message `nul byte in text`,
    /// whose `size` is the offset of its first zero, before memory is allocated. An allocation
    /// failure returns [`Error::NoMemory`].
    pub fn new(alloc: Global, text: &[u8]) -> Result<CString>
        ensures text { IfOk result (λ s. c_string_text s ≡ text.now) }
        ensures no_zero { OnOk result (index_of 0 text.now ≡ length text.now) }
        ensures refused { IfErr result (RefusesToHold text.now) }
    {
        let index = narrow_index_of(0, text);
        if index < text.len() {
            return Err(Error::BadInput {
                size: index,
                msg: "nul byte in text",
            });
        }
        match with_zero(alloc, text) {
            Ok(bytes) => Ok(CString { bytes }),
            Err(_) => Err(Error::NoMemory),
        }
    }

    // Copies a text with its zero, which isn't searched for again.
    #[inline(always)]
    pub(crate) fn copied(alloc: Global, text: CStr<'_>) -> result::Result<CString, AllocError>
        ensures text { IfOk result (λ s. c_string_text s ≡ c_str_text text.entry) }
    {
        let bytes = Vec::from_slice(alloc, text.bytes)?;
        Ok(CString { bytes })
    }

    /// Borrows this as a [`CStr`].
    #[inline]
    pub fn as_c_str(&self) -> CStr<'_>
        ensures { c_str_text result ≡ c_string_text self.now }
    {
        CStr { bytes: &self.bytes }
    }

    /// Returns the text without the zero.
    #[inline]
    pub fn as_bytes(&self) -> &[u8]
        ensures text { result.now ≡ c_string_text self.now }
        ensures no_zero { index_of 0 result.now ≡ length result.now }
    {
        self.as_c_str().to_bytes()
    }

    /// Returns the text with the zero after it.
    #[inline]
    pub fn as_bytes_with_nul(&self) -> &[u8]
        ensures text { result.now ≡ c_string_text self.now ++ 0 ∷ [] }
        ensures one_zero { IsCString result.now }
    {
        self.as_c_str().to_bytes_with_nul()
    }
}

// Copies a text and appends a zero, with one allocation.
fn with_zero(alloc: Global, text: &[u8]) -> result::Result<Vec<u8>, AllocError>
    ensures held { IfOk result (λ bytes. bytes.items ≡ text.now ++ 0 ∷ []) }
{
    let mut bytes = Vec::with_capacity(alloc, text.len() + 1)?;
    push_with_zero(&mut bytes, text)?;
    Ok(bytes)
}

// Appends a text and a zero.
fn push_with_zero(bytes: &mut Vec<u8>, text: &[u8]) -> result::Result<(), AllocError>
    ensures held { OnOk result (bytes.new.items ≡ bytes.old.items ++ text.now ++ 0 ∷ []) }
    ensures succeeds { vec_len bytes.old + length text.now < vec_capacity bytes.old → IsOk result }
{
    bytes.extend_from_slice(text)?;
    bytes.push(0)?;
    Ok(())
}
