// C strings, borrowed and owned, read and written.
ghost use Rattle.std.specs.Prelude.{◌≡◌, ◌++◌, ℕ, List, [], ◌∷◌, length};
ghost use Rattle.std.proofs.Common.{rules};
ghost use Rattle.scroll.specs.Bytes.{WritesPrefix, FailsShort};
ghost use Rattle.scroll.specs.CStrings.{ReadsCString, RefusesCString, RefusesCopy};
ghost use Rattle.scroll.specs.lemmas.Frames.{ReadsCString-bounded, WritesPrefix-keeps};
ghost use Rattle.scroll.specs.CStringTexts.{c_str_text, c_string_text};

use crate::cstr::{CStr, CString};
use crate::ctx::{TryFromCtx, TryIntoCtx};
use crate::error::{Error, Result};
use std::alloc::Global;

impl<'a> TryFromCtx<'a, ()> for CStr<'a> {
    type Error = Error;

    ghost reads = { λ _ source s. ReadsCString source (c_str_text s) };

    ghost refuses = { λ _. RefusesCString };

    ghost reads_bounded = { λ _ source s. ReadsCString-bounded source (c_str_text s) };

    /// Reads up to the first zero of `from`, zero-copy; the size in bytes counts the zero. A source
    /// without one returns [`Error::BadInput`] with the size 0 and the message `The input doesn't
    /// contain a null byte`.
    #[inline(always)]
    fn try_from_ctx(from: &'a [u8], _ctx: ()) -> Result<(CStr<'a>, usize)> {
        match CStr::from_bytes_until_nul(from) {
            Some(text) => Ok((text, text.to_bytes_with_nul().len())),
            None => Err(Error::BadInput {
                size: 0,
                msg: "The input doesn't contain a null byte",
            }),
        }
    }
}

impl<'a, 'm> TryFromCtx<'a, &'m Global> for CString {
    type Error = Error;

    ghost reads = { λ _ source s. ReadsCString source (c_string_text s) };

    ghost refuses = { λ _. RefusesCopy };

    ghost reads_bounded = { λ _ source s. ReadsCString-bounded source (c_string_text s) };

    /// Copies what a `CStr` borrows, with the same size and error. An allocation failure returns
    /// [`Error::NoMemory`].
    #[inline(always)]
    fn try_from_ctx(from: &'a [u8], ctx: &'m Global) -> Result<(CString, usize)> {
        let (text, size) = CStr::try_from_ctx(from, ())?;
        match CString::copied(*ctx, text) {
            Ok(text) => Ok((text, size)),
            Err(_) => Err(Error::NoMemory),
        }
    }
}

/// A C string, borrowed or owned, of the crate or of std.
pub trait WithNul {
    // The text, without the zero.
    ghost text: { Self → List ℕ };

    /// Returns the text with the zero after it.
    fn with_nul(&self) -> &[u8]
        ensures { result.now ≡ text self.now ++ 0 ∷ [] };
}

/// Writes the text and its zero. A shorter target returns [`Error::TooBig`] with the lengths of
/// both, and is unchanged.
impl<S: WithNul + Drop> TryIntoCtx<()> for S {
    type Error = Error;

    ghost writes = { λ _ s. WritesPrefix (length (S.text s ++ 0 ∷ [])) (S.text s ++ 0 ∷ []) };

    ghost refuses = { λ _ s. FailsShort (length (S.text s ++ 0 ∷ [])) };

    ghost writes_bounded = { λ _ s old new n h. Prim.search rules };

    ghost writes_keeps = { λ _ s. WritesPrefix-keeps (S.text s ++ 0 ∷ []) };

    fn try_into_ctx(self, dst: &mut [u8], _ctx: ()) -> Result<usize> {
        self.with_nul().try_into_ctx(dst, ())
    }
}

impl<'s> WithNul for CStr<'s> {
    ghost text = { c_str_text };

    #[inline]
    fn with_nul(&self) -> &[u8] {
        self.to_bytes_with_nul()
    }
}

impl WithNul for CString {
    ghost text = { c_string_text };

    #[inline]
    fn with_nul(&self) -> &[u8] {
        self.as_bytes_with_nul()
    }
}
