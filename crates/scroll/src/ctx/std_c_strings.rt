// The C strings of std, read and written like those of the crate.
ghost use Rattle.std.specs.CStr.{c_str_bytes, c_string_bytes};
ghost use Rattle.scroll.specs.CStrings.{ReadsCString, RefusesCString, RefusesCopy};
ghost use Rattle.scroll.specs.lemmas.Frames.{ReadsCString-bounded};

use crate::cstr;
use crate::ctx::TryFromCtx;
use crate::ctx::c_strings::WithNul;
use crate::error::{Error, Result};
use std::alloc::Global;
use std::ffi::{CStr, CString};

impl<'a> TryFromCtx<'a, ()> for CStr<'a> {
    type Error = Error;

    ghost reads = { λ _ source s. ReadsCString source (c_str_bytes s) };

    ghost refuses = { λ _. RefusesCString };

    ghost reads_bounded = { λ _ source s. ReadsCString-bounded source (c_str_bytes s) };

    /// Reads like [`cstr::CStr`].
    #[inline(always)]
    fn try_from_ctx(from: &'a [u8], _ctx: ()) -> Result<(CStr<'a>, usize)> {
        let (text, size) = cstr::CStr::try_from_ctx(from, ())?;
        Ok((CStr::from(text), size))
    }
}

impl<'a, 'm> TryFromCtx<'a, &'m Global> for CString {
    type Error = Error;

    ghost reads = { λ _ source s. ReadsCString source (c_string_bytes s) };

    ghost refuses = { λ _. RefusesCopy };

    ghost reads_bounded = { λ _ source s. ReadsCString-bounded source (c_string_bytes s) };

    /// Reads like [`cstr::CString`].
    #[inline(always)]
    fn try_from_ctx(from: &'a [u8], ctx: &'m Global) -> Result<(CString, usize)> {
        let (text, size) = cstr::CString::try_from_ctx(from, ctx)?;
        Ok((CString::from(text), size))
    }
}

impl<'s> WithNul for CStr<'s> {
    ghost text = { c_str_bytes };

    #[inline]
    fn with_nul(&self) -> &[u8] {
        self.to_bytes_with_nul()
    }
}

impl WithNul for CString {
    ghost text = { c_string_bytes };

    #[inline]
    fn with_nul(&self) -> &[u8] {
        self.as_bytes_with_nul()
    }
}
