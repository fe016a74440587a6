// Conversions between the C strings of the crate and those of std. They neither copy bytes nor
// allocate memory.
ghost use Rattle.std.specs.Prelude.{◌≡◌};
ghost use Rattle.std.specs.CStr.{c_str_bytes, c_string_bytes};
ghost use Rattle.scroll.specs.CStringTexts.{c_str_text, c_string_text};

use super::{CStr, CString};
use std::ffi;

impl<'a> From<ffi::CStr<'a>> for CStr<'a> {
    ghost from_gives = { λ s text. c_str_text text ≡ c_str_bytes s };

    /// Borrows the same bytes.
    #[inline]
    fn from(s: ffi::CStr<'a>) -> CStr<'a> {
        CStr {
            bytes: s.to_bytes_with_nul(),
        }
    }
}

impl<'a> From<CStr<'a>> for ffi::CStr<'a> {
    ghost from_gives = { λ s text. c_str_bytes text ≡ c_str_text s };

    /// Borrows the same bytes.
    #[inline]
    fn from(s: CStr<'a>) -> ffi::CStr<'a> {
        unsafe { ffi::CStr::from_bytes_with_nul_unchecked(s.bytes) }
    }
}

impl From<ffi::CString> for CString {
    ghost from_gives = { λ s text. c_string_text text ≡ c_string_bytes s };

    /// Takes over the memory, with the same bytes.
    #[inline]
    fn from(s: ffi::CString) -> CString {
        CString {
            bytes: s.into_bytes_with_nul(),
        }
    }
}

impl From<CString> for ffi::CString {
    ghost from_gives = { λ s text. c_string_bytes text ≡ c_string_text s };

    /// Takes over the memory, with the same bytes.
    #[inline]
    fn from(s: CString) -> ffi::CString {
        unsafe { ffi::CString::from_vec_with_nul_unchecked(s.bytes) }
    }
}
