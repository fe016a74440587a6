//! The names of the kinds of values.
ghost use Rattle.std.specs.Prelude.{◌≡◌};
ghost use Rattle.scroll_run.specs.Names.{name_word};
ghost use Rattle.scroll_run.specs.Words.{Parses};

use crate::words::{is, parse_width};
use scroll::runner::Width;

/// What a word names before the words of a value.
#[derive(Clone, Copy)]
pub enum Name {
    Number(Width),
    Str,
    Bytes,
    CStr,
    CString,
    Uleb,
    Sleb,
    U8x0,
    U16x3,
    Strx2,
    Bytesx2,
}

/// Returns what a word names.
pub fn parse_name(word: &[u8]) -> Option<Name>
    ensures { Parses (λ name. word.now ≡ name_word name) result }
{
    if let Some(width) = parse_width(word) {
        Some(Name::Number(width))
    } else if is(word, b"str") {
        Some(Name::Str)
    } else if is(word, b"bytes") {
        Some(Name::Bytes)
    } else if is(word, b"cstr") {
        Some(Name::CStr)
    } else if is(word, b"cstring") {
        Some(Name::CString)
    } else if is(word, b"uleb") {
        Some(Name::Uleb)
    } else if is(word, b"sleb") {
        Some(Name::Sleb)
    } else if is(word, b"u8x0") {
        Some(Name::U8x0)
    } else if is(word, b"u16x3") {
        Some(Name::U16x3)
    } else if is(word, b"strx2") {
        Some(Name::Strx2)
    } else if is(word, b"bytesx2") {
        Some(Name::Bytesx2)
    } else {
        None
    }
}
