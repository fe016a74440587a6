//! Lines and words, and what a word spells.
ghost use Rattle.std.specs.Prelude.{◌≡◌, ◌<◌, ◌^◌, ◌+◌, ◌++◌, MatchResult, OnErr, OnOk, SomeIff, ◌==◌, count_by, length, vec_capacity, vec_len};
ghost use Rattle.std.specs.List.{slice_split};
ghost use Rattle.std.specs.Str.{bytes_eq};
ghost use Rattle.std.specs.Str.Parse.{IsNumeral, digits_value};
ghost use Rattle.scroll_run.specs.Words.{Parses, ParsesAs, SpellsByte, SpellsBytes, SpellsSigned, order_word, texts_of, width_word};

use crate::memory::Memory;
use hex::{FromHex, FromHexError};
use scroll::Endian;
use scroll::runner::Width;
use std::alloc::AllocError;
use std::str;

/// Returns the parts of a text before, between and after its separators.
pub fn split<M: Memory>(memory: M, text: &[u8], separator: u8) -> Result<Vec<&[u8]>, AllocError>
    ensures { MatchResult result (λ parts.
        texts_of parts.items ≡ slice_split (λ b. b == separator) text.now) (λ _. M.refuses memory) }
{
    let mut parts = Vec::new(memory.alloc());
    memory.reserve(&mut parts, count_parts(text, separator))?;
    push_parts(text, separator, &mut parts)?;
    Ok(parts)
}

fn count_parts(text: &[u8], separator: u8) -> usize
    ensures { result ≡ count_by (λ b. b == separator) text.now + 1 }
{
    text.iter().filter(|byte| **byte == separator).count() + 1
}

// Appends the parts.
fn push_parts<'a>(
    text: &'a [u8],
    separator: u8,
    parts: &mut Vec<&'a [u8]>,
) -> Result<(), AllocError>
    ensures parts { OnOk result (texts_of parts.new.items
        ≡ texts_of parts.old.items ++ slice_split (λ b. b == separator) text.now) }
    ensures full { OnErr result (vec_capacity parts.old
        < vec_len parts.old + length (slice_split (λ b. b == separator) text.now)) }
{
    for part in text.split(|byte| *byte == separator) {
        parts.push(part)?;
    }
    Ok(())
}

/// Returns the number that a word of digits spells, if it is below 2^128.
pub fn parse_number(word: &[u8]) -> Option<u128>
    ensures { SomeIff result (IsNumeral 10 word.now
        × (digits_value 10 word.now < 2 ^ 128)) (digits_value 10 word.now) }
{
    // (std also accepts a plus before the digits)
    if *word.first()? == b'+' {
        return None;
    }
    let Ok(text) = str::from_utf8(word) else {
        return None;
    };
    text.parse().ok()
}

/// Returns the number that digits spell, after a minus or not, if it is in the range of `i128`.
pub fn parse_signed(word: &[u8]) -> Option<i128>
    ensures { Parses (SpellsSigned (2 ^ 127) word.now) result }
{
    match word.strip_prefix(b"-") {
        Some(digits) => 0_i128.checked_sub_unsigned(parse_number(digits)?),
        None => i128::try_from(parse_number(word)?).ok(),
    }
}

/// Returns the number that a word of digits spells, if it is below 2^64.
pub fn parse_usize(word: &[u8]) -> Option<usize>
    ensures { SomeIff result (IsNumeral 10 word.now
        × (digits_value 10 word.now < 2 ^ 64)) (digits_value 10 word.now) }
{
    usize::try_from(parse_number(word)?).ok()
}

/// Returns the bytes that a word spells: `-` for none, or two hexadecimal digits of either case for
/// each byte. Returns `None` for any other word. The only error is an allocation failure.
pub fn parse_bytes<M: Memory>(memory: M, word: &[u8]) -> Result<Option<Vec<u8>>, AllocError>
    ensures { MatchResult result (ParsesAs (λ bytes. bytes.items) (SpellsBytes word.now))
        (λ _. M.refuses memory) }
{
    if is(word, b"-") {
        return Ok(Some(Vec::new(memory.alloc())));
    }
    if word.is_empty() {
        return Ok(None);
    }
    match memory.decode(word) {
        Ok(bytes) => Ok(Some(bytes)),
        Err(FromHexError::OutOfMemory) => Err(AllocError),
        Err(_) => Ok(None),
    }
}

/// Returns the byte that two hexadecimal digits of either case spell.
pub fn parse_byte(word: &[u8]) -> Option<u8>
    ensures { Parses (SpellsByte word.now) result }
{
    let bytes = <[u8; 1] as FromHex>::from_hex(word).ok()?;
    Some(bytes[0])
}

/// Returns whether the word is this one.
pub fn is(word: &[u8], name: &[u8]) -> bool
    ensures { result ≡ bytes_eq word.now name.now }
{
    word == name
}

/// Returns the number type that a word names.
pub fn parse_width(word: &[u8]) -> Option<Width>
    ensures { Parses (λ width. word.now ≡ width_word width) result }
{
    if is(word, b"u8") {
        Some(Width::U8)
    } else if is(word, b"i8") {
        Some(Width::I8)
    } else if is(word, b"u16") {
        Some(Width::U16)
    } else if is(word, b"i16") {
        Some(Width::I16)
    } else if is(word, b"u32") {
        Some(Width::U32)
    } else if is(word, b"i32") {
        Some(Width::I32)
    } else if is(word, b"u64") {
        Some(Width::U64)
    } else if is(word, b"i64") {
        Some(Width::I64)
    } else if is(word, b"u128") {
        Some(Width::U128)
    } else if is(word, b"i128") {
        Some(Width::I128)
    } else {
        None
    }
}

/// Returns the byte order that a word names.
pub fn parse_order(word: &[u8]) -> Option<Endian>
    ensures { Parses (λ order. word.now ≡ order_word order) result }
{
    if is(word, b"le") {
        Some(Endian::Little)
    } else if is(word, b"be") {
        Some(Endian::Big)
    } else {
        None
    }
}
