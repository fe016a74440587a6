//! The values that are written, as the words of a line spell them.
ghost use Rattle.std.specs.Prelude.{◌≡◌, [], ◌∷◌, MatchResult};
ghost use Rattle.scroll_run.specs.Puts.{IsPutOf, SpellsPut, SpellsPutOf, SpellsValue};
ghost use Rattle.scroll_run.specs.Words.{Finds, Parses, texts_of};
ghost use Rattle.scroll_run.specs.declared.names.Name.TheVariants as name;

use crate::memory::Memory;
use crate::names::{Name, parse_name};
use crate::words::{parse_bytes, parse_number, parse_order, parse_signed};
use scroll::cstr::CString;
use scroll::runner::{Number, Put, Width};
use scroll::{Endian, Error, Sleb128, Uleb128};
use std::alloc::AllocError;

/// The value that a line writes, with the bytes that it holds.
#[derive(Drop)]
pub enum OwnedPut {
    /// A value that borrows nothing.
    Plain(Put<'static>),
    /// A string.
    Text(String),
    /// A slice of bytes.
    Bytes(Vec<u8>),
    /// A C string.
    CStr(CString),
    /// Two slices of bytes.
    Bytesx2(Vec<u8>, Vec<u8>),
}

impl OwnedPut {
    /// Returns the value as a command has it.
    pub fn put(&self) -> Put<'_>
        ensures { IsPutOf self.now result }
    {
        match self {
            OwnedPut::Plain(put) => copied(put),
            OwnedPut::Text(text) => Put::Text(text.as_str()),
            OwnedPut::Bytes(bytes) => Put::Bytes(bytes.as_slice()),
            OwnedPut::CStr(text) => Put::CStr(text.as_c_str()),
            OwnedPut::Bytesx2(first, second) => Put::Bytesx2(first.as_slice(), second.as_slice()),
        }
    }
}

// Copies a value that borrows nothing, part by part: the prover doesn't copy it as a whole from a
// reference, since it may hold a number in LEB128.
fn copied(put: &Put<'static>) -> Put<'static>
    ensures { result ≡ put.now }
{
    match put {
        Put::Number(number, order) => Put::Number(*number, *order),
        Put::Text(text) => Put::Text(text),
        Put::Bytes(bytes) => Put::Bytes(bytes),
        Put::CStr(text) => Put::CStr(*text),
        Put::Uleb(number) => Put::Uleb(*number),
        Put::Sleb(number) => Put::Sleb(*number),
        Put::U16x3(xs, order) => Put::U16x3(*xs, *order),
        Put::Bytesx2(first, second) => Put::Bytesx2(first, second),
    }
}

/// Returns the value that the words spell, or `None` where they spell none. The only error is an
/// allocation failure.
pub fn parse_put<M: Memory>(memory: M, words: &[&[u8]]) -> Result<Option<OwnedPut>, AllocError>
    ensures { MatchResult result (Finds IsPutOf (SpellsPut (texts_of words.now)))
        (λ _. M.refuses memory) }
{
    let Some((word, rest)) = words.split_first() else {
        return Ok(None);
    };
    match parse_name(word) {
        Some(name) => parse_put_of(memory, name, rest),
        None => Ok(None),
    }
}

// Returns the value that the words after a name spell.
fn parse_put_of<M: Memory>(
    memory: M,
    name: Name,
    words: &[&[u8]],
) -> Result<Option<OwnedPut>, AllocError>
    ensures { MatchResult result (Finds IsPutOf (SpellsPutOf name (texts_of words.now)))
        (λ _. M.refuses memory) }
{
    match (name, words) {
        (Name::Number(width), [order, word]) => Ok(parse_number_put(width, order, word)),
        (Name::Str, [word]) => parse_text(memory, word),
        (Name::Bytes, [word]) => parse_slice(memory, word),
        (Name::CStr, [word]) => parse_c_string(memory, word),
        (Name::Uleb, [word]) => Ok(parse_uleb(word)),
        (Name::Sleb, [word]) => Ok(parse_sleb(word)),
        (Name::U16x3, [order, first, second, third]) => {
            Ok(parse_three(order, first, second, third))
        }
        (Name::Bytesx2, [first, second]) => parse_two(memory, first, second),
        _ => Ok(None),
    }
}

fn parse_number_put(width: Width, order: &[u8], word: &[u8]) -> Option<OwnedPut>
    ensures { Finds IsPutOf (SpellsPutOf (name.Number width) (order.now ∷ word.now ∷ [])) result }
{
    let order = parse_order(order)?;
    let number = parse_value(width, word)?;
    Some(OwnedPut::Plain(Put::Number(number, order)))
}

fn parse_value(width: Width, word: &[u8]) -> Option<Number>
    ensures { Parses (SpellsValue width word.now) result }
{
    match width {
        Width::U8 => Some(Number::U8(u8::try_from(parse_number(word)?).ok()?)),
        Width::I8 => Some(Number::I8(i8::try_from(parse_signed(word)?).ok()?)),
        Width::U16 => Some(Number::U16(u16::try_from(parse_number(word)?).ok()?)),
        Width::I16 => Some(Number::I16(i16::try_from(parse_signed(word)?).ok()?)),
        Width::U32 => Some(Number::U32(u32::try_from(parse_number(word)?).ok()?)),
        Width::I32 => Some(Number::I32(i32::try_from(parse_signed(word)?).ok()?)),
        Width::U64 => Some(Number::U64(u64::try_from(parse_number(word)?).ok()?)),
        Width::I64 => Some(Number::I64(i64::try_from(parse_signed(word)?).ok()?)),
        Width::U128 => Some(Number::U128(parse_number(word)?)),
        Width::I128 => Some(Number::I128(parse_signed(word)?)),
    }
}

fn parse_text<M: Memory>(memory: M, word: &[u8]) -> Result<Option<OwnedPut>, AllocError>
    ensures { MatchResult result (Finds IsPutOf (SpellsPutOf name.Str (word.now ∷ [])))
        (λ _. M.refuses memory) }
{
    let Some(bytes) = parse_bytes(memory, word)? else {
        return Ok(None);
    };
    match String::from_utf8(bytes) {
        Ok(text) => Ok(Some(OwnedPut::Text(text))),
        Err(_) => Ok(None),
    }
}

fn parse_slice<M: Memory>(memory: M, word: &[u8]) -> Result<Option<OwnedPut>, AllocError>
    ensures { MatchResult result (Finds IsPutOf (SpellsPutOf name.Bytes (word.now ∷ [])))
        (λ _. M.refuses memory) }
{
    match parse_bytes(memory, word)? {
        Some(bytes) => Ok(Some(OwnedPut::Bytes(bytes))),
        None => Ok(None),
    }
}

fn parse_c_string<M: Memory>(memory: M, word: &[u8]) -> Result<Option<OwnedPut>, AllocError>
    ensures { MatchResult result (Finds IsPutOf (SpellsPutOf name.CStr (word.now ∷ [])))
        (λ _. M.refuses memory) }
{
    let Some(text) = parse_bytes(memory, word)? else {
        return Ok(None);
    };
    match memory.c_string(&text) {
        Ok(text) => Ok(Some(OwnedPut::CStr(text))),
        Err(Error::BadInput { .. }) => Ok(None),
        Err(_) => Err(AllocError),
    }
}

// Returns the number with its shortest encoding.
fn parse_uleb(word: &[u8]) -> Option<OwnedPut>
    ensures { Finds IsPutOf (SpellsPutOf name.Uleb (word.now ∷ [])) result }
{
    let value = u64::try_from(parse_number(word)?).ok()?;
    Some(OwnedPut::Plain(Put::Uleb(Uleb128::shortest(value))))
}

// Returns the signed number with its shortest encoding.
fn parse_sleb(word: &[u8]) -> Option<OwnedPut>
    ensures { Finds IsPutOf (SpellsPutOf name.Sleb (word.now ∷ [])) result }
{
    let value = i64::try_from(parse_signed(word)?).ok()?;
    Some(OwnedPut::Plain(Put::Sleb(Sleb128::shortest(value))))
}

fn parse_three(order: &[u8], first: &[u8], second: &[u8], third: &[u8]) -> Option<OwnedPut>
    ensures { Finds IsPutOf (SpellsPutOf name.U16x3
        (order.now ∷ first.now ∷ second.now ∷ third.now ∷ [])) result }
{
    let order = parse_order(order)?;
    let first = u16::try_from(parse_number(first)?).ok()?;
    let second = u16::try_from(parse_number(second)?).ok()?;
    let third = u16::try_from(parse_number(third)?).ok()?;
    Some(OwnedPut::Plain(Put::U16x3([first, second, third], order)))
}

fn parse_two<M: Memory>(
    memory: M,
    first: &[u8],
    second: &[u8],
) -> Result<Option<OwnedPut>, AllocError>
    ensures { MatchResult result
        (Finds IsPutOf (SpellsPutOf name.Bytesx2 (first.now ∷ second.now ∷ [])))
        (λ _. M.refuses memory) }
{
    let Some(first) = parse_bytes(memory, first)? else {
        return Ok(None);
    };
    match parse_bytes(memory, second)? {
        Some(second) => Ok(Some(OwnedPut::Bytesx2(first, second))),
        None => Ok(None),
    }
}
