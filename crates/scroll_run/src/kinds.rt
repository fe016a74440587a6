//! The kinds of values that are read, as the words of a line spell them.
ghost use Rattle.std.specs.Prelude.{[], ◌∷◌};
ghost use Rattle.scroll_run.specs.Kinds.{SpellsEnd, SpellsKind, SpellsKindOf};
ghost use Rattle.scroll_run.specs.Words.{Parses, texts_of};

use crate::names::{Name, parse_name};
use crate::words::{is, parse_byte, parse_order, parse_usize};
use scroll::ctx::StrCtx;
use scroll::runner::Kind;

/// Returns the kind that the words spell.
pub fn parse_kind(words: &[&[u8]]) -> Option<Kind>
    ensures { Parses (SpellsKind (texts_of words.now)) result }
{
    let (word, rest) = words.split_first()?;
    parse_kind_of(parse_name(word)?, rest)
}

// Returns the kind that the words after a name spell.
fn parse_kind_of(name: Name, words: &[&[u8]]) -> Option<Kind>
    ensures { Parses (SpellsKindOf name (texts_of words.now)) result }
{
    match (name, words) {
        (Name::Number(width), [order]) => Some(Kind::Number(width, parse_order(order)?)),
        (Name::Str, end) => Some(Kind::Text(parse_end(end)?)),
        (Name::Bytes, [len]) => Some(Kind::Bytes(parse_usize(len)?)),
        (Name::CStr, []) => Some(Kind::CStr),
        (Name::CString, []) => Some(Kind::CString),
        (Name::Uleb, []) => Some(Kind::Uleb),
        (Name::Sleb, []) => Some(Kind::Sleb),
        (Name::U8x0, [order]) => Some(Kind::U8x0(parse_order(order)?)),
        (Name::U16x3, [order]) => Some(Kind::U16x3(parse_order(order)?)),
        (Name::Strx2, end) => Some(Kind::Textx2(parse_end(end)?)),
        _ => None,
    }
}

fn parse_end(words: &[&[u8]]) -> Option<StrCtx>
    ensures { Parses (SpellsEnd (texts_of words.now)) result }
{
    match words {
        [name, word] => parse_end_of_two(name, word),
        [name, byte, limit] => parse_end_of_three(name, byte, limit),
        _ => None,
    }
}

fn parse_end_of_two(name: &[u8], word: &[u8]) -> Option<StrCtx>
    ensures { Parses (SpellsEnd (name.now ∷ word.now ∷ [])) result }
{
    if is(name, b"delim") {
        parse_byte(word).map(StrCtx::Delimiter)
    } else if is(name, b"len") {
        parse_usize(word).map(StrCtx::Length)
    } else if is(name, b"required") {
        parse_byte(word).map(StrCtx::Required)
    } else {
        None
    }
}

fn parse_end_of_three(name: &[u8], byte: &[u8], limit: &[u8]) -> Option<StrCtx>
    ensures { Parses (SpellsEnd (name.now ∷ byte.now ∷ limit.now ∷ [])) result }
{
    if is(name, b"until") {
        Some(StrCtx::DelimiterUntil(parse_byte(byte)?, parse_usize(limit)?))
    } else {
        None
    }
}
