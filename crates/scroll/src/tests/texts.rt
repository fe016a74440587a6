// Strings, byte slices and measures: the calls for them, which bytes are strings, and strings whose
// delimiter the source must contain.
use crate::ctx::{MeasureWith, NULL, RET, SPACE, StrCtx, TAB};
use crate::tests::reads::{check_bulk, check_default_read, check_no_read, check_read, check_write};
use crate::tests::results::{Parts, check_eq};
use crate::utf8::{is_dense, is_text};
use crate::{BE, LE, Pread, Result};
use std::alloc::Global;
use std::process::Abort;

fn is_delimited_by_zero(ctx: StrCtx) -> bool {
    match ctx {
        StrCtx::Delimiter(byte) => byte == 0,
        _ => false,
    }
}

static CONTEXTS: [(StrCtx, usize, bool); 3] = [
    (StrCtx::Delimiter(NULL), 1, false),
    (StrCtx::DelimiterUntil(SPACE, 4), 1, false),
    (StrCtx::Length(3), 0, true),
];

#[test]
fn contexts(rt: HostRuntime) {
    let rt = &rt;
    check_eq(rt, is_delimited_by_zero(StrCtx::default()), true);
    for &(ctx, len, is_empty) in &CONTEXTS {
        check_eq(rt, (ctx.len(), ctx.is_empty()), (len, is_empty));
    }
    check_eq(rt, [NULL, SPACE, RET, TAB], *b"\0 \n\t");
}

// (One allocation may fail, so what allocates is called twice.)
fn check_vector(rt: &impl Abort, alloc: Global, slice: &[u8]) {
    let vector = Vec::from_slice(alloc, slice).or(Vec::from_slice(alloc, slice));
    let vector = vector.expect(rt, "no memory twice");
    check_eq(rt, vector.measure_with(&StrCtx::Length(9)), 3);
}

fn check_string(rt: &impl Abort, alloc: Global, text: &str) {
    let string = String::from_str(alloc, text).or(String::from_str(alloc, text));
    let string = string.expect(rt, "no memory twice");
    check_eq(rt, string.measure_with(&BE), 3);
}

#[test]
fn test_measure_with_bytes(rt: HostRuntime) {
    let rt = &rt;
    let bytes: [u8; 4] = [0xef, 0xbe, 0xad, 0xde];
    check_eq(rt, bytes.measure_with(&()), 4);
    let slice = &bytes[1..];
    check_eq(rt, slice.measure_with(&LE), 3);
    check_vector(rt, rt.alloc(), slice);
    let text = "h\u{e9}";
    check_eq(rt, text.measure_with(&()), 3);
    check_string(rt, rt.alloc(), text);
}

#[test]
fn pread_slice(rt: HostRuntime) {
    let rt = &rt;
    let bytes: &[u8] = &[0x7e, 0xef];
    check_no_read::<&str, _>(rt, bytes, 0, StrCtx::Length(3), ("TooBig", 3, 2));
    let none: &[u8] = &[];
    check_default_read(rt, bytes, 1, none, 1);
    check_no_read::<&[u8], _>(rt, bytes, 3, 0, ("BadOffset", 3, 0));
}

#[test]
fn gread_slice(rt: HostRuntime) {
    let rt = &rt;
    let bytes: &[u8] = &[0x7e, 0xef];
    check_no_read::<&str, _>(rt, bytes, 0, StrCtx::Length(3), ("TooBig", 3, 2));
    check_read(rt, b"EBD", 0, StrCtx::Length(2), "EB", 2);
    check_read(rt, bytes, 0, 2, bytes, 2);
}

const HELLO: &[u8] = b"hello, world!\0some_other_things";

#[test]
fn pread_str(rt: HostRuntime) {
    let rt = &rt;
    check_default_read(rt, b".\0", 0, ".", 2);
    check_read(rt, HELLO, 0, StrCtx::Delimiter(NULL), "hello, world!", 14);
    check_read(rt, HELLO, 0, StrCtx::Delimiter(SPACE), "hello,", 7);
    check_read(rt, HELLO, 6, StrCtx::Delimiter(SPACE), "", 7);
    let rest = "world!\0some_other_things";
    check_read(rt, HELLO, 7, StrCtx::Delimiter(SPACE), rest, 32);
}

#[test]
fn pread_str_weird(rt: HostRuntime) {
    let rt = &rt;
    let none: &[u8] = b"";
    check_read(rt, none, 0, StrCtx::Delimiter(NULL), "", 1);
    check_no_read::<&str, _>(rt, none, 7, StrCtx::Delimiter(SPACE), ("BadOffset", 7, 0));
    check_default_read(rt, b"\0", 0, "", 1);
}

#[test]
fn pwrite_str_and_bytes(rt: HostRuntime) {
    let rt = &rt;
    let bytes: &[u8] = b"more\0bytes";
    let text = "lol hello_world lal\0ala imabytes";
    let mut buffer = [0u8; 33];
    check_write(rt, &mut buffer, text, 0, (), 32);
    check_read(rt, &buffer, 4, StrCtx::Delimiter(SPACE), "hello_world", 16);
    check_write(rt, &mut buffer, bytes, 0, (), 10);
    check_read(rt, &buffer, 8, StrCtx::Length(6), "esworl", 14);
    check_default_read(rt, bytes, 0, "more", 5);
    check_default_read(rt, bytes, 5, "bytes", 11);
}

#[test]
fn bulk_read_of_texts(rt: HostRuntime) {
    let before = ["as", "before", "this"];
    let after = ["ab", "cd", "this"];
    let past = ("BadOffset", 6, 0);
    check_bulk(&rt, b"ab\0cd", 0, before, past, after, 6);
}

// Checks that reading these bytes whole as a string returns these, or is refused where these are
// none.
fn check_text(rt: &impl Abort, bytes: &[u8], wanted: &[u8]) {
    let text: Result<&str> = bytes.pread_with(0, StrCtx::Length(bytes.len()));
    check_eq(rt, text.unwrap_or_default().as_bytes(), wanted);
}

// The forms of a character, as in table 3-7 of the Unicode Standard: the range of each of its
// bytes.
static FORMS: [&[(u8, u8)]; 9] = [
    &[(0x00, 0x7f)],
    &[(0xc2, 0xdf), (0x80, 0xbf)],
    &[(0xe0, 0xe0), (0xa0, 0xbf), (0x80, 0xbf)],
    &[(0xe1, 0xec), (0x80, 0xbf), (0x80, 0xbf)],
    &[(0xed, 0xed), (0x80, 0x9f), (0x80, 0xbf)],
    &[(0xee, 0xef), (0x80, 0xbf), (0x80, 0xbf)],
    &[(0xf0, 0xf0), (0x90, 0xbf), (0x80, 0xbf), (0x80, 0xbf)],
    &[(0xf1, 0xf3), (0x80, 0xbf), (0x80, 0xbf), (0x80, 0xbf)],
    &[(0xf4, 0xf4), (0x80, 0x8f), (0x80, 0xbf), (0x80, 0xbf)],
];

// Returns whether these bytes have one form.
fn has_form(bytes: &[u8], form: &[(u8, u8)]) -> bool {
    for (index, &byte) in bytes.iter().enumerate() {
        match form.get(index) {
            Some(&(low, high)) if low <= byte && byte <= high => {}
            _ => return false,
        }
    }
    true
}

// Returns whether these bytes are one character.
fn is_character(bytes: &[u8]) -> bool {
    for form in &FORMS {
        if form.len() == bytes.len() && has_form(bytes, form) {
            return true;
        }
    }
    false
}

// Returns these bytes if they are one or two characters, and else none.
fn characters(bytes: &[u8]) -> &[u8] {
    for n in 1..bytes.len() {
        if is_character(&bytes[..n]) && is_character(&bytes[n..]) {
            return bytes;
        }
    }
    if is_character(bytes) { bytes } else { b"" }
}

#[test]
fn characters_of_utf8(rt: HostRuntime) {
    let rt = &rt;
    for first in 0x80..=u8::MAX {
        for second in 0..=u8::MAX {
            for bytes in [
                &[first][..],
                &[first, second],
                &[first, 0x90, second],
                &[first, second, 0x80],
                &[first, 0x90, 0xbf, second],
                &[first, 0x90, second, 0x80],
                &[first, second, 0xbf, 0x80],
            ] {
                check_text(rt, bytes, characters(bytes));
                check_behind_letters(rt, bytes);
            }
        }
    }
}

// Checks bytes behind two letters.
fn check_behind_letters(rt: &impl Abort, bytes: &[u8]) {
    let mut text = *b"\xc3\xa9\xe6\xbc\xa2\0\0\0\0";
    put(&mut text, 5, bytes);
    let text = text.get(..bytes.len().saturating_add(5)).unwrap_or(b"");
    check_delimited(rt, text);
}

// Checks that a string up to the first zero is read where the standard library takes the bytes for
// UTF-8, and refused where it doesn't, and that the table of states says the same of all bytes.
fn check_delimited(rt: &impl Abort, bytes: &[u8]) {
    let end = bytes.iter().position(|byte| *byte == 0);
    let before = bytes.get(..end.unwrap_or(bytes.len())).unwrap_or(b"");
    let wanted = str::from_utf8(before);
    check_eq(rt, is_text(before), wanted.is_ok());
    let text: Result<&str> = bytes.pread_with(0, StrCtx::Delimiter(0));
    check_eq(rt, text.is_ok(), wanted.is_ok());
    check_eq(rt, text.unwrap_or_default(), wanted.unwrap_or_default());
}

// Puts a piece at an offset.
fn put(bytes: &mut [u8], at: usize, piece: &[u8]) {
    for (k, &byte) in piece.iter().enumerate() {
        if let Some(place) = bytes.get_mut(at.saturating_add(k)) {
            *place = byte;
        }
    }
}

// Checks bytes whole, and cut off at these offsets.
fn check_cut(rt: &impl Abort, bytes: &[u8], ends: [usize; 2]) {
    check_delimited(rt, bytes);
    for &end in &ends {
        check_delimited(rt, bytes.get(..end).unwrap_or(b""));
    }
}

// Letters, those at the ends of their forms too, and bytes that are none: cut off, overlong, a
// surrogate, past the last one.
static PIECES: [&[u8]; 17] = [
    b"\xc3\xa9",
    b"\xe6\xbc\xa2",
    b"\xf0\x9f\x98\x80",
    b"\xe0\xa0\x80",
    b"\xed\x9f\xbf",
    b"\xf1\x80\x80\x80",
    b"\xf3\xbf\xbf\xbf",
    b"\xf4\x8f\xbf\xbf",
    b"\xc3",
    b"\xe6\xbc",
    b"\xf0\x9f\x98",
    b"\x80",
    b"\xc0\x80",
    b"\xe0\x9f\xbf",
    b"\xed\xa0\x80",
    b"\xf4\x90\x80\x80",
    b"\0",
];

// A piece at each place, on both sides of the ends of blocks, and cut off: in ASCII, behind one
// letter beyond ASCII, behind several, and with several in the middle too.
#[test]
fn pieces_of_utf8(rt: HostRuntime) {
    let rt = &rt;
    for at in 9..136usize {
        for piece in &PIECES {
            let ends = [at + 1, at.saturating_add(piece.len())];
            let mut bytes = [b'a'; 140];
            put(&mut bytes, at, piece);
            check_cut(rt, &bytes, ends);
            put(&mut bytes, 0, b"\xc3\xa9");
            check_cut(rt, &bytes, ends);
            put(&mut bytes, 2, b"\xc3\xa9\xe6\xbc\xa2\xc3\xa9");
            check_cut(rt, &bytes, ends);
            put(&mut bytes, 72, b"\xc3\xa9\xe6\xbc\xa2\xc3\xa9");
            put(&mut bytes, at, piece);
            check_cut(rt, &bytes, ends);
        }
    }
}

// Texts by their bytes from the first letter beyond ASCII on, and whether the table of states
// decides them: no letters, one, few bytes, and several that the middle has or hasn't.
static TEXTS: [(&[u8], bool); 13] = [
    (
        b"\xff\xff\xff\xff\xff\xff\xff\xff\xff\xff\xff\xff\xff\xff\xff\xff\xff",
        false,
    ),
    (
        b"\xcf\xf0\xe8\xec\xe5\xf0 \xed\xe0\xe7\xe2\xe0\xed\xe8\xff \xf4",
        false,
    ),
    (
        b"\xc2\xb3\xed\xe5\xed\xe8\xf0 \xe2\xb3\xf2\xe0\xbd\xbf\xb3 \xb3",
        false,
    ),
    (b"\xc3\xa9\xe9 \xc3\xa9aaaaaaaaaaa", false),
    (b"\xc3\xa9aaaaaaaaaaaaaaa", false),
    (b"\xc3", false),
    (b"\xe9 a", false),
    (b"\xc3\xa9aaaaaaaaaaaaaa", true),
    (b"\xc3\xa9aaaaaaaaaaaaaa\xc3", true),
    (b"\xc3\xa9\xc3\xa9aaaaaaaaaaaaaaaaaaaaaaaaaaa", true),
    (b"\xc3\xa9\xc3\xa9aaaaaaaaaaaaaaaaaaaaaaaaaaaa", false),
    (b"\xc3\xa9\xc3\xa9aaaaaaaaaaaa\xc3\xa9aaaaaaaaaaaaaa", true),
    (b"", false),
];

#[test]
fn texts_that_the_table_decides(rt: HostRuntime) {
    for &(bytes, wanted) in &TEXTS {
        check_eq(&rt, is_dense(bytes), wanted);
    }
}

// How many bytes the letters beyond ASCII take at the start of a text, or in its middle: those of
// one letter, of two, of three and of eight.
static STARTS: [usize; 4] = [2, 4, 6, 16];

// A text of each length on both sides of those that decide who tests it: with few or many letters
// at its start and in its middle, whole, and with a byte that is none at its end.
#[test]
fn texts_of_each_length(rt: HostRuntime) {
    let rt = &rt;
    for len in 1..130usize {
        for &start in &STARTS {
            for &middle in &STARTS {
                let mut bytes = [b'a'; 130];
                fill_letters(&mut bytes, 0, start);
                fill_letters(&mut bytes, len / 2, middle);
                check_delimited(rt, bytes.get(..len).unwrap_or(b""));
                put(&mut bytes, len - 1, b"\xff");
                check_delimited(rt, bytes.get(..len).unwrap_or(b""));
            }
        }
    }
}

// Puts letters of two bytes, `count` bytes in all, from an offset on.
fn fill_letters(bytes: &mut [u8], from: usize, count: usize) {
    for k in 0..count / 2 {
        put(bytes, from.saturating_add(2 * k), b"\xc3\xa9");
    }
}

const REQUIRED: StrCtx = StrCtx::Required(0);

const MISSING: &str = "missing delimiter";

// Bytes with no string at an offset, and the error of its read.
static NOT_DELIMITED: [(&[u8], usize, Parts<'static>); 4] = [
    (b"ab\0", 3, (MISSING, 0, 0)),
    (b"ab", 0, (MISSING, 2, 0)),
    (b"\xffa", 0, (MISSING, 2, 0)),
    (b"\xff\0", 0, ("invalid utf8", 2, 0)),
];

#[test]
fn texts(rt: HostRuntime) {
    let rt = &rt;
    check_eq(rt, (REQUIRED.len(), REQUIRED.is_empty()), (1, false));
    check_read(rt, b"ab\0", 0, REQUIRED, "ab", 3);
    for &(bytes, from, error) in &NOT_DELIMITED {
        check_no_read::<&str, _>(rt, bytes, from, REQUIRED, error);
    }
}

#[test]
fn arrays_of_texts(rt: HostRuntime) {
    check_read(&rt, b"a\0b\0", 0, REQUIRED, ["a", "b"], 4);
}
