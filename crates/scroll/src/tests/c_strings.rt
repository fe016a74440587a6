// C strings, and those of std, read and written, and converted from those of the crate. Each test
// also passes where an allocation fails (`rt try --test --fail-alloc N`): the call that allocates
// then returns `NoMemory`, and nothing else changes. So what allocates is called twice: whichever
// allocation fails, one of the two calls must succeed.
ghost use Rattle.std.specs.Prelude.{◌≤◌};

use crate::cstr::{CStr, CString};
use crate::ctx::{TryFromCtx, TryIntoCtx};
use crate::tests::reads::{check_no_read, check_no_write, check_read, check_write};
use crate::tests::results::{
    Parts, check_bad_input, check_eq, check_too_big, check_value, expect_value,
};
use crate::{Error, Pread, Pwrite, Result};
use std::alloc::Global;
use std::ffi;
use std::process::Abort;

// The error of a source with no zero.
const NONE: Parts<'static> = ("The input doesn't contain a null byte", 0, 0);

// Returns whether a call succeeded, and expects no error except out of memory.
fn has_memory<T>(rt: &impl Abort, outcome: &Result<T>) -> bool {
    match outcome {
        Ok(_) => true,
        Err(Error::NoMemory) => false,
        Err(error) => panic!(rt; "expected a value or NoMemory, got {error:?}"),
    }
}

// Returns the C string of a text, from one of two calls.
fn make(rt: &impl Abort, alloc: Global, text: &[u8]) -> CString {
    let first = CString::new(alloc, text);
    has_memory(rt, &first);
    first
        .or(CString::new(alloc, text))
        .expect(rt, "no memory twice")
}

// Reads a value at a cursor, which then is `to`, or unchanged where the call runs out of memory.
fn read_once<'a, T: TryFromCtx<'a, &'a Global, Error = Error> + Drop>(
    rt: &impl Abort,
    alloc: &'a Global,
    source: &'a [u8],
    from: usize,
    to: usize,
) -> Option<T> {
    let mut offset = from;
    let value = source.gread_with(&mut offset, alloc);
    check_eq(rt, offset, if has_memory(rt, &value) { to } else { from });
    value.ok()
}

// Reads a value at a cursor, which then is `to`, by one of two calls.
fn read_copy<'a, T: TryFromCtx<'a, &'a Global, Error = Error> + Drop>(
    rt: &impl Abort,
    alloc: &'a Global,
    source: &'a [u8],
    from: usize,
    to: usize,
) -> T {
    let first = read_once(rt, alloc, source, from, to);
    let second = read_once(rt, alloc, source, from, to);
    first.or(second).expect(rt, "no memory twice")
}

// Returns the C string at the start of these bytes.
fn borrow<'a>(rt: &impl Abort, bytes: &'a [u8]) -> CStr<'a> {
    CStr::from_bytes_until_nul(bytes).expect(rt, "no zero")
}

// Checks that C strings are read at a cursor, which then is `to`, and that no zero is found there.
fn check_reads(
    rt: &impl Abort,
    alloc: &Global,
    source: &[u8],
    from: usize,
    wanted: &[u8],
    to: usize,
) {
    check_read(rt, source, from, (), borrow(rt, wanted), to);
    let copy: CString = read_copy(rt, alloc, source, from, to);
    check_eq(rt, copy.as_bytes_with_nul(), wanted);
    check_no_read::<CStr, _>(rt, source, to, (), NONE);
    check_no_read::<CString, _>(rt, source, to, alloc, NONE);
}

// Checks that a C string is made of a text, and has these bytes with its zero.
fn check_held(rt: &impl Abort, alloc: Global, text: &[u8], wanted: &[u8]) {
    let string = make(rt, alloc, text);
    let view = string.as_c_str();
    check_eq(rt, (string.as_bytes(), view.to_bytes()), (text, text));
    let whole = (string.as_bytes_with_nul(), view.to_bytes_with_nul());
    check_eq(rt, whole, (wanted, wanted));
}

#[test]
fn parse_a_cstr(rt: HostRuntime) {
    let rt = &rt;
    let string = make(rt, rt.alloc(), b"Hello World");
    let text = string.as_c_str();
    let bytes = string.as_bytes_with_nul();
    check_value(rt, CStr::try_from_ctx(bytes, ()), (text, 12));
}

#[test]
fn round_trip_a_c_str(rt: HostRuntime) {
    let rt = &rt;
    let string = make(rt, rt.alloc(), b"Hello World");
    let text = string.as_c_str();
    let mut bytes = [0u8; 12];
    check_value(rt, text.try_into_ctx(&mut bytes, ()), 12);
    check_value(rt, CStr::try_from_ctx(&bytes, ()), (text, 12));
}

// Texts that contain a zero, and where.
static REFUSED: [(&[u8], usize); 3] = [(b"a\0b", 1), (b"\0", 0), (b"ab\0\0", 2)];

// Texts, and the bytes of their C strings.
static HELD: [(&[u8], &[u8]); 4] = [
    (b"", b"\0"),
    (b"a", b"a\0"),
    (b"\xff\x01 \xc3", b"\xff\x01 \xc3\0"),
    (b"Hello World", b"Hello World\0"),
];

#[test]
fn texts_that_are_held(rt: HostRuntime) {
    let rt = &rt;
    let alloc = rt.alloc();
    for &(text, offset) in &REFUSED {
        check_bad_input(rt, CString::new(alloc, text), offset, "nul byte in text");
    }
    for &(text, wanted) in &HELD {
        check_held(rt, alloc, text, wanted);
    }
}

#[test]
fn texts_of_each_length(rt: HostRuntime) {
    let text = [b'a'; 65_536];
    for &len in &LENGTHS {
        check_whole(&rt, rt.alloc(), text.get(..len).unwrap_or_default());
    }
}

static LENGTHS: [usize; 7] = [0, 1, 255, 256, 4096, 65_535, 65_536];

// Checks that a text is held, and that it is read back.
fn check_whole(rt: &impl Abort, alloc: Global, text: &[u8]) {
    let string = make(rt, alloc, text);
    check_eq(rt, string.as_bytes(), text);
    let source = string.as_bytes_with_nul();
    check_reads(rt, &alloc, source, 0, source, source.len());
    let copy: ffi::CString = read_copy(rt, &alloc, source, 0, source.len());
    check_eq(rt, copy.as_bytes(), text);
}

// Texts of each length, and a longer one. An allocation failure ends the test.
#[test]
fn copies_of_each_length(rt: HostRuntime) {
    for len in 0..1101 {
        check_copies(&rt, rt.alloc(), len);
    }
    check_copies(&rt, rt.alloc(), 5000);
}

// Checks that a text of so many bytes is held, and that it is copied from a source.
fn check_copies(rt: &impl Abort, alloc: Global, len: usize)
    requires { len ≤ 5000 }
{
    let text = &[b'a'; 5000][..len];
    let string = expect_value(rt, CString::new(alloc, text));
    let source = string.as_bytes_with_nul();
    let copy: CString = expect_value(rt, source.pread_with(0, &alloc));
    let other: ffi::CString = expect_value(rt, source.pread_with(0, &alloc));
    check_eq(rt, (copy.as_bytes(), other.as_bytes()), (text, text));
}

// Checks whether the C strings at the start of these bytes are equal.
fn check_same(rt: &impl Abort, bytes: &[u8], other: &[u8], wanted: bool) {
    let same = borrow(rt, bytes) == borrow(rt, other);
    check_eq(rt, (bytes, same), (bytes, wanted));
}

#[test]
fn up_to_the_first_zero(rt: HostRuntime) {
    let rt = &rt;
    check_eq(rt, borrow(rt, b"a\0b\0").to_bytes(), b"a");
    check_eq(rt, CStr::from_bytes_until_nul(b"a"), None);
    check_eq(rt, CStr::from_bytes_until_nul(b""), None);
    check_same(rt, b"a\0b\0", b"a\0\0", true);
    check_same(rt, b"b\0", b"a\0\0", false);
    check_same(rt, b"aa\0", b"a\0\0", false);
}

#[test]
fn reads(rt: HostRuntime) {
    let rt = &rt;
    let alloc = &rt.alloc();
    let source: &[u8] = b"hello world\0more words";
    check_reads(rt, alloc, source, 6, b"world\0", 12);
    check_no_read::<CString, _>(rt, source, 23, alloc, ("BadOffset", 23, 0));
    // the empty text
    check_reads(rt, alloc, b"\0", 0, b"\0", 1);
}

#[test]
fn arrays_of_c_strings(rt: HostRuntime) {
    let rt = &rt;
    let alloc = &rt.alloc();
    let source: &[u8] = b"ab\0\0c";
    check_no_read::<[CString; 2], _>(rt, source, 4, alloc, NONE);
    let strings: [CString; 2] = read_copy(rt, alloc, source, 0, 4);
    let [first, second] = &strings;
    check_eq(rt, first.as_bytes(), b"ab");
    check_eq(rt, second.as_bytes(), b"");
}

#[test]
fn writes(rt: HostRuntime) {
    let rt = &rt;
    let alloc = rt.alloc();
    let mut bytes = [0xffu8; 7];
    check_write(rt, &mut bytes, borrow(rt, b"ab\0"), 0, (), 3);
    check_no_write(rt, &mut bytes, borrow(rt, b"a\0"), 6, (), ("TooBig", 2, 1));
    let mut target: &mut [u8] = &mut bytes;
    check_value(rt, target.pwrite(make(rt, alloc, b"cd"), 3), 3);
    check_too_big(rt, target.pwrite(make(rt, alloc, b"a"), 6), 2, 1);
    check_eq(rt, &bytes, b"ab\0cd\0\xff");
}

const BYTES: &[u8] = b"on\0off\0";

const CUT: &[u8] = b"on";

#[test]
fn borrowed(rt: HostRuntime) {
    let rt = &rt;
    let text = ffi::CStr::from(borrow(rt, b"off\0"));
    check_eq(rt, text.to_bytes(), b"off");
    check_eq(rt, CStr::from(text).to_bytes_with_nul(), b"off\0");
    check_read(rt, BYTES, 3, (), text, 7);
    check_no_read::<ffi::CStr, _>(rt, CUT, 0, (), NONE);
    let mut target = [7u8; 5];
    check_write(rt, &mut target, text, 1, (), 4);
    check_eq(rt, &target, b"\x07off\0");
    check_no_write(rt, &mut target[..3], text, 0, (), ("TooBig", 4, 3));
}

#[test]
fn owned(rt: HostRuntime) {
    let rt = &rt;
    let alloc = &rt.alloc();
    check_no_read::<ffi::CString, _>(rt, CUT, 0, alloc, NONE);
    let read: ffi::CString = read_copy(rt, alloc, BYTES, 0, 3);
    check_eq(rt, read.as_bytes(), b"on");
    let string = CString::from(read);
    check_eq(rt, string.as_bytes_with_nul(), b"on\0");
    let mut target = [7u8; 5];
    let back = ffi::CString::from(string);
    check_value(rt, back.try_into_ctx(&mut target, ()), 3);
    check_eq(rt, &target, b"on\0\x07\x07");
}
