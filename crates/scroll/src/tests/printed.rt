// The printed lines.
use crate::tests::results::check_eq;
use crate::{Error, IOwrite, Sleb128, Uleb128};
use arrayvec::ArrayString;
use std::fmt::{Debug, Display, Write};
use std::io;
use std::io::ErrorKind;
use std::process::Abort;

// Checks the line that an error prints. What doesn't fit is cut off, and then differs from what is
// expected.
fn check_line<E: Display + Drop>(rt: &impl Abort, error: E, wanted: &str) {
    let mut line: ArrayString<40> = ArrayString::new();
    let _ = write!(line, "{error}");
    check_eq(rt, line.as_str(), wanted);
}

// An allocation failure ends the test.
#[test]
fn lines_of_errors(rt: HostRuntime) {
    let text = String::from_str(rt.alloc(), "no such field").expect(&rt, "no memory");
    let rt = &rt;
    let short = Error::TooBig { size: 8, len: 4 };
    check_line(rt, short, "type is too big (8) for 4");
    check_line(rt, Error::BadOffset(5), "bad offset 5");
    let msg = "invalid utf8";
    let bad = Error::BadInput { size: 3, msg };
    check_line(rt, bad, "bad input invalid utf8 (3)");
    check_line(rt, Error::Custom(text), "no such field");
    check_line(rt, Error::NoMemory, "out of memory");
    let ended = io::Error::from(ErrorKind::UnexpectedEof);
    check_line(rt, Error::from(ended), "unexpected end of file");
    let mut full: &mut [u8] = &mut [];
    let error = full.iowrite(7u8).err().expect(rt, "an error");
    check_line(rt, error, "failed to write whole buffer");
}

// Checks what a value prints.
fn check_debug<T: Debug + Drop>(rt: &impl Abort, value: T, wanted: &str) {
    let mut line: ArrayString<40> = ArrayString::new();
    let _ = write!(line, "{value:?}");
    check_eq(rt, line.as_str(), wanted);
}

#[test]
fn numbers_in_leb128(rt: HostRuntime) {
    let rt = &rt;
    check_debug(
        rt,
        Uleb128::shortest(300),
        "Uleb128 { value: 300, count: 2 }",
    );
    check_debug(rt, Sleb128::shortest(-7), "Sleb128 { value: -7, count: 1 }");
}
