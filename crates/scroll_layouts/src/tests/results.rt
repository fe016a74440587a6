// What a test expects of a call's result. A call of these is one step of the test's proof, where a
// `match` would be several.
use scroll::{Error, Result, slice};
use std::fmt::Debug;
use std::process::Abort;

// The variant of an error, or its message, and its numbers, or 0 for those that it lacks.
pub type Parts<'a> = (&'a str, usize, usize);

// Returns the parts of a call's error.
fn parts_of<T>(outcome: &Result<T>) -> Parts<'_> {
    match outcome {
        Err(Error::TooBig { size, len }) => ("TooBig", *size, *len),
        Err(Error::BadOffset(offset)) => ("BadOffset", *offset, 0),
        Err(Error::BadInput { size, msg }) => (msg, *size, 0),
        Err(_) => ("another error", 0, 0),
        Ok(_) => ("Ok", 0, 0),
    }
}

// Checks that a call returned an error of these parts.
pub fn check_error<T: Drop>(rt: &impl Abort, outcome: Result<T>, wanted: Parts<'_>) {
    check_eq(rt, parts_of(&outcome), wanted);
}

// Checks that a call returned this value.
pub fn check_value<T: PartialEq + Debug + Drop>(rt: &impl Abort, outcome: Result<T>, wanted: T) {
    match outcome {
        Ok(value) => check_eq(rt, value, wanted),
        Err(error) => panic!(rt; "expected {wanted:?}, got {error:?}"),
    }
}

// Checks that a value is the expected one, as `assert_eq!` does.
pub fn check_eq<T: PartialEq + Debug + Drop>(rt: &impl Abort, value: T, wanted: T) {
    assert!(rt; value == wanted, "expected {wanted:?}, got {value:?}");
}

// Returns some bytes with others at an offset.
pub fn patched<const N: usize>(bytes: &[u8; N], at: usize, patch: &[u8]) -> [u8; N] {
    let mut other = *bytes;
    let _size: Result<usize> = slice::pwrite_with(&mut other, patch, at, ());
    other
}
