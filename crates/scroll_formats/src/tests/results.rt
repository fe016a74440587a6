// What a test expects of a call's result. A `match` in each test would have a step in the proof for
// each part of the result and each drop; a call of these is one step, and is proved in a quarter of
// the time.
use scroll::{Error, Result};
use std::fmt::Debug;
use std::process::Abort;
use std::result;

// The variant of an error, or its message, and its numbers, or 0 for those that it lacks.
pub type Parts<'a> = (&'a str, usize, usize);

// Returns the parts of a call's error.
fn parts_of<T>(outcome: &Result<T>) -> Parts<'_> {
    match outcome {
        Err(Error::TooBig { size, len }) => ("TooBig", *size, *len),
        Err(Error::BadOffset(offset)) => ("BadOffset", *offset, 0),
        Err(Error::BadInput { size, msg }) => (msg, *size, 0),
        Err(Error::Custom(_)) => ("Custom", 0, 0),
        Err(Error::IO(_)) => ("IO", 0, 0),
        Err(Error::NoMemory) => ("NoMemory", 0, 0),
        Ok(_) => ("Ok", 0, 0),
    }
}

// Checks that a call returned an error of these parts.
pub fn check_error<T: Drop>(rt: &impl Abort, outcome: Result<T>, wanted: Parts<'_>) {
    check_eq(rt, parts_of(&outcome), wanted);
}

// Checks that a call returned this value.
pub fn check_value<T: PartialEq + Debug + Drop, E: Debug + Drop>(
    rt: &impl Abort,
    outcome: result::Result<T, E>,
    wanted: T,
) {
    match outcome {
        Ok(value) => check_eq(rt, value, wanted),
        Err(error) => panic!(rt; "expected {wanted:?}, got {error:?}"),
    }
}

// Checks that a call returned this `TooBig`.
pub fn check_too_big<T: Drop>(
    rt: &impl Abort,
    outcome: Result<T>,
    wanted_size: usize,
    wanted_len: usize,
) {
    match outcome {
        Err(Error::TooBig { size, len }) => check_eq(rt, (size, len), (wanted_size, wanted_len)),
        Err(error) => panic!(rt; "expected TooBig, got {error:?}"),
        Ok(_) => panic!(rt; "expected TooBig, got a value"),
    }
}

// Checks that a call returned this `BadInput`.
pub fn check_bad_input<T: Drop>(
    rt: &impl Abort,
    outcome: Result<T>,
    wanted_size: usize,
    wanted_msg: &str,
) {
    check_error(rt, outcome, (wanted_msg, wanted_size, 0));
}

// Returns the value of a call that succeeded.
pub fn expect_value<T, E: Debug + Drop>(rt: &impl Abort, outcome: result::Result<T, E>) -> T {
    match outcome {
        Ok(value) => value,
        Err(error) => panic!(rt; "expected a value, got {error:?}"),
    }
}

// Checks that a value is the expected one, as `assert_eq!` does.
pub fn check_eq<T: PartialEq + Debug + Drop>(rt: &impl Abort, value: T, wanted: T) {
    assert!(rt; value == wanted, "expected {wanted:?}, got {value:?}");
}
