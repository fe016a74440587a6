// The printed lines.
use crate::tests::results::check_eq;
use crate::{SmallError, Table};
use arrayvec::ArrayString;
use scroll::{BE, Error};
use std::fmt::{Debug, Display, Write};
use std::mem;
use std::process::Abort;

// Checks the line that an error prints. What doesn't fit is cut off, and then differs from what is
// expected.
fn check_line<E: Display + Drop>(rt: &impl Abort, error: E, wanted: &str) {
    let mut line: ArrayString<40> = ArrayString::new();
    let _ = write!(line, "{error}");
    check_eq(rt, line.as_str(), wanted);
}

// Each small error prints the line of the error that it becomes, and is what that error becomes
// again.
#[test]
fn lines_of_small_errors(rt: HostRuntime) {
    let rt = &rt;
    let msg = "invalid utf8";
    let bad = SmallError::BadInput { size: 3, msg };
    check_there_and_back(
        rt,
        SmallError::TooBig { size: 8, len: 4 },
        "type is too big (8) for 4",
    );
    check_there_and_back(rt, SmallError::BadOffset(5), "bad offset 5");
    check_there_and_back(rt, bad, "bad input invalid utf8 (3)");
    check_there_and_back(rt, SmallError::Other, "other error");
    check_eq(rt, SmallError::from(Error::NoMemory), SmallError::Other);
    check_eq(rt, mem::size_of::<SmallError>() <= 32, true);
}

fn check_there_and_back(rt: &impl Abort, small: SmallError, wanted: &str) {
    check_line(rt, small, wanted);
    check_line(rt, Error::from(small), wanted);
    check_eq(rt, SmallError::from(Error::from(small)), small);
}

#[test]
fn tables_are_printed_with_their_bytes(rt: HostRuntime) {
    let table: Table<'_, u16> = Table::new(&[1, 2], BE);
    check_fields(
        &rt,
        table,
        "Table { bytes: [1, 2], order: Big, of: PhantomData<_> }",
    );
}

// Checks what a value prints of its fields.
fn check_fields<T: Debug + Drop>(rt: &impl Abort, value: T, wanted: &str) {
    let mut line: ArrayString<80> = ArrayString::new();
    let _ = write!(line, "{value:?}");
    check_eq(rt, line.as_str(), wanted);
}
