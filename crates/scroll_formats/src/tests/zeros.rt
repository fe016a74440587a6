// Bytes that are all zero, written and read.
use crate::Zeros;
use crate::tests::results::{check_eq, check_error, check_value};
use scroll::{Pread, slice};

#[test]
fn zeros_that_are_written_and_read(rt: HostRuntime) {
    let rt = &rt;
    let mut bytes = [9u8; 5];
    check_value(rt, slice::pwrite_with(&mut bytes, Zeros, 1, 3), 3);
    check_eq(rt, bytes, [9, 0, 0, 0, 9]);
    let offset = &mut 1;
    check_value(rt, bytes[..].gread_with(offset, 3), Zeros);
    check_eq(rt, *offset, 4);
    let refused = bytes[..].pread_with::<Zeros>(1, 4);
    check_error(rt, refused, ("padding is not zero", 3, 0));
    slice::cwrite_with(&mut bytes, Zeros, 0, 5);
    check_eq(rt, bytes, [0; 5]);
}
