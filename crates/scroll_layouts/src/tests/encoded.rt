// Numbers of any length besides those in LEB128, and fields of a fixed width, on bytes from outside:
// the examples of *Standard MIDI Files 1.0* and of Protocol Buffers' documentation, and fields of
// headers by GNU tar and ar.
use crate::tests::results::{Parts, check_eq, check_error, check_value};
use crate::{Digits, Filled, Octal, Vlq, Zigzag, read_whole, write_whole};
use scroll::{Error, LE, Result};

static DELTAS: [(u64, [u8; 4]); 4] = [
    (0x7f, [0x7f, 0, 0, 0]),
    (0x80, [0x81, 0, 0, 0]),
    (0x20_0000, [0x81, 0x80, 0x80, 0]),
    (0x0fff_ffff, [0xff, 0xff, 0xff, 0x7f]),
];

static SIGNED: [(i64, [u8; 5]); 4] = [
    (-1, [1, 0, 0, 0, 0]),
    (1, [2, 0, 0, 0, 0]),
    (2_147_483_647, [0xfe, 0xff, 0xff, 0xff, 0x0f]),
    (-2_147_483_648, [0xff, 0xff, 0xff, 0xff, 0x0f]),
];

static REFUSED: [(&str, Parts<'static>); 3] = [
    ("0000o44\0", ("the digits are no number", 8, 0)),
    ("64 4    ", ("the digits are no number", 8, 0)),
    ("644", ("TooBig", 8, 3)),
];

fn delta(bytes: &[u8]) -> Result<u64> {
    let (number, _) = read_whole::<(), Error, Vlq>(bytes, LE, &())?;
    Ok(number.value)
}

fn signed(bytes: &[u8]) -> Result<i64> {
    let (number, _) = read_whole::<(), Error, Zigzag>(bytes, LE, &())?;
    Ok(number.value)
}

fn octal(bytes: &[u8]) -> Result<u64> {
    let (number, _) = read_whole::<(), Error, Octal<8>>(bytes, LE, &())?;
    Ok(number.value)
}

fn name(bytes: &[u8]) -> Result<usize> {
    let (text, _) = read_whole::<Filled, Error, &[u8]>(bytes, LE, &Filled(16, b' '))?;
    Ok(text.len())
}

#[test]
fn numbers_of_any_length(rt: HostRuntime) {
    for (value, bytes) in &DELTAS {
        check_value(&rt, delta(bytes), *value);
        let mut again = [0; 4];
        let _size = write_whole::<(), Error, Vlq>(&Vlq::shortest(*value), &mut again, LE, &());
        check_eq(&rt, again, *bytes);
    }
    for (value, bytes) in &SIGNED {
        check_value(&rt, signed(bytes), *value);
        let mut again = [0; 5];
        let _size = write_whole::<(), Error, Zigzag>(
            &Zigzag::shortest(*value),
            &mut again,
            LE,
            &(),
        );
        check_eq(&rt, again, *bytes);
    }
}

#[test]
fn fields_of_a_fixed_width(rt: HostRuntime) {
    check_value(&rt, octal(b"0000644\0"), 420);
    check_value(&rt, octal(b"   644 \0"), 420);
    check_value(&rt, octal(b"\0\0\0\0\0\0\0\0"), 0);
    for (field, wanted) in &REFUSED {
        check_error(&rt, octal(field.as_bytes()), *wanted);
    }
    check_value(&rt, name(b"hello.o/        "), 8);
    let field: Option<Octal<4>> = Digits::new(*b"0x1 ");
    check_eq(&rt, field.is_none(), true);
}
