// LEB128 encodings, the readers compared with each other, and encodings that are written.
ghost use Rattle.std.specs.Prelude.{◌<◌, ◌≤◌};

use crate::ctx::TryFromCtx;
use crate::leb128::{
    Leb128, LebNumber, plain_sleb, plain_uleb, sleb_block, sleb_loads, uleb_block, uleb_loads,
};
use crate::tests::reads::{check_no_write, check_write};
use crate::tests::results::{Parts, check_eq, check_error, check_value};
use crate::{Error, LE, Loads, Pread, Result, Sleb128, Uleb128};
use std::fmt::Debug;
use std::process::Abort;

// Checks that a read of a number's value is refused with this error, and that the cursor is left.
pub fn check_no_number<V: LebNumber + Drop>(
    rt: &impl Abort,
    source: &[u8],
    from: usize,
    wanted: Parts<'_>,
) {
    let mut offset = from;
    check_error(rt, Leb128::<V>::read(source, &mut offset), wanted);
    check_eq(rt, offset, from);
}

// Checks that a read of `len` bytes was refused: ten bytes or more are no number, and fewer are
// truncated.
fn check_refusal<T: Drop>(rt: &impl Abort, read: Result<T>, len: usize) {
    let truncated = ("TooBig", 1, 0);
    let wanted = if len < 10 {
        truncated
    } else {
        ("failed to parse", len, 0)
    };
    check_error(rt, read, wanted);
}

// Checks that both types refuse a source.
fn check_refused(rt: &impl Abort, source: &[u8]) {
    check_refusal(rt, source.pread::<Uleb128>(0), source.len());
    check_refusal(rt, source.pread::<Sleb128>(0), source.len());
}

// Reads the number that stands at the start of a source.
fn read<'a, N: TryFromCtx<'a, (), Error = Error> + Drop>(rt: &impl Abort, source: &'a [u8]) -> N {
    source.pread(0).expect(rt, "a number")
}

static NUMBERS: [(&[u8], u64, usize); 3] = [
    (&[0x82, 1], 130, 2),
    (&[0, 1], 0, 1),
    (&[0x21], 33, 1),
];

#[test]
fn uleb_size(rt: HostRuntime) {
    for &(bytes, value, size) in &NUMBERS {
        let number: Uleb128 = read(&rt, bytes);
        check_eq(&rt, (*number.as_ref(), number.size()), (value, size));
    }
}

#[test]
fn uleb128(rt: HostRuntime) {
    let bytes: [u8; 2] = [0x82, 1];
    let number: Uleb128 = read(&rt, &bytes);
    check_eq(&rt, u64::from(number), 130);
    check_value(&rt, bytes.pread_with::<u16>(0, LE), 386);
}

static OVERFLOW: [u8; 11] = [
    0x82, 0x82, 0x82, 0x82, 0x82, 0x82, 0x82, 0x82, 0x82, 0x82, 1,
];

#[test]
fn uleb128_overflow(rt: HostRuntime) {
    check_refused(&rt, &OVERFLOW);
}

#[test]
fn sleb128(rt: HostRuntime) {
    let number: Sleb128 = read(&rt, &[0xff, 0x7e]);
    check_eq(&rt, i64::from(number), -129);
    check_value(&rt, Sleb128::read(&[0xff, 0x7e], &mut 0), -129);
    let number: Sleb128 = read(&rt, &EIGHT_GROUPS);
    let wanted = (-72057594037927936, 9);
    check_eq(&rt, (*number.as_ref(), number.size()), wanted);
}

static EIGHT_GROUPS: [u8; 9] = [0x80, 0x80, 0x80, 0x80, 0x80, 0x80, 0x80, 0x80, 0x7f];

#[test]
fn reads_with_an_offset(rt: HostRuntime) {
    let bytes: [u8; 3] = [0xff, 0x82, 1];
    let mut offset = 1;
    check_value(&rt, Uleb128::read(&bytes, &mut offset), 130);
    check_eq(&rt, offset, 3);
    check_no_number::<u64>(&rt, &bytes, 3, ("TooBig", 1, 0));
    check_no_number::<i64>(&rt, &bytes, 4, ("BadOffset", 4, 0));
}

// Checks that a number isn't equal to the same with more bytes.
fn check_different<'a, N: TryFromCtx<'a, (), Error = Error> + PartialEq + Drop>(
    rt: &impl Abort,
    short: &'a [u8],
    padded: &'a [u8],
) {
    let short: N = read(rt, short);
    let padded: N = read(rt, padded);
    check_eq(rt, [short == short, short == padded], [true, false]);
}

#[test]
fn numbers_with_their_lengths_are_compared(rt: HostRuntime) {
    check_different::<Uleb128>(&rt, &[0], &[0x80, 0]);
    check_different::<Sleb128>(&rt, &[0x7f], &[0xff, 0x7f]);
}

#[test]
fn cuts(rt: HostRuntime) {
    let bytes = [0xffu8; 12];
    for len in 0..13 {
        check_refused(&rt, &bytes[..len]);
    }
}

// Eight bytes, and what both types read of them.
static BLOCKS: [([u8; 8], Option<(u64, usize)>, Option<(i64, usize)>); 5] = [
    ([0x82, 1, 0, 0, 0, 0, 0, 0], Some((130, 2)), Some((130, 2))),
    ([0x80; 8], None, None),
    (
        [0xff, 0xff, 0xff, 0xff, 0xff, 0xff, 0xff, 0x7f],
        Some((72057594037927935, 8)),
        Some((-1, 8)),
    ),
    (
        [0x80, 0x80, 0x80, 0x80, 0x80, 0x80, 0x80, 0x40],
        Some((36028797018963968, 8)),
        Some((-36028797018963968, 8)),
    ),
    (
        [0x80, 0x80, 0x80, 0x80, 0x80, 0x80, 0x80, 0x3f],
        Some((35465847065542656, 8)),
        Some((35465847065542656, 8)),
    ),
];

#[test]
fn blocks(rt: HostRuntime) {
    for (bytes, as_unsigned, as_signed) in &BLOCKS {
        check_eq(&rt, uleb_block(*bytes), *as_unsigned);
        check_eq(&rt, sleb_block(*bytes), *as_signed);
    }
}

// Checks the loads of two bytes.
fn check_short_loads(rt: &impl Abort) {
    let mut short = Loads::new(&[0x80, 0x80]);
    check_eq(rt, (short.len(), short.is_empty()), (2, false));
    let loads = (short.word(), short.byte(2), short.byte(1), short.made());
    check_eq(rt, loads, (None, None, Some(0x80), 3));
}

static GREATEST: [u8; 10] = [0xff, 0xff, 0xff, 0xff, 0xff, 0xff, 0xff, 0xff, 0xff, 1];

#[test]
fn counted_loads(rt: HostRuntime) {
    let mut source = Loads::new(&GREATEST);
    check_value(&rt, uleb_loads(&mut source), (18446744073709551615, 10));
    check_eq(&rt, source.made(), 3);
    check_short_loads(&rt);
}

// Checks that two readers of `len` bytes return the same number, or that both refuse them.
fn check_same<N: PartialEq + Debug + Drop>(
    rt: &impl Abort,
    one: Result<(N, usize)>,
    other: Result<(N, usize)>,
    len: usize,
) {
    match one {
        Ok(read) => check_value(rt, other, read),
        Err(error) => {
            check_refusal::<N>(rt, Err(error), len);
            check_refusal(rt, other, len);
        }
    }
}

// Checks that the readers by loads and those byte by byte return the same for the first bytes.
fn check_readers(rt: &impl Abort, bytes: &[u8; 19], len: usize)
    requires { len ≤ 19 }
{
    let source = &bytes[..len];
    let by_loads = uleb_loads(&mut Loads::new(source));
    check_same(rt, by_loads, plain_uleb(source), source.len());
    let by_loads = sleb_loads(&mut Loads::new(source));
    check_same(rt, by_loads, plain_sleb(source), source.len());
}

// Checks the readers at as many bytes that others follow as said, and then this one.
fn check_last(rt: &impl Abort, count: usize, last: u8)
    requires { count < 12 }
{
    let mut bytes = [0xffu8; 19];
    bytes[..count].fill(0x80);
    bytes[count] = last;
    check_readers(rt, &bytes, count);
    check_readers(rt, &bytes, count + 1);
    check_readers(rt, &bytes, count + 8);
}

static LAST: [u8; 6] = [0x00, 0x01, 0x3f, 0x40, 0x7e, 0x7f];

#[test]
fn readers_agree(rt: HostRuntime) {
    for count in 0..12 {
        for last in &LAST {
            check_last(&rt, count, *last);
        }
    }
}

#[test]
fn padded_texts_are_kept(rt: HostRuntime) {
    let zero: Uleb128 = read(&rt, &[0x80, 0]);
    let mut bytes = [0xee; 3];
    check_write(&rt, &mut bytes, zero, 0, (), 2);
    check_eq(&rt, bytes, [0x80, 0, 0xee]);
}

#[test]
fn shortest_texts(rt: HostRuntime) {
    let rt = &rt;
    let mut bytes = [0xee; 8];
    check_write(rt, &mut bytes, Uleb128::shortest(675646857), 0, (), 5);
    check_write(rt, &mut bytes, Sleb128::shortest(-129), 5, (), 2);
    check_no_write(
        rt,
        &mut bytes,
        Sleb128::shortest(64),
        7,
        (),
        ("TooBig", 2, 1),
    );
    check_write(rt, &mut bytes, Uleb128::shortest(0), 7, (), 1);
    check_eq(rt, bytes, [0x89, 0x9b, 0x96, 0xc2, 2, 0xff, 0x7e, 0]);
}

#[test]
fn an_array_without_room_for_its_second_number(rt: HostRuntime) {
    let mut bytes = [0u8; 2];
    let numbers = [Uleb128::shortest(1), Uleb128::shortest(128)];
    check_no_write(&rt, &mut bytes, numbers, 0, (), ("TooBig", 2, 1));
    check_eq(&rt, bytes, [1, 0]);
}
