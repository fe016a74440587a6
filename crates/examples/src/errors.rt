// Errors of a caller's own: readers that return a small error, a number type that fails with a text
// of its own, and number types with an error that is made from any error of `scroll`. Nothing here
// needs a proof file.
ghost use Rattle.std.specs.Prelude.{◌≡◌, drop, IfOk, IfErr, OnErr, ◌≤◌, ◌<◌, length, codes, Some, ◌⊎◌, ⊤, List, ℕ};
ghost use Rattle.std.proofs.Common.{rules};
ghost use Rattle.scroll.specs.Bytes.{RefusesShort};
ghost use Rattle.scroll.specs.Errors.{IsBadOffset, line_of};
ghost use Rattle.scroll_formats.specs.SmallErrors.{Shrunk};
ghost use Rattle.scroll.specs.Numbers.{number, ReadsNumber, WritesNumber};
ghost use Rattle.scroll.specs.Reads.{RefusesAt};
ghost use Rattle.scroll.specs.lemmas.Frames.{drop-written, length-number_bytes};
ghost use Rattle.scroll.specs.declared.endian.Endian.TheVariants.{Little};
ghost use Rattle.scroll.specs.declared.error.Error.TheVariants.{NoMemory};

use crate::results::{check_eq, check_value};
use scroll::ctx::{TryFromCtx, TryIntoCtx};
use scroll::{BE, Endian, Error, LE, Pread, Pwrite, check_room};
use scroll_formats::{At, LocateError, SmallError};
use std::alloc::Global;
use std::fmt;
use std::io::Write;
use std::process::Abort;

/// Returns the number at the cursor, and advances the cursor past it.
pub fn read_u32(bytes: &[u8], offset: &mut usize) -> Result<u32, SmallError>
    ensures read { IfOk result (λ x. x ≡ number Little 4 (drop offset.old bytes.now)) }
    ensures refused { IfErr result (Shrunk (RefusesAt (RefusesShort 4) IsBadOffset bytes.now offset.old)) }
    ensures stays { OnErr result (offset.new ≡ offset.old) }
{
    let x = bytes.gread_with(offset, LE)?;
    Ok(x)
}

/// Returns the two numbers at an offset, or the error with the offset of the number that failed.
pub fn read_pair(bytes: &[u8], start: usize) -> Result<(u32, u32), At<SmallError>>
    ensures first { IfOk result (λ pair. pair.0 ≡ number Little 4 (drop start bytes.now)) }
    ensures refused { IfErr result (λ e. Shrunk (RefusesAt (RefusesShort 4) IsBadOffset bytes.now e.offset) e.error) }
{
    let mut offset = start;
    let first = read_u32(bytes, &mut offset).at(offset)?;
    let second: u32 = bytes.gread_with(&mut offset, LE).at(offset)?;
    Ok((first, second))
}

// A pair, or the offset and the error of the number that could not be read.
type Answer = Result<(u32, u32), (usize, SmallError)>;

fn answer_at(bytes: &[u8], start: usize) -> Answer {
    match read_pair(bytes, start) {
        Ok(pair) => Ok(pair),
        Err(located) => Err((located.offset, located.error)),
    }
}

static ANSWERS: [(usize, Answer); 3] = [
    (0, Ok((1, 2))),
    (4, Err((8, SmallError::TooBig { size: 4, len: 2 }))),
    (11, Err((11, SmallError::BadOffset(11)))),
];

#[test]
fn each_answer_of_a_pair(rt: HostRuntime) {
    for (start, wanted) in &ANSWERS {
        check_eq(
            &rt,
            answer_at(&[1, 0, 0, 0, 2, 0, 0, 0, 3, 0], *start),
            *wanted,
        );
    }
}

#[derive(Clone, Copy, Debug, PartialEq, Eq)]
struct Number(u16);

// The error of the type, or `NoMemory` where its text can't be allocated.
fn whatever(alloc: Global) -> Error
    ensures { (line_of result ≡ Some (codes "whatever")) ⊎ (result ≡ NoMemory) }
{
    match format!(in alloc; "whatever") {
        Ok(text) => Error::Custom(text),
        Err(_) => Error::NoMemory,
    }
}

impl<'a, 'g> TryFromCtx<'a, (Endian, &'g Global)> for Number {
    type Error = Error;

    ghost reads = { λ ctx source x n. ReadsNumber 2 ctx.0 source x.0 n };

    ghost refuses = { λ _ source e. (length source < 2) × ((line_of e ≡ Some (codes "whatever")) ⊎ (e ≡ NoMemory)) };

    ghost reads_bounded = { λ ctx source x n h. Prim.search rules };

    fn try_from_ctx(from: &'a [u8], ctx: (Endian, &'g Global)) -> Result<(Number, usize), Error> {
        if from.len() < 2 {
            return Err(whatever(*ctx.1));
        }
        let n = from.pread_with(0, ctx.0)?;
        Ok((Number(n), 2))
    }
}

impl<'g> TryIntoCtx<(Endian, &'g Global)> for Number {
    type Error = Error;

    ghost writes = { λ ctx x old new n. WritesNumber 2 ctx.0 x.0 old new n };

    ghost refuses = { λ _ _ old new e. (length old < 2) × (new ≡ old) × ((line_of e ≡ Some (codes "whatever")) ⊎ (e ≡ NoMemory)) };

    ghost writes_bounded = { λ ctx x old new n h. Prim.search rules };

    ghost writes_keeps = { λ ctx x old new n h. drop-written (length-number_bytes ctx.0 2 x.0) h };

    fn try_into_ctx(self, dst: &mut [u8], ctx: (Endian, &'g Global)) -> Result<usize, Error> {
        if dst.len() < 2 {
            return Err(whatever(*ctx.1));
        }
        self.0.try_into_ctx(dst, ctx.0)
    }
}

// Checks that a call failed with the text of the type. Where that couldn't be allocated, the test
// ends.
fn check_whatever<T: Drop>(rt: &impl Abort, outcome: Result<T, Error>) {
    match outcome {
        Err(Error::Custom(text)) => check_eq(rt, text.as_str(), "whatever"),
        Err(error) => panic!(rt; "expected a text, got {error:?}"),
        Ok(_) => panic!(rt; "expected a text, got a value"),
    }
}

#[test]
fn refused_with_its_own_text(rt: HostRuntime) {
    let (rt, alloc) = (&rt, &rt.alloc());
    let source: &[u8] = &[0xde, 0xad, 0, 0];
    check_value(rt, source.pread_with(0, (LE, alloc)), Number(44510));
    check_value(rt, source.pread_with(0, (BE, alloc)), Number(57005));
    check_whatever(rt, source.pread_with::<Number>(3, (LE, alloc)));
}

#[test]
fn written_and_refused(rt: HostRuntime) {
    let (rt, alloc) = (&rt, &rt.alloc());
    let mut out = [0u8; 4];
    let mut target = &mut out[..];
    check_value(rt, target.pwrite_with(Number(0x7f), 1, (LE, alloc)), 2);
    check_whatever(rt, target.pwrite_with(Number(0x7f), 3, (LE, alloc)));
    check_eq(rt, out, [0, 0x7f, 0, 0]);
}

#[derive(Clone, Copy, Debug)]
pub struct ExternalError {}

impl fmt::Display for ExternalError {
    ghost output = { λ _. Some (codes "ExternalError") };

    fn fmt<W: fmt::Write>(&self, f: &mut fmt::Formatter<W>) -> fmt::Result {
        write!(f, "ExternalError")
    }
}

impl std::error::Error for ExternalError {}

impl From<Error> for ExternalError {
    ghost from_gives = { λ _ _. ⊤ };

    fn from(_error: Error) -> ExternalError {
        ExternalError {}
    }
}

#[derive(Clone, Copy)]
struct Foo(u16);

impl<'a> TryFromCtx<'a, Endian> for Foo {
    type Error = ExternalError;

    ghost reads = { λ order source x n. (2 < length source) × ReadsNumber 2 order source x.0 n };

    ghost refuses = { λ _ source _. length source ≤ 2 };

    ghost reads_bounded = { λ order source x n h. Prim.search rules };

    fn try_from_ctx(from: &'a [u8], ctx: Endian) -> Result<(Foo, usize), ExternalError> {
        check_room(3, from.len())?;
        let mut offset = 0;
        let n = from.gread_with(&mut offset, ctx)?;
        Ok((Foo(n), offset))
    }
}

#[derive(Clone, Copy)]
struct Exact(u16);

impl<'a> TryFromCtx<'a, Endian> for Exact {
    type Error = ExternalError;

    ghost reads = { λ order source x n. (length source ≤ 2) × ReadsNumber 2 order source x.0 n };

    ghost refuses = { λ _ source _. (2 < length source) ⊎ (length source < 2) };

    ghost reads_bounded = { λ order source x n h. Prim.search rules };

    fn try_from_ctx(from: &'a [u8], ctx: Endian) -> Result<(Exact, usize), ExternalError> {
        if from.len() > 2 {
            return Err(ExternalError {});
        }
        let n = from.pread_with(0, ctx)?;
        Ok((Exact(n), 2))
    }
}

impl TryIntoCtx<Endian> for Exact {
    type Error = ExternalError;

    ghost writes = { λ order x. WritesNumber 2 order x.0 };

    ghost refuses = { λ _ _ old new _. (length old < 2) × (new ≡ old) };

    ghost writes_bounded = { λ order x old new n h. Prim.search rules };

    ghost writes_keeps = { λ order x old new n h. Prim.search rules };

    fn try_into_ctx(self, dst: &mut [u8], ctx: Endian) -> Result<usize, ExternalError> {
        let size = self.0.try_into_ctx(dst, ctx)?;
        Ok(size)
    }
}

#[test]
fn with_an_error_of_ones_own(rt: HostRuntime) {
    let rt = &rt;
    let source: &[u8] = &[0xde, 0xad, 0, 0];
    let little: Foo = source.pread(0).expect(rt, "a little-endian number");
    let big: Foo = source.pread_with(0, BE).expect(rt, "a big-endian number");
    check_eq(rt, (little.0, big.0), (44510, 57005));
    check_eq(rt, source.pread::<Foo>(2).is_err(), true);
    let past = source.pread::<Foo>(5).err();
    let mut line = [0u8; 13];
    let mut target = &mut line[..];
    check_value(rt, write!(target, "{}", past.expect(rt, "an error")), ());
    check_eq(rt, &line, b"ExternalError");
}

// Returns the number at an offset, if the read succeeds.
fn exact_at(source: &[u8], offset: usize, order: Endian) -> Option<u16> {
    match source.pread_with::<Exact>(offset, order) {
        Ok(exact) => Some(exact.0),
        Err(_) => None,
    }
}

const SOURCE: &[u8] = &[0xde, 0xad, 0, 0];

static EXACT: [(&[u8], usize, Endian, Option<u16>); 8] = [
    (SOURCE, 0, LE, None),
    (SOURCE, 1, LE, None),
    (SOURCE, 3, LE, None),
    (SOURCE, 4, LE, None),
    (SOURCE, 5, LE, None),
    (SOURCE, 2, LE, Some(0)),
    (&[0xde, 0xad], 0, LE, Some(0xadde)),
    (&[0xde, 0xad], 0, BE, Some(0xdead)),
];

#[test]
fn at_each_offset(rt: HostRuntime) {
    for &(source, offset, order, wanted) in &EXACT {
        let number = exact_at(source, offset, order);
        check_eq(&rt, (offset, number), (offset, wanted));
    }
}

#[test]
fn written_where_there_is_room(rt: HostRuntime) {
    let rt = &rt;
    let mut out = [0xffu8; 4];
    let mut target = &mut out[..];
    check_value(rt, target.pwrite_with(Exact(0x7f), 1, LE), 2);
    check_eq(rt, target.pwrite_with(Exact(0x7f), 3, LE).is_err(), true);
    check_eq(rt, target.pwrite_with(Exact(0x7f), 5, LE).is_err(), true);
    check_eq(rt, out, [0xff, 0x7f, 0, 0xff]);
}
