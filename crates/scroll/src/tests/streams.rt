// Readers and writers that are slow, end early, fail or are interrupted.
ghost use Rattle.std.specs.Prelude.{◌≤◌};

use crate::ctx::{FromCtx, IntoCtx, SizeWith};
use crate::tests::results::{check_eq, check_value};
use crate::{BE, Endian, IOread, IOwrite, LE};
use std::fmt::Debug;
use std::io::{ErrorKind, Read, Write};
use std::process::Abort;
use std::{io, result};

// An error of a stream: its number, if it is one of the operating system, and its kind.
type Cause = (Option<i32>, ErrorKind);

type Outcome<T> = result::Result<T, Cause>;

// The error of a read past the end of a reader.
const ENDED: Cause = (None, ErrorKind::UnexpectedEof);

// The error of a write past the end of a writer.
const FULL: Cause = (None, ErrorKind::WriteZero);

fn cause_of(error: io::Error) -> Cause {
    (error.raw_os_error(), error.kind())
}

fn make_error((number, kind): Cause) -> io::Error {
    match number {
        Some(number) => io::Error::from_raw_os_error(number),
        None => io::Error::from(kind),
    }
}

// The operating system's number for an interrupted call.
const INTERRUPTED: i32 = 4;

// Which calls of a reader or a writer fail, counted from 1.
#[derive(Clone, Copy)]
enum Fault {
    Never,
    At(usize, Cause),
    // All except every third call.
    Interrupted(Cause),
}

impl Fault {
    // Returns how a call fails, if it does.
    fn at(self, call: usize) -> Option<io::Error> {
        match self {
            Fault::At(at, cause) if at == call => Some(make_error(cause)),
            Fault::Interrupted(cause) if call % 3 != 0 => Some(make_error(cause)),
            _ => None,
        }
    }
}

// A reader that returns one byte per call.
#[derive(Drop)]
struct Source<'a> {
    rest: &'a [u8],
    fault: Fault,
    calls: usize,
}

impl<'a> Read for Source<'a> {
    fn read(&mut self, buf: &mut [u8]) -> io::Result<usize> {
        self.calls = self.calls.saturating_add(1);
        if let Some(error) = self.fault.at(self.calls) {
            return Err(error);
        }
        let count = buf.len().min(1);
        self.rest.read(&mut buf[..count])
    }
}

// A writer that takes one byte per call, ends early, and fails when it is flushed, which counts as
// a call.
#[derive(Drop)]
struct Sink<'a> {
    rest: &'a mut [u8],
    fault: Fault,
    calls: usize,
}

impl<'a> Write for Sink<'a> {
    fn write(&mut self, buf: &[u8]) -> io::Result<usize> {
        self.calls = self.calls.saturating_add(1);
        if let Some(error) = self.fault.at(self.calls) {
            return Err(error);
        }
        let count = buf.len().min(1);
        self.rest.write(&buf[..count])
    }

    fn flush(&mut self) -> io::Result<()> {
        self.calls = self.calls.saturating_add(1);
        Err(io::Error::from(ErrorKind::BrokenPipe))
    }
}

static BYTES: [u8; 4] = [0xde, 0xad, 0xbe, 0xef];

// The kinds of errors that have no number of the operating system.
static KINDS: [ErrorKind; 4] = [
    ErrorKind::InvalidData,
    ErrorKind::WriteZero,
    ErrorKind::UnexpectedEof,
    ErrorKind::Other,
];

// Faults that no call returns: there is none, each is an interruption, or it comes after the last
// byte.
static HARMLESS: [Fault; 4] = [
    Fault::Never,
    Fault::Interrupted((None, ErrorKind::Interrupted)),
    Fault::Interrupted((Some(INTERRUPTED), ErrorKind::Interrupted)),
    Fault::At(5, (None, ErrorKind::Other)),
];

// Orders, where none is the default one, with the number that `BYTES` hold in each, and the bytes
// that a writer holds which was given 0xdeadbeef.
static ORDERS: [(Option<Endian>, u32, [u8; 5]); 3] = [
    (Some(BE), 3735928559, [0xde, 0xad, 0xbe, 0xef, 0x11]),
    (Some(LE), 4022250974, [0xef, 0xbe, 0xad, 0xde, 0x11]),
    (None, 4022250974, [0xef, 0xbe, 0xad, 0xde, 0x11]),
];

// Reads a number, in the default order where none is given.
fn read_number<N: FromCtx<Endian> + SizeWith<Endian>>(
    source: &mut impl Read,
    order: Option<Endian>,
) -> io::Result<N>
    requires need { (ctx : Endian) → N.need ctx ≤ N.size ctx }
    requires size { (ctx : Endian) → N.size ctx ≤ 256 }
{
    match order {
        Some(order) => source.ioread_with(order),
        None => source.ioread(),
    }
}

// Reads a number a byte at a time. Returns it, or the cause of the error, and how often the reader
// was called.
fn read_slowly(rest: &[u8], fault: Fault, order: Option<Endian>) -> (Outcome<u32>, usize) {
    let mut source = Source {
        rest,
        fault,
        calls: 0,
    };
    let read: io::Result<u32> = read_number(&mut source, order);
    match read {
        Ok(number) => (Ok(number), source.calls),
        Err(error) => (Err(cause_of(error)), source.calls),
    }
}

// Writes a number, in the default order where none is given.
fn write_number<N: IntoCtx<Endian> + SizeWith<Endian>>(
    target: &mut impl Write,
    number: N,
    order: Option<Endian>,
) -> io::Result<()>
    requires need { (ctx : Endian) → N.need ctx ≤ N.size ctx }
    requires size { (ctx : Endian) → N.size ctx ≤ 256 }
{
    match order {
        Some(order) => target.iowrite_with(number, order),
        None => target.iowrite(number),
    }
}

// Writes 0xdeadbeef a byte at a time. Returns what the writer holds, or the cause of the error, and
// how often the writer was called.
fn write_slowly(room: usize, fault: Fault, order: Option<Endian>) -> (Outcome<[u8; 5]>, usize)
    requires { room ≤ 5 }
{
    let mut held = [0x11; 5];
    let mut target = Sink {
        rest: &mut held[..room],
        fault,
        calls: 0,
    };
    let written = write_number(&mut target, 0xdeadbeefu32, order);
    let calls = target.calls;
    match written {
        Ok(()) => (Ok(held), calls),
        Err(error) => (Err(cause_of(error)), calls),
    }
}

// Nothing is flushed: the writer would fail, and count a call more.
#[test]
fn streams_of_one_byte_a_call(rt: HostRuntime) {
    for (order, number, held) in &ORDERS {
        for fault in &HARMLESS {
            check_whole(&rt, *fault, *order, *number, held);
            check_ends(&rt, *fault, *order);
        }
    }
}

// Checks streams that are as long as the number.
fn check_whole(rt: &impl Abort, fault: Fault, order: Option<Endian>, number: u32, held: &[u8; 5]) {
    check_eq(rt, read_slowly(&BYTES, fault, order).0, Ok(number));
    check_eq(rt, write_slowly(4, fault, order).0, Ok(*held));
}

// Checks streams that end before the number does.
fn check_ends(rt: &impl Abort, fault: Fault, order: Option<Endian>) {
    for len in 0..4 {
        let source = &BYTES[..len];
        check_eq(rt, read_slowly(source, fault, order).0, Err(ENDED));
        check_eq(rt, write_slowly(len, fault, order).0, Err(FULL));
    }
}

// Each stream call returns the error of the reader or the writer, and doesn't repeat the call that
// failed.
fn check_cause(rt: &impl Abort, cause: Cause) {
    for (order, _, _) in &ORDERS {
        for at in 1..5 {
            check_fault(rt, at, cause, *order);
        }
    }
}

fn check_fault(rt: &impl Abort, at: usize, cause: Cause, order: Option<Endian>) {
    let fault = Fault::At(at, cause);
    check_eq(rt, read_slowly(&BYTES, fault, order), (Err(cause), at));
    check_eq(rt, write_slowly(5, fault, order), (Err(cause), at));
}

#[test]
fn each_error_of_a_stream(rt: HostRuntime) {
    // (the operating system numbers its errors from 1 to 133)
    for number in 1..134 {
        if number != INTERRUPTED {
            let kind = io::Error::from_raw_os_error(number).kind();
            check_cause(&rt, (Some(number), kind));
        }
    }
    for kind in &KINDS {
        check_cause(&rt, (None, *kind));
    }
}

// Checks the next number of a source, and returns what is left.
pub fn take_number<'a, N: FromCtx<Endian> + SizeWith<Endian> + PartialEq + Debug + Drop>(
    rt: &impl Abort,
    bytes: &'a [u8],
    order: Option<Endian>,
    wanted: N,
) -> &'a [u8]
    requires need { (ctx : Endian) → N.need ctx ≤ N.size ctx }
    requires size { (ctx : Endian) → N.size ctx ≤ 256 }
{
    let mut source = bytes;
    check_value(rt, read_number(&mut source, order), wanted);
    source
}

// Checks that a source ends before its next number does.
pub fn check_ended<N: FromCtx<Endian> + SizeWith<Endian> + Drop>(
    rt: &impl Abort,
    bytes: &[u8],
    order: Option<Endian>,
)
    requires need { (ctx : Endian) → N.need ctx ≤ N.size ctx }
    requires size { (ctx : Endian) → N.size ctx ≤ 256 }
{
    let mut source = bytes;
    let read: io::Result<N> = read_number(&mut source, order);
    let kind = read.err().expect(rt, "an end").kind();
    check_eq(rt, kind, ErrorKind::UnexpectedEof);
}

// Checks that a number is written.
pub fn put_number<N: IntoCtx<Endian> + SizeWith<Endian>>(
    rt: &impl Abort,
    target: &mut impl Write,
    order: Option<Endian>,
    number: N,
)
    requires need { (ctx : Endian) → N.need ctx ≤ N.size ctx }
    requires size { (ctx : Endian) → N.size ctx ≤ 256 }
{
    check_value(rt, write_number(target, number, order), ());
}

#[test]
fn numbers_from_memory(rt: HostRuntime) {
    let rt = &rt;
    let source: &[u8] = &[0xef, 0xbe, 0xb0, 0xb0, 0xfe, 0xed, 0xde, 0xad];
    let source = take_number(rt, source, Some(LE), 48879u16);
    let source = take_number(rt, source, None, 176u8);
    let source = take_number(rt, source, None, 176u8);
    check_last(rt, source, Some(BE), 4277001901u32);
    check_last(rt, &[0xef, 0xbe], None, 48879u16);
    check_last(rt, &[0; 16], Some(LE), 0u128);
}

// Checks the last number of a source, after which there is no byte.
fn check_last<N: FromCtx<Endian> + SizeWith<Endian> + PartialEq + Debug + Drop>(
    rt: &impl Abort,
    bytes: &[u8],
    order: Option<Endian>,
    wanted: N,
)
    requires need { (ctx : Endian) → N.need ctx ≤ N.size ctx }
    requires size { (ctx : Endian) → N.size ctx ≤ 256 }
{
    let rest = take_number(rt, bytes, order, wanted);
    check_eq(rt, rest, &[]);
    check_ended::<u8>(rt, rest, None);
}

#[test]
fn numbers_to_memory(rt: HostRuntime) {
    let rt = &rt;
    let mut bytes = [7u8; 26];
    let mut target: &mut [u8] = &mut bytes;
    check_value(rt, target.write_all(b"hello"), ());
    put_number(rt, &mut target, Some(BE), 0xdeadbeefu32);
    put_number(rt, &mut target, None, 0u128);
    check_eq(
        rt,
        &bytes,
        b"hello\xde\xad\xbe\xef\0\0\0\0\0\0\0\0\0\0\0\0\0\0\0\0\x07",
    );
}
