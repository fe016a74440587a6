// Readers and writers that are slow, interrupted or faulty.
use crate::output::write_output;
use crate::session::session;
use std::alloc::Global;
use std::io::{ErrorKind, Read, Write};
use std::process::Abort;
use std::{io, result};

static INPUT: [u8; 70] =
    *b"buffer deadbeef\ncursor 0\npread 0 u32 be\npread 0 u32 le\npread 1 u16 be\n";

static OUTPUT: [u8; 74] =
    *b"number 3735928559\nnumber 4022250974\nnumber 44478\nbuffer deadbeef\ncursor 0\n";

// An error of a stream: its number, if it is one of the operating system, and its kind.
type Cause = (Option<i32>, ErrorKind);

// The error of a stream whose calls are interrupted too often.
const OTHER: Cause = (None, ErrorKind::Other);

fn make_error((number, kind): Cause) -> io::Error {
    match number {
        Some(number) => io::Error::from_raw_os_error(number),
        None => io::Error::from(kind),
    }
}

// The operating system's number for an interrupted call.
const INTERRUPTED: i32 = 4;

// The kinds of errors that have no number of the operating system.
static KINDS: [ErrorKind; 4] = [
    ErrorKind::InvalidData,
    ErrorKind::WriteZero,
    ErrorKind::UnexpectedEof,
    ErrorKind::Other,
];

// Which calls of a reader or a writer fail, counted from 1: one of them; or the odd ones, the ones
// up to a number, or the ones from a number on are interrupted.
#[derive(Clone, Copy)]
enum Fault {
    Never,
    At(usize, Cause),
    Odd(Cause),
    UpTo(usize),
    From(usize),
}

impl Fault {
    // Returns how a call fails, if it does.
    fn at(self, call: usize) -> Option<io::Error> {
        match self {
            Fault::At(at, cause) if at == call => Some(make_error(cause)),
            Fault::Odd(cause) if call % 2 == 1 => Some(make_error(cause)),
            Fault::UpTo(last) if call <= last => Some(io::Error::from(ErrorKind::Interrupted)),
            Fault::From(first) if call >= first => Some(io::Error::from(ErrorKind::Interrupted)),
            _ => None,
        }
    }
}

// A reader that returns at most `step` bytes per call.
#[derive(Drop)]
struct Source<'a> {
    rest: &'a [u8],
    step: usize,
    fault: Fault,
    calls: usize,
}

impl<'a> Read for Source<'a> {
    fn read(&mut self, buf: &mut [u8]) -> io::Result<usize> {
        self.calls = self.calls.saturating_add(1);
        if let Some(error) = self.fault.at(self.calls) {
            return Err(error);
        }
        let count = self.step.min(buf.len());
        self.rest.read(&mut buf[..count])
    }
}

// A writer that takes at most `step` bytes per call.
#[derive(Drop)]
struct Sink {
    held: Vec<u8>,
    step: usize,
    fault: Fault,
    calls: usize,
    is_flushed: bool,
}

impl Write for Sink {
    fn write(&mut self, buf: &[u8]) -> io::Result<usize> {
        self.calls = self.calls.saturating_add(1);
        self.is_flushed = false;
        if let Some(error) = self.fault.at(self.calls) {
            return Err(error);
        }
        let count = self.step.min(buf.len());
        self.held.extend_from_slice(&buf[..count])?;
        Ok(count)
    }

    fn flush(&mut self) -> io::Result<()> {
        self.calls = self.calls.saturating_add(1);
        if let Some(error) = self.fault.at(self.calls) {
            return Err(error);
        }
        self.is_flushed = true;
        Ok(())
    }
}

// How a session ended: its status, or the cause of its error; how often the reader and the writer
// were called; how many bytes of the output were written, or `None` if others were; and whether
// they were flushed.
type Run = (result::Result<u8, Cause>, [usize; 2], Option<usize>, bool);

// The calls that read the whole input a byte at a time, the last of which finds its end, and those
// that write the whole output so, and flush it.
const READS: usize = 71;

const WRITES: usize = 75;

// Runs a session with a reader and a writer of so many bytes per call, which fail so.
fn run(alloc: Global, reader: (usize, Fault), writer: (usize, Fault)) -> Run {
    let mut input = Source {
        rest: &INPUT,
        step: reader.0,
        fault: reader.1,
        calls: 0,
    };
    let mut output = Sink {
        held: Vec::new(alloc),
        step: writer.0,
        fault: writer.1,
        calls: 0,
        is_flushed: false,
    };
    let ended = match session(alloc, &mut input, &mut output) {
        Ok(status) => Ok(status),
        Err(error) => Err((error.raw_os_error(), error.kind())),
    };
    let held = OUTPUT
        .starts_with(&output.held)
        .then_some(output.held.len());
    (ended, [input.calls, output.calls], held, output.is_flushed)
}

// Checks how a session ended.
fn check_run(rt: &impl Abort, run: Run, wanted: Run) {
    assert!(rt; run == wanted, "expected {wanted:?}, got {run:?}");
}

// Checks that a session with streams of one byte per call succeeded, with so many calls.
fn check_done(rt: &impl Abort, run: Run, calls: [usize; 2]) {
    check_run(rt, run, (Ok(0), calls, Some(OUTPUT.len()), true));
}

const BY_KIND: Fault = Fault::Odd((None, ErrorKind::Interrupted));

const BY_NUMBER: Fault = Fault::Odd((Some(INTERRUPTED), ErrorKind::Interrupted));

static PIECES: [(usize, Fault); 7] = [
    (1, Fault::Never),
    (7, Fault::Never),
    (4096, Fault::Never),
    (1, BY_KIND),
    (4096, BY_KIND),
    (1, BY_NUMBER),
    (4096, BY_NUMBER),
];

// Checks that a short output is written and flushed.
fn check_flushed(rt: &impl Abort, alloc: Global, bytes: &[u8]) {
    let mut output = Sink {
        held: Vec::new(alloc),
        step: 4096,
        fault: Fault::Never,
        calls: 0,
        is_flushed: false,
    };
    write_output(&mut output, bytes).expect(rt, "an output");
    assert!(rt; output.is_flushed);
    assert!(rt; output.held.as_slice() == bytes);
}

#[test]
fn short_outputs_are_flushed(rt: HostRuntime) {
    check_flushed(&rt, rt.alloc(), b"");
    check_flushed(&rt, rt.alloc(), b"bad line 1\n");
}

#[test]
fn in_pieces(rt: HostRuntime) {
    for piece in &PIECES {
        let run = run(rt.alloc(), *piece, *piece);
        check_done(&rt, run, run.1);
    }
}

// Runs the session with a reader that fails at a call. If that call is made, its error is the
// session's, and it isn't repeated.
fn check_reader(rt: &impl Abort, alloc: Global, at: usize, cause: Cause) {
    let run = run(alloc, (1, Fault::At(at, cause)), (1, Fault::Never));
    if at <= READS {
        check_run(rt, run, (Err(cause), [at, 0], Some(0), false));
    } else {
        check_done(rt, run, [READS, WRITES]);
    }
}

// Runs the session with a writer that fails at a call, of which the last is the flush. If that call
// is made, its error is the session's, and it isn't repeated.
fn check_writer(rt: &impl Abort, alloc: Global, at: usize, cause: Cause) {
    let run = run(alloc, (1, Fault::Never), (1, Fault::At(at, cause)));
    if at <= WRITES {
        check_run(
            rt,
            run,
            (Err(cause), [READS, at], Some(at.saturating_sub(1)), false),
        );
    } else {
        check_done(rt, run, [READS, WRITES]);
    }
}

#[test]
fn each_call_fails(rt: HostRuntime) {
    let denied = (None, ErrorKind::PermissionDenied);
    for at in 1..READS + 2 {
        check_reader(&rt, rt.alloc(), at, denied);
    }
    for at in 1..WRITES + 2 {
        check_writer(&rt, rt.alloc(), at, denied);
    }
}

// The first call, the last one and the flush each fail with an error.
fn check_cause(rt: &impl Abort, alloc: Global, cause: Cause) {
    check_reader(rt, alloc, 1, cause);
    check_reader(rt, alloc, READS, cause);
    check_writer(rt, alloc, 1, cause);
    check_writer(rt, alloc, OUTPUT.len(), cause);
    check_writer(rt, alloc, WRITES, cause);
}

#[test]
fn each_error_of_a_stream(rt: HostRuntime) {
    // (the operating system numbers its errors from 1 to 133)
    for number in 1..134 {
        if number != INTERRUPTED {
            let kind = io::Error::from_raw_os_error(number).kind();
            check_cause(&rt, rt.alloc(), (Some(number), kind));
        }
    }
    for kind in &KINDS {
        check_cause(&rt, rt.alloc(), (None, *kind));
    }
}

#[test]
fn writer_takes_nothing(rt: HostRuntime) {
    let run = run(rt.alloc(), (1, Fault::Never), (0, Fault::Never));
    let full = (None, ErrorKind::WriteZero);
    check_run(&rt, run, (Err(full), [READS, 1], Some(0), false));
}

// The maximum number of calls of a reader, of a writer beyond one per byte, and of flushes.
const CALLS: usize = 131_072;

#[test]
fn interrupted_for_ever(rt: HostRuntime) {
    let of_reader = run(rt.alloc(), (1, Fault::From(1)), (1, Fault::Never));
    check_run(&rt, of_reader, (Err(OTHER), [CALLS, 0], Some(0), false));
    // from the first byte, from the last byte, and from the flush
    check_from(&rt, rt.alloc(), 1);
    check_from(&rt, rt.alloc(), OUTPUT.len());
    check_from(&rt, rt.alloc(), WRITES);
}

// Checks a session whose writer is interrupted for ever from a call on.
fn check_from(rt: &impl Abort, alloc: Global, first: usize) {
    let run = run(alloc, (1, Fault::Never), (1, Fault::From(first)));
    let calls = [READS, OUTPUT.len() + CALLS];
    check_run(
        rt,
        run,
        (Err(OTHER), calls, Some(first.saturating_sub(1)), false),
    );
}

#[test]
fn interrupted_as_often_as_may_be(rt: HostRuntime) {
    let never = (1, Fault::Never);
    let spare = CALLS - READS;
    let of_reader = run(rt.alloc(), (1, Fault::UpTo(spare)), never);
    check_done(&rt, of_reader, [CALLS, WRITES]);
    let of_reader = run(rt.alloc(), (1, Fault::UpTo(spare + 1)), never);
    check_run(&rt, of_reader, (Err(OTHER), [CALLS, 0], Some(0), false));
    let of_writer = run(rt.alloc(), never, (1, Fault::UpTo(CALLS)));
    check_done(&rt, of_writer, [READS, CALLS + WRITES]);
    let of_writer = run(rt.alloc(), never, (1, Fault::UpTo(CALLS + 1)));
    let calls = [READS, OUTPUT.len() + CALLS];
    let held = Some(OUTPUT.len() - 1);
    check_run(&rt, of_writer, (Err(OTHER), calls, held, false));
}
