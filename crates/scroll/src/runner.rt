//! Lists of commands over one buffer and one cursor.
//!
//! Their results and all that they leave are stated over the history of what was written.
ghost use Rattle.std.specs.Prelude.{◌≡◌, ℕ, ◌+◌, ◌≤◌, ◌<◌, length, vec_len, vec_capacity, OnOk, OnErr, IfErr, IsOk};
ghost use Rattle.std.specs.List.{All};
ghost use Rattle.scroll.specs.Steps.{AppendsAnswer};
ghost use Rattle.scroll.specs.Runs.{IsStep, IsRun, IsPrefixRun, CopiesNothing, offset_of, moved};
ghost use Rattle.scroll.specs.declared.error.Error.TheVariants.{NoMemory};

use crate::cstr::CStr;
use crate::ctx::StrCtx;
use crate::endian::Endian;
use crate::error::{Error, Result};
use crate::leb128::{Sleb128, Uleb128};
use std::alloc::{AllocError, Global};
use std::result;

mod read;
mod write;

/// Where a command reads or writes.
#[derive(Clone, Copy, Debug)]
pub enum Place {
    /// At an offset in bytes from the start of the buffer.
    At(usize),
    /// At the cursor. A command that succeeds advances it by its size.
    Cursor,
}

impl Place {
    // Returns the offset at which a command acts.
    #[inline(always)]
    fn offset(self, cursor: usize) -> usize
        ensures { result ≡ offset_of self cursor }
    {
        match self {
            Place::At(offset) => offset,
            Place::Cursor => cursor,
        }
    }

    // Returns the cursor after a command that succeeded and ended at the offset `end`.
    #[inline(always)]
    fn cursor_after(self, cursor: usize, end: usize) -> usize
        ensures { (size : ℕ) → end ≡ offset_of self cursor + size
            → result ≡ moved self cursor size }
    {
        match self {
            Place::At(_) => cursor,
            Place::Cursor => end,
        }
    }
}

/// The type of a number.
#[derive(Clone, Copy, Debug)]
pub enum Width {
    /// An unsigned number of 8 bits.
    U8,
    /// A signed number of 8 bits.
    I8,
    /// An unsigned number of 16 bits.
    U16,
    /// A signed number of 16 bits.
    I16,
    /// An unsigned number of 32 bits.
    U32,
    /// A signed number of 32 bits.
    I32,
    /// An unsigned number of 64 bits.
    U64,
    /// A signed number of 64 bits.
    I64,
    /// An unsigned number of 128 bits.
    U128,
    /// A signed number of 128 bits.
    I128,
}

/// What a command reads.
#[derive(Clone, Copy, Debug)]
pub enum Kind {
    /// A number of a type, in a byte order.
    Number(Width, Endian),
    /// A string in a context.
    Text(StrCtx),
    /// A byte slice of this many bytes.
    Bytes(usize),
    /// A borrowed C string.
    CStr,
    /// An owned C string, whose answer is that of a borrowed one.
    CString,
    /// An unsigned number in LEB128.
    Uleb,
    /// A signed number in LEB128.
    Sleb,
    /// An array of no numbers, of type `u8`.
    U8x0(Endian),
    /// An array of three numbers of type `u16`.
    U16x3(Endian),
    /// An array of two strings.
    Textx2(StrCtx),
}

/// A number of any type.
#[derive(Clone, Copy, Debug)]
pub enum Number {
    /// An unsigned number of 8 bits.
    U8(u8),
    /// A signed number of 8 bits.
    I8(i8),
    /// An unsigned number of 16 bits.
    U16(u16),
    /// A signed number of 16 bits.
    I16(i16),
    /// An unsigned number of 32 bits.
    U32(u32),
    /// A signed number of 32 bits.
    I32(i32),
    /// An unsigned number of 64 bits.
    U64(u64),
    /// A signed number of 64 bits.
    I64(i64),
    /// An unsigned number of 128 bits.
    U128(u128),
    /// A signed number of 128 bits.
    I128(i128),
}

/// What a command writes.
#[derive(Clone, Copy, Debug)]
pub enum Put<'c> {
    /// A number, in a byte order.
    Number(Number, Endian),
    /// A string, without a delimiter after it.
    Text(&'c str),
    /// A byte slice.
    Bytes(&'c [u8]),
    /// A C string, with its zero.
    CStr(CStr<'c>),
    /// An unsigned number in LEB128, by its encoding.
    Uleb(Uleb128),
    /// A signed number in LEB128, by its encoding.
    Sleb(Sleb128),
    /// An array of three numbers of 16 bits, in a byte order.
    U16x3([u16; 3], Endian),
    /// An array of two byte slices.
    Bytesx2(&'c [u8], &'c [u8]),
}

/// A read or a write.
#[derive(Clone, Copy, Debug)]
pub enum Command<'c> {
    /// Reads a value of a kind at an offset or at the cursor.
    Read(Place, Kind),
    /// Writes a value at an offset or at the cursor.
    Write(Place, Put<'c>),
}

/// What was read.
#[derive(Debug, Drop)]
pub enum Value {
    /// An unsigned number of any width.
    Unsigned(u128),
    /// A signed number of any width.
    Signed(i128),
    /// A string, copied.
    Text(String),
    /// The bytes of a slice, copied.
    Bytes(Vec<u8>),
    /// The bytes of a C string before its zero, copied.
    CStr(Vec<u8>),
    /// An unsigned number in LEB128, with the length of its encoding.
    Uleb(Uleb128),
    /// A signed number in LEB128, with the length of its encoding.
    Sleb(Sleb128),
    /// No bytes.
    U8x0,
    /// Three numbers.
    U16x3([u16; 3]),
    /// Two strings, copied.
    Textx2(String, String),
}

/// The result of a command.
#[derive(Debug, Drop)]
pub enum Answer {
    /// The value that was read.
    Read(Value),
    /// The size in bytes of what was written.
    Wrote(usize),
    /// The error of the command, which is never `NoMemory`, `Custom` or `IO`.
    Refused(Error),
}

/// Runs the commands in turn, each over the buffer as the ones before it left it, and appends an
/// answer for each to `answers`.
///
/// A command that fails appends its error, and the next one runs. It leaves the cursor unchanged,
/// and the buffer too, except that the elements of an array before the one that failed remain
/// written. A command at `Place::At` leaves the cursor unchanged.
///
/// The only error is [`Error::NoMemory`], and there is none if `answers` has room for an answer to
/// each command, and no command reads a string, a byte slice or a C string, which are copied. Some
/// first commands were then run, and have their answers: memory for an answer is reserved before
/// its command runs, and what a read copies is copied before the cursor moves.
pub fn run(
    alloc: Global,
    buffer: &mut [u8],
    cursor: &mut usize,
    commands: &[Command<'_>],
    answers: &mut Vec<Answer>,
) -> Result<()>
    ensures ran { OnOk result (IsRun buffer.old buffer.new cursor.old cursor.new commands.now
        answers.old.items answers.new.items) }
    ensures only_memory { IfErr result (λ e. e ≡ NoMemory) }
    ensures succeeds { vec_len answers.old + length commands.now ≤ vec_capacity answers.old
        → All CopiesNothing commands.now → IsOk result }
    ensures prefix { OnErr result
        (IsPrefixRun buffer.old buffer.new cursor.old cursor.new commands.now
        answers.old.items answers.new.items) }
{
    for command in commands {
        if answers.reserve(1).is_err() {
            return Err(Error::NoMemory);
        }
        match step(alloc, buffer, cursor, command, answers) {
            Ok(()) => {}
            Err(_) => return Err(Error::NoMemory),
        }
    }
    Ok(())
}

// Runs one command, and appends its answer. On an allocation failure nothing has changed.
#[inline(always)]
fn step(
    alloc: Global,
    buffer: &mut [u8],
    cursor: &mut usize,
    command: &Command<'_>,
    answers: &mut Vec<Answer>,
) -> result::Result<(), AllocError>
    requires { vec_len answers.old < vec_capacity answers.old }
    ensures answered { OnOk result (AppendsAnswer answers.old.items answers.new.items (λ a.
        IsStep buffer.old buffer.new cursor.old command.now a cursor.new)) }
    ensures len { OnOk result (vec_len answers.new ≡ vec_len answers.old + 1) }
    ensures capacity { vec_capacity answers.new ≡ vec_capacity answers.old }
    ensures succeeds { CopiesNothing command.now → IsOk result }
    ensures kept { OnErr result (answers.new.items ≡ answers.old.items) }
    ensures same { OnErr result (buffer.new ≡ buffer.old) }
    ensures stays { OnErr result (cursor.new ≡ cursor.old) }
{
    match command {
        Command::Read(place, kind) => read::read(alloc, buffer, cursor, *place, kind, answers),
        Command::Write(place, put) => {
            write::write(buffer, cursor, *place, put, answers);
            Ok(())
        }
    }
}
