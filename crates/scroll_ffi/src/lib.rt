//! Readers of ELF and ZIP files, and a writer of ZIP files, for callers in C, Rust and Python.
//!
//! A function returns 1 for a value, 0 for success without one or at an end, and a negative number
//! for an error, which it also stores in its `ScrollError`. It has no state of its own: any number
//! of threads may call it.
#![tactic(auto)]

ghost use Rattle.std.specs.Prelude.{◌≡◌, ◌<ℤ◌, pos};
ghost use Rattle.scroll_ffi.specs.Interface.{fault_of};
ghost use Rattle.scroll_ffi.specs.Refusals.{elf_fault_of};

mod elf;
mod elf_fill;
mod elf_table;
mod zip_files;

pub use crate::elf::{ScrollElfSection, ScrollElfSections, scroll_elf_next, scroll_elf_open};
pub use crate::elf_fill::scroll_elf_fill;
pub use crate::elf_table::scroll_elf_table;
pub use crate::zip_files::{
    ScrollZipEnd, ScrollZipFile, scroll_zip_next, scroll_zip_open, scroll_zip_put,
    scroll_zip_put_end,
};
use object_files::ElfError;
use scroll::Error;

/// The bytes are truncated: a value would end past them.
pub const SCROLL_TRUNCATED: i32 = -2;
/// An offset is past the end of the bytes.
pub const SCROLL_BAD_OFFSET: i32 = -3;
/// The bytes are not a valid value.
pub const SCROLL_BAD_INPUT: i32 = -4;
/// Out of memory.
pub const SCROLL_NO_MEMORY: i32 = -5;
/// The file does not begin with the bytes of its format.
pub const SCROLL_BAD_MAGIC: i32 = -6;
/// The ELF file is not of the 64-bit class.
pub const SCROLL_BAD_CLASS: i32 = -7;
/// The byte order is neither 1 (little-endian) nor 2 (big-endian).
pub const SCROLL_BAD_ORDER: i32 = -8;
/// The version of the ELF file's identification is not 1.
pub const SCROLL_BAD_VERSION: i32 = -13;
/// The size of an entry in the table of sections is not 64.
pub const SCROLL_BAD_ENTRY_SIZE: i32 = -9;
/// The header does not say how many sections there are, which is so for more than 65,279.
pub const SCROLL_LONG_TABLE: i32 = -10;
/// The index of the section with the names is past the table.
pub const SCROLL_BAD_NAMES: i32 = -11;
/// A part is longer than its format has a number for, or the caller's memory is too short for the
/// result.
pub const SCROLL_NO_ROOM: i32 = -12;

/// An error: which it is, and where.
#[repr(C)]
#[derive(Clone, Copy)]
pub struct ScrollError {
    /// The number that the function returned.
    pub code: i32,
    /// 0.
    pub reserved: u32,
    /// The offset in the bytes of the value that failed.
    pub offset: u64,
    /// The number that is wrong there, or 0.
    pub value: u64,
}

/// Returns an error.
pub fn fault(code: i32, offset: u64, value: u64) -> ScrollError
    ensures { result ≡ record { code = code; reserved = 0; offset = offset; value = value } }
{
    ScrollError {
        code,
        reserved: 0,
        offset,
        value,
    }
}

/// Returns a read's error, of a value that should start at an offset.
pub fn read_fault(error: &Error, offset: u64) -> ScrollError
    ensures is { result ≡ fault_of error.now offset }
    ensures code { result.code <ℤ pos 0 }
{
    match error {
        Error::TooBig { .. } => fault(SCROLL_TRUNCATED, offset, 0),
        Error::BadOffset(_) => fault(SCROLL_BAD_OFFSET, offset, 0),
        Error::NoMemory => fault(SCROLL_NO_MEMORY, offset, 0),
        Error::BadInput { size, .. } => fault(SCROLL_BAD_INPUT, offset, *size as u64),
        _ => fault(SCROLL_BAD_INPUT, offset, 0),
    }
}

/// Returns the error of a read in an ELF file.
pub fn elf_fault(error: &ElfError, offset: u64) -> ScrollError
    ensures is { result ≡ elf_fault_of error.now offset }
    ensures code { result.code <ℤ pos 0 }
{
    match error {
        ElfError::BadMagic(magic) => fault(SCROLL_BAD_MAGIC, 0, u64::from(*magic)),
        ElfError::BadClass(class) => fault(SCROLL_BAD_CLASS, 4, u64::from(*class)),
        ElfError::BadOrder(order) => fault(SCROLL_BAD_ORDER, 5, u64::from(*order)),
        ElfError::BadVersion(version) => fault(SCROLL_BAD_VERSION, 6, u64::from(*version)),
        ElfError::BadEntrySize(size) => fault(SCROLL_BAD_ENTRY_SIZE, 58, u64::from(*size)),
        ElfError::LongTable => fault(SCROLL_LONG_TABLE, 60, 0),
        ElfError::BadNames(index) => fault(SCROLL_BAD_NAMES, 62, u64::from(*index)),
        ElfError::Refused(error) => read_fault(error, offset),
    }
}
