// An entry, as a type that is read and written anywhere.
mod derived;

use scroll_formats::Zeros;
use std::ffi::CStr;

/// What an entry says of its file before the path.
// #[derive(Pread, Pwrite)]
#[derive(Clone, Copy, Debug)]
pub struct Stat {
    /// When the file's metadata last changed, in seconds and nanoseconds.
    pub changed: u32,
    pub changed_nanos: u32,
    /// When its contents last changed.
    pub modified: u32,
    pub modified_nanos: u32,
    pub device: u32,
    pub inode: u32,
    /// The kind of the file, and its permissions.
    pub mode: u32,
    pub user: u32,
    pub group: u32,
    /// Its size in bytes, of which git keeps 32 bits.
    pub size: u32,
    /// The name of the object with its contents.
    pub id: [u8; 20],
    /// From the highest bit: assume-valid, extended, two bits of the stage, and twelve of the
    /// path's length.
    pub flags: u16,
}

/// An entry. Its numbers are big-endian.
// #[derive(Pread, Pwrite)]
#[derive(Clone, Copy, Debug)]
pub struct Entry<'a> {
    pub stat: Stat,
    /// The path from the top of the working tree, with `/` between its parts.
    pub path: CStr<'a>,
    // #[scroll(ctx = padding(offset, 8))]
    pub pad: Zeros,
}
