//! Reads typed values from byte slices and writes them there, each in a context such as a byte
//! order. The crate follows the Rust crate `scroll` 0.13.0.
//!
//! ```rust
//! use scroll::{BE, Pread, Pwrite};
//!
//! let mut bytes: [u8; 4] = [0xde, 0xad, 0xbe, 0xef];
//! let offset = &mut 1;
//! assert_eq!(rt; bytes[..].pread_with::<u32>(0, BE)?, 3735928559);
//! assert_eq!(rt; bytes[..].gread_with::<u16>(offset, BE)?, 44478);
//! assert_eq!(rt; *offset, 3);
//!
//! let mut target = &mut bytes[..];
//! target.pwrite_with(-2i16, 1, BE)?;
//! assert_eq!(rt; bytes, [0xde, 0xff, 0xfe, 0xef]);
//! ```
//!
//! [`Pread`] and [`Pwrite`] check that there is room, and return an error where there is none.
//! [`Cread`] and [`Cwrite`] return no error: the caller ensures that there is room, and the prover
//! checks it. Any type that implements the traits of [`ctx`] can be read and written: the ten
//! integer types, `f32` and `f64`, strings, byte slices, C strings, numbers in LEB128, arrays, and
//! your own types. [`runner`] runs lists of such reads and writes, and [`laws`] states laws of the
//! definitions that the contracts use. The crate `scroll_formats` has what formats of any size need
//! beside this.
//!
//! `docs/GUIDE.md` of the repository shows callers and types of your own with their proofs.
//! `crates/examples/src` of the repository has them whole, and the examples of the Rust crate's
//! documentation.
#![tactic(auto)]

pub mod cstr;
pub mod ctx;
mod endian;
mod error;
mod greater;
pub mod laws;
mod leb128;
mod lesser;
mod loads;
mod pread;
mod pwrite;
pub mod runner;
mod search;
pub mod slice;
mod source;
#[cfg(test)]
mod tests;
mod utf8;

pub use crate::endian::{BE, Endian, LE, NATIVE, NETWORK};
pub use crate::error::{Error, Result, check_room};
pub use crate::greater::{Cread, Cwrite};
pub use crate::leb128::{
    Leb128, LebNumber, Sleb128, Uleb128, plain_sleb, plain_uleb, sleb_block, sleb_loads,
    uleb_block, uleb_loads,
};
pub use crate::lesser::{IOread, IOwrite};
pub use crate::loads::Loads;
pub use crate::pread::Pread;
pub use crate::pwrite::Pwrite;
pub use crate::source::{ReadFrom, Source};
