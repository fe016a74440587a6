//! Numbers in LEB128, as DWARF and WebAssembly have them: seven bits per byte, the lowest first.
//!
//! A byte below 128 ends an encoding, and the low seven bits of each byte are the groups of the
//! number. A number has one encoding of each length from its shortest up to ten; the longer ones
//! are padded. One that was read is written with as many bytes as it had, any other in its shortest
//! encoding.
//!
//! [`Pread`](crate::Pread) reads [`Uleb128`] and [`Sleb128`], and [`Pwrite`](crate::Pwrite) writes
//! them. The functions of this module read the same numbers from a slice ([`plain_uleb`],
//! [`plain_sleb`]), from eight bytes ([`uleb_block`], [`sleb_block`]) and by counted loads
//! ([`uleb_loads`], [`sleb_loads`]).
mod block;
mod by_loads;
mod bytewise;
mod counted;
mod groups;
mod signed;
mod unsigned;
mod write;

use crate::error::Error;
pub use block::{sleb_block, uleb_block};
pub use by_loads::{sleb_loads, uleb_loads};
pub use bytewise::{plain_sleb, plain_uleb};
pub use counted::{Leb128, LebNumber};
pub use signed::Sleb128;
pub use unsigned::Uleb128;

// The error of a truncated source, which ends before its encoding does.
const TRUNCATED: Error = Error::TooBig { size: 1, len: 0 };
