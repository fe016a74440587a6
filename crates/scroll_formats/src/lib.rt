//! Formats of any size, on [`scroll`]: values that are read and written one after another, tables,
//! padding, and errors with their offsets.
//!
//! ```rust
//! use scroll::LE;
//! use scroll_formats::{Value, append, read_many};
//!
//! let mut file: Vec<u8> = Vec::new(rt.alloc());
//! append(&mut file, Value(1u16), LE)?;
//! append(&mut file, Value(2u16), LE)?;
//! let mut offset = 0;
//! let numbers: Vec<u16> = read_many(rt.alloc(), file.as_slice(), &mut offset, 2, LE)?;
//! assert_eq!(rt; numbers.as_slice(), [1, 2].as_slice());
//! ```
//!
//! - **Written**: [`Encode`] is what has bytes, however many; [`put_at`] and [`append`] write it.
//! - **Read**: [`read_many`] and [`read_to_end`] read values one after another, [`Table`] reads
//!   them where they lie, and [`Zeros`] as many zero bytes as its context says.
//! - **Written and read back**: [`Kept`] is a type whose values read back; [`write_kept`],
//!   [`write_many_kept`] and [`write_placed`] say so of what they write.
//! - **Errors**: [`At`] has the offset of an error, [`SmallError`] has few bytes.
#![tactic(auto)]

mod encode;
mod kept;
pub mod laws;
mod located;
mod many;
mod put;
mod small_error;
mod table;
#[cfg(test)]
mod tests;
mod zeros;

pub use crate::encode::{Encode, Value};
pub use crate::kept::Kept;
pub use crate::located::{At, LocateError};
pub use crate::many::{
    EntryOf, read_many, read_to_end, write_kept, write_many, write_many_kept, write_placed,
    write_tagged,
};
pub use crate::put::{append, put_at, read_fixed};
pub use crate::small_error::SmallError;
pub use crate::table::{Elements, Table};
pub use crate::zeros::{Zeros, padding};
