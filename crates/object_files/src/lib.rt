//! The header, the sections and the symbols of a 64-bit ELF object file, in the byte order that the
//! file names, with the names of both.
//!
//! The format is that of the System V Application Binary Interface, in its chapter on object files.
//!
//! ```rust
//! let header: Header = file.pread_with(0, ())?;
//! let sections = read_sections(file, &header)?;
//! let names = name_table(file, &header, &sections)?;
//! for i in 0..sections.len() {
//!     if let Some(section) = sections.get(i) {
//!         let name = section_name(names, &section)?;
//!     }
//! }
//! ```
#![tactic(auto)]

mod error;
mod header;
mod names;
mod sections;
#[cfg(test)]
mod tests;

pub use crate::error::ElfError;
pub use crate::header::Header;
pub use crate::names::{name_table, section_bytes, section_name, symbol_name};
pub use crate::sections::{SYMBOLS, Section, Sections, Symbol, read_sections};
