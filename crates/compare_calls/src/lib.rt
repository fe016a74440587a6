//! Calls of the proved library, by number, for compare/src to compare with the Rust crate's.
//!
//! Each export takes what is asked, the bytes that are read or written, the bytes that make the
//! value of a write, and room for the answer. It returns how many bytes of the answer there are.
#![tactic(auto)]

mod bounds;
mod buffers;
mod call;
mod records;
mod streams;
mod structs;
