//! The code of `docs/GUIDE.md`, and the examples of the Rust crate's documentation, with tests.
//!
//! Copy the file that is closest to yours, with `results`, which has the checks of the tests.
#![tactic(auto)]

#[cfg(test)]
mod arrays;
#[cfg(test)]
mod chunk;
#[cfg(test)]
mod either_order;
#[cfg(test)]
mod errors;
#[cfg(test)]
mod format;
#[cfg(test)]
mod loops;
#[cfg(test)]
mod overview;
#[cfg(test)]
mod own_types;
#[cfg(test)]
mod results;
#[cfg(test)]
mod sized_fields;
#[cfg(test)]
mod stream;
