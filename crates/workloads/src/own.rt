// What the other jobs don't show: functions of one's own that aren't inlined, small records,
// arrays, what stands at offsets of a table, C strings, symbols in the order of their names, texts
// of one alphabet, and ends of archives.
mod arrays;
mod c_strings;
mod ends;
mod marks;
mod offsets;
mod records;
mod symbols;
mod texts;
mod types;
mod values;

use crate::inputs::Digest;
use std::alloc::{AllocError, Global};

const PARTS: [&str; 8] = [
    "values",
    "records",
    "arrays",
    "offsets",
    "c_strings",
    "symbols",
    "texts",
    "ends",
];

/// Runs each of them.
pub fn run(alloc: Global, seed: u64, rounds: u64, digest: &mut Digest) -> Result<(), AllocError> {
    for part in PARTS {
        run_part(alloc, part, seed, rounds, digest)?;
    }
    Ok(())
}

/// Runs one of them, and returns whether there is one of that name.
pub fn run_part(
    alloc: Global,
    part: &str,
    seed: u64,
    rounds: u64,
    digest: &mut Digest,
) -> Result<bool, AllocError> {
    match part {
        "values" => values::run(alloc, seed, rounds, digest)?,
        "records" => records::run(alloc, seed, rounds, digest)?,
        "arrays" => arrays::run(alloc, seed, rounds, digest)?,
        "offsets" => offsets::run(alloc, seed, rounds, digest)?,
        "c_strings" => c_strings::run(alloc, seed, rounds, digest)?,
        "symbols" => symbols::run(alloc, seed, rounds, digest)?,
        "texts" => texts::run(alloc, seed, rounds, digest)?,
        "ends" => ends::run(alloc, seed, rounds, digest)?,
        _ => return Ok(false),
    }
    Ok(true)
}
