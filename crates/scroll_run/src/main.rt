//! Reads lines of commands from standard input, runs them over a buffer, and prints their results.
//!
//! The exit status is 0 if all commands were run, 2 for a bad input, 3 if it ran out of memory, and
//! 4 for an error of standard input or output.
#![tactic(auto)]

mod answers;
mod commands;
mod input;
mod kinds;
mod lines;
mod memory;
mod names;
mod output;
mod puts;
pub mod session;
#[cfg(test)]
mod tests;
mod words;

use std::process::ExitCode;

const FAULT: u8 = 4;

fn main(rt: HostRuntime) -> ExitCode {
    let mut input = rt.stdin();
    let mut output = rt.stdout();
    match session::session(rt.alloc(), &mut input, &mut output) {
        Ok(status) => ExitCode::from(status),
        Err(_) => ExitCode::from(FAULT),
    }
}
