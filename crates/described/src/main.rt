//! The work of the clients that are descriptions, which `bench/count` guards. `described KIND
//! ROUNDS` takes from standard input what one of them describes, such as messages of DNS, and
//! reads, looks into and writes each value, a hundred times a round. It prints a digest of what was
//! found and of what was written.
#![tactic(auto)]

mod kinds;

use crate::kinds::{Answers, Copies, Entries, Hellos, Members, Modules, copy_all};
use std::env;
use std::io::Read;
use std::process::ExitCode;

// Reads and writes all values of a kind as often as is said.
fn run_rounds<K: Copies>(from: &[u8], to: &mut [u8], rounds: u64) -> Option<u64> {
    let mut digest: u64 = 0;
    for _ in 0..rounds.saturating_mul(100) {
        digest = digest.rotate_left(1) ^ copy_all::<K>(from, to)?;
    }
    for byte in to.iter() {
        digest = digest.rotate_left(8) ^ u64::from(*byte);
    }
    Some(digest)
}

fn run_kind(kind: &str, from: &[u8], to: &mut [u8], rounds: u64) -> Option<u64> {
    match kind {
        "hellos" => run_rounds::<Hellos>(from, to, rounds),
        "answers" => run_rounds::<Answers>(from, to, rounds),
        "modules" => run_rounds::<Modules>(from, to, rounds),
        "members" => run_rounds::<Members>(from, to, rounds),
        "entries" => run_rounds::<Entries>(from, to, rounds),
        _ => None,
    }
}

fn main(rt: HostRuntime) -> ExitCode {
    let Ok(mut words) = env::args(&rt) else {
        return ExitCode::from(2);
    };
    let _program = words.next();
    let (Some(kind), Some(rounds)) = (words.next(), words.next()) else {
        return ExitCode::from(2);
    };
    let Ok(rounds) = rounds.parse::<u64>() else {
        return ExitCode::from(2);
    };
    let mut from = Vec::new(rt.alloc());
    if rt.stdin().read_to_end(&mut from).is_err() {
        return ExitCode::from(3);
    }
    let Ok(mut to) = from.clone() else {
        return ExitCode::from(3);
    };
    to.fill(0);
    match run_kind(kind.as_str(), &from, &mut to, rounds) {
        Some(digest) => match println!(rt; "{} {digest}", kind.as_str()) {
            Ok(()) => ExitCode::from(0),
            Err(_) => ExitCode::from(4),
        },
        None => ExitCode::from(2),
    }
}
