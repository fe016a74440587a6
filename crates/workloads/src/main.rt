//! The jobs that users of the libraries wait for, which bench/run times. `workloads JOB SEED
//! ROUNDS` makes the inputs of a job from a seed, runs it over them as often as is said, each time
//! on other bytes, and prints a digest of all results. The job `all` runs each of them, and
//! `own.values`, for example, a part of the job `own`.
#![tactic(auto)]

mod archives;
mod commands;
mod indexes;
mod inputs;
mod lines;
mod objects;
mod own;
mod records;
mod streams;
mod tables;

use crate::inputs::Digest;
use std::alloc::{AllocError, Global};
use std::env;
use std::process::ExitCode;

const JOBS: [&str; 7] = [
    "tables", "objects", "records", "streams", "archives", "commands", "own",
];

// Runs a job, and returns the digest of its results, or `None` where there is no such job.
fn run_job(alloc: Global, job: &str, seed: u64, rounds: u64) -> Result<Option<Digest>, AllocError> {
    let mut digest = Digest::new();
    match job {
        "tables" => {
            tables::run(alloc, seed, rounds, &mut digest)?;
            lines::run(alloc, seed, rounds, &mut digest)?;
        }
        "objects" => objects::run(alloc, seed, rounds, &mut digest)?,
        "records" => records::run(alloc, seed, rounds, &mut digest)?,
        "streams" => streams::run(alloc, seed, rounds, &mut digest)?,
        "archives" => {
            indexes::run(alloc, seed, rounds, &mut digest)?;
            archives::run(alloc, seed, rounds, &mut digest)?;
        }
        "commands" => commands::run(alloc, seed, rounds, &mut digest)?,
        "own" => own::run(alloc, seed, rounds, &mut digest)?,
        _ => match job.strip_prefix("own.") {
            Some(part) if own::run_part(alloc, part, seed, rounds, &mut digest)? => (),
            _ => return Ok(None),
        },
    }
    Ok(Some(digest))
}

// Runs a job, and prints its digest. Returns the exit status.
fn print_job(rt: &HostRuntime, job: &str, seed: u64, rounds: u64) -> u8 {
    match run_job(rt.alloc(), job, seed, rounds) {
        Ok(Some(digest)) => match println!(rt; "{job} {}", digest.value()) {
            Ok(()) => 0,
            Err(_) => 4,
        },
        Ok(None) => 2,
        Err(_) => 3,
    }
}

fn main(rt: HostRuntime) -> ExitCode {
    let Ok(mut words) = env::args(&rt) else {
        return ExitCode::from(2);
    };
    let _program = words.next();
    let (Some(job), Some(seed), Some(rounds)) = (words.next(), words.next(), words.next()) else {
        return ExitCode::from(2);
    };
    let (Ok(seed), Ok(rounds)) = (seed.parse::<u64>(), rounds.parse::<u64>()) else {
        return ExitCode::from(2);
    };
    if job.as_str() != "all" {
        return ExitCode::from(print_job(&rt, job.as_str(), seed, rounds));
    }
    for job in JOBS {
        let status = print_job(&rt, job, seed, rounds);
        if status != 0 {
            return ExitCode::from(status);
        }
    }
    ExitCode::from(0)
}
