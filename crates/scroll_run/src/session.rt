//! A whole session.
ghost use Rattle.std.specs.Prelude.{◌≢◌, ℕ, List, IfOk, IfErr, OnErr, MatchResult, string_bytes};
ghost use Rattle.std.specs.IoError.{error_kind};
ghost use Rattle.std.specs.Io.KnownBytes.{Appends};
ghost use Rattle.scroll_run.specs.Answers.{AnswersInput, AnswersSession, BreaksOff, RunsCommands, RunsScript};

use crate::answers::print_answers;
use crate::commands::borrow_commands;
use crate::input::{MAX_READ, ReadError, read_input};
use crate::lines::{Script, Stop, parse_script};
use crate::memory::Memory;
use crate::output::write_output;
use scroll::runner::Command;
use std::alloc::AllocError;
use std::io;
use std::io::{ErrorKind, Read, Write};

// The statuses that a session returns.
const ANSWERED: u8 = 0;

const BAD_INPUT: u8 = 2;

const NO_MEMORY: u8 = 3;

// What a session prints, and its status.
#[derive(Drop)]
struct Outcome {
    text: String,
    status: u8,
}

/// Runs the session that the reader gives, writes its output, and returns its status.
///
/// An error is one of the reader or of the writer. None, some or all of the output was then
/// written.
pub fn session<M: Memory, R: Read, W: Write>(
    memory: M,
    input: &mut R,
    output: &mut W,
) -> io::Result<u8>
    ensures answered { IfOk result (λ status. (text : List ℕ)
        × Appends (W.contents output.old) (W.contents output.new) text
        × AnswersSession (M.refuses memory) (R.remaining input.old) (R.remaining input.new)
        text status) }
    ensures broken_off { OnErr result (BreaksOff (M.refuses memory) (R.remaining input.old)
        (R.remaining input.new) (W.contents output.old) (W.contents output.new)) }
    ensures not_interrupted { IfErr result (λ e. error_kind e ≢ ErrorKind.Interrupted) }
{
    let outcome = match read_input(memory, input) {
        Ok(bytes) => answer_input(memory, &bytes),
        Err(ReadError::NoMemory) => Err(AllocError),
        Err(ReadError::Io(error)) => return Err(error),
    };
    let (text, status) = match &outcome {
        Ok(outcome) => (outcome.text.as_bytes(), outcome.status),
        Err(_) => (b"out of memory\n".as_slice(), NO_MEMORY),
    };
    write_output(output, text)?;
    Ok(status)
}

// Returns the output and the status for an input.
fn answer_input<M: Memory>(memory: M, input: &[u8]) -> Result<Outcome, AllocError>
    ensures { MatchResult result (λ outcome.
        AnswersInput input.now (string_bytes outcome.text) outcome.status) (λ _. M.refuses memory) }
{
    if input.len() >= MAX_READ {
        return Ok(Outcome {
            text: memory.format("input too long\n")?,
            status: BAD_INPUT,
        });
    }
    match parse_script(memory, input) {
        Ok(mut script) => Ok(Outcome {
            text: run_script(memory, &mut script)?,
            status: ANSWERED,
        }),
        Err(Stop::BadLine(number)) => Ok(Outcome {
            text: memory.format(format_args_nl!("bad line {number}"))?,
            status: BAD_INPUT,
        }),
        Err(Stop::NoMemory) => Err(AllocError),
    }
}

// Runs the commands of a script over its buffer, and prints what they return and leave.
fn run_script<M: Memory>(memory: M, script: &mut Script) -> Result<String, AllocError>
    ensures { MatchResult result (λ text. RunsScript script.old (string_bytes text))
        (λ _. M.refuses memory) }
{
    let commands = borrow_commands(memory, &script.commands)?;
    run_commands(
        memory,
        script.buffer.as_mut_slice(),
        script.cursor,
        &commands,
    )
}

// Runs the commands over a buffer from a cursor, and prints what they return and leave.
fn run_commands<M: Memory>(
    memory: M,
    buffer: &mut [u8],
    cursor: usize,
    commands: &[Command<'_>],
) -> Result<String, AllocError>
    ensures { MatchResult result
        (λ text. RunsCommands buffer.old cursor commands.now (string_bytes text))
        (λ _. M.refuses memory) }
{
    let mut end = cursor;
    let mut answers = Vec::new(memory.alloc());
    memory.run(buffer, &mut end, commands, &mut answers)?;
    print_answers(memory, &answers, buffer, end)
}
