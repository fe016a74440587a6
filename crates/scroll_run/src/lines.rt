//! The lines of an input.
ghost use Rattle.std.specs.Prelude.{◌≡◌, MatchResult};
ghost use Rattle.scroll_run.specs.Lines.{lines_of, without_feed, HoldsScript, SpellsAllHeld, SpellsBuffer, SpellsCursor, Stops, StopsCommands};
ghost use Rattle.scroll_run.specs.Words.{Parses, ParsesAs, texts_of};
ghost use Rattle.scroll_run.specs.declared.lines.Stop.TheVariants.{NoMemory};

use crate::commands::{CommandLine, parse_command};
use crate::memory::Memory;
use crate::words::{parse_bytes, parse_usize, split};
use std::alloc::AllocError;

/// Why an input isn't run.
#[derive(Clone, Copy)]
pub enum Stop {
    /// The first bad line, counted from 1.
    BadLine(usize),
    /// There was no memory.
    NoMemory,
}

impl From<AllocError> for Stop {
    ghost from_gives = { λ _ stop. stop ≡ NoMemory };

    fn from(_error: AllocError) -> Stop {
        Stop::NoMemory
    }
}

/// What the lines of an input spell.
#[derive(Drop)]
pub struct Script {
    /// The buffer before the first command.
    pub buffer: Vec<u8>,
    /// The cursor before the first command.
    pub cursor: usize,
    /// The commands, in order.
    pub commands: Vec<CommandLine>,
}

/// Returns what the lines of an input spell. A line feed ends each line; the last line may lack it.
pub fn parse_script<M: Memory>(memory: M, input: &[u8]) -> Result<Script, Stop>
    ensures { MatchResult result (HoldsScript (lines_of input.now))
        (Stops (M.refuses memory) (lines_of input.now)) }
{
    let lines = split(memory, without_last_feed(input), b'\n')?;
    parse_lines(memory, &lines)
}

fn without_last_feed(input: &[u8]) -> &[u8]
    ensures { result.now ≡ without_feed input.now }
{
    match input {
        [text @ .., b'\n'] => text,
        _ => input,
    }
}

fn parse_lines<M: Memory>(memory: M, lines: &[&[u8]]) -> Result<Script, Stop>
    ensures { MatchResult result (HoldsScript (texts_of lines.now))
        (Stops (M.refuses memory) (texts_of lines.now)) }
{
    let Some((first, rest)) = lines.split_first() else {
        return Err(Stop::BadLine(1));
    };
    let Some(buffer) = parse_buffer(memory, first)? else {
        return Err(Stop::BadLine(1));
    };
    let Some((second, rest)) = rest.split_first() else {
        return Err(Stop::BadLine(2));
    };
    let Some(cursor) = parse_cursor(second) else {
        return Err(Stop::BadLine(2));
    };
    let commands = parse_commands(memory, rest)?;
    Ok(Script {
        buffer,
        cursor,
        commands,
    })
}

fn parse_buffer<M: Memory>(memory: M, line: &[u8]) -> Result<Option<Vec<u8>>, AllocError>
    ensures { MatchResult result (ParsesAs (λ bytes. bytes.items) (SpellsBuffer line.now))
        (λ _. M.refuses memory) }
{
    match line.strip_prefix(b"buffer ") {
        Some(word) => parse_bytes(memory, word),
        None => Ok(None),
    }
}

fn parse_cursor(line: &[u8]) -> Option<usize>
    ensures { Parses (SpellsCursor line.now) result }
{
    parse_usize(line.strip_prefix(b"cursor ")?)
}

// Returns the commands of the lines from the third on.
fn parse_commands<M: Memory>(memory: M, lines: &[&[u8]]) -> Result<Vec<CommandLine>, Stop>
    ensures { MatchResult result (λ held. SpellsAllHeld (texts_of lines.now) held.items)
        (StopsCommands (M.refuses memory) (texts_of lines.now)) }
{
    let mut commands = Vec::new(memory.alloc());
    for line in lines {
        memory.reserve(&mut commands, 1)?;
        match parse_command(memory, line)? {
            Some(command) => commands.push_reserved(command),
            None => return Err(Stop::BadLine(commands.len() + 3)),
        }
    }
    Ok(commands)
}
