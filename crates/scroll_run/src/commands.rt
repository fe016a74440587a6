//! The lines that hold commands.
ghost use Rattle.std.specs.Prelude.{◌≡◌, MatchResult};
ghost use Rattle.scroll_run.specs.Commands.{AreCommandsOf, IsCommandOf, SpellsCommand, SpellsCommandOf, verb_word};
ghost use Rattle.scroll_run.specs.Words.{Finds, Parses, texts_of, words_of};
ghost use Rattle.scroll_run.specs.declared.commands.Verb.TheVariants as verb;

use crate::kinds::parse_kind;
use crate::memory::Memory;
use crate::puts::{OwnedPut, parse_put};
use crate::words::{is, parse_usize, split};
use scroll::runner::{Command, Kind, Place};
use std::alloc::AllocError;

/// A command, with the bytes that its line holds.
#[derive(Drop)]
pub enum CommandLine {
    /// Reads a kind at an offset or at the cursor.
    Read(Place, Kind),
    /// Writes at an offset or at the cursor.
    Write(Place, OwnedPut),
}

/// The first word of a command.
#[derive(Clone, Copy)]
pub enum Verb {
    Pread,
    Gread,
    Pwrite,
    Gwrite,
}

impl CommandLine {
    /// Returns the command of the line, which borrows from it.
    pub fn command(&self) -> Command<'_>
        ensures { IsCommandOf self.now result }
    {
        match self {
            CommandLine::Read(place, kind) => Command::Read(*place, *kind),
            CommandLine::Write(place, written) => Command::Write(*place, written.put()),
        }
    }
}

/// Returns the command of each line.
pub fn borrow_commands<M: Memory>(
    memory: M,
    lines: &[CommandLine],
) -> Result<Vec<Command<'_>>, AllocError>
    ensures { MatchResult result (λ commands. AreCommandsOf lines.now commands.items)
        (λ _. M.refuses memory) }
{
    let mut commands = Vec::new(memory.alloc());
    for line in lines {
        memory.reserve(&mut commands, 1)?;
        commands.push_reserved(line.command());
    }
    Ok(commands)
}

/// Returns the command that a line spells, or `None` for a bad line. The only error is an
/// allocation failure.
pub fn parse_command<M: Memory>(memory: M, line: &[u8]) -> Result<Option<CommandLine>, AllocError>
    ensures { MatchResult result (Finds IsCommandOf (SpellsCommand (words_of line.now)))
        (λ _. M.refuses memory) }
{
    let words = split(memory, line, b' ')?;
    parse_words(memory, &words)
}

fn parse_words<M: Memory>(memory: M, words: &[&[u8]]) -> Result<Option<CommandLine>, AllocError>
    ensures { MatchResult result (Finds IsCommandOf (SpellsCommand (texts_of words.now)))
        (λ _. M.refuses memory) }
{
    let Some((verb, rest)) = words.split_first() else {
        return Ok(None);
    };
    match parse_verb(verb) {
        Some(verb) => parse_command_of(memory, verb, rest),
        None => Ok(None),
    }
}

// Returns the command that the words after a verb spell.
fn parse_command_of<M: Memory>(
    memory: M,
    verb: Verb,
    words: &[&[u8]],
) -> Result<Option<CommandLine>, AllocError>
    ensures { MatchResult result
        (Finds IsCommandOf (SpellsCommandOf verb (texts_of words.now))) (λ _. M.refuses memory) }
{
    match verb {
        Verb::Pread => Ok(parse_pread(words)),
        Verb::Gread => Ok(parse_gread(words)),
        Verb::Pwrite => parse_pwrite(memory, words),
        Verb::Gwrite => parse_gwrite(memory, words),
    }
}

fn parse_verb(word: &[u8]) -> Option<Verb>
    ensures { Parses (λ verb. word.now ≡ verb_word verb) result }
{
    if is(word, b"pread") {
        Some(Verb::Pread)
    } else if is(word, b"gread") {
        Some(Verb::Gread)
    } else if is(word, b"pwrite") {
        Some(Verb::Pwrite)
    } else if is(word, b"gwrite") {
        Some(Verb::Gwrite)
    } else {
        None
    }
}

fn parse_pread(words: &[&[u8]]) -> Option<CommandLine>
    ensures { Finds IsCommandOf (SpellsCommandOf verb.Pread (texts_of words.now)) result }
{
    let Some((word, rest)) = words.split_first() else {
        return None;
    };
    let offset = parse_usize(word)?;
    let kind = parse_kind(rest)?;
    Some(CommandLine::Read(Place::At(offset), kind))
}

fn parse_gread(words: &[&[u8]]) -> Option<CommandLine>
    ensures { Finds IsCommandOf (SpellsCommandOf verb.Gread (texts_of words.now)) result }
{
    Some(CommandLine::Read(Place::Cursor, parse_kind(words)?))
}

fn parse_pwrite<M: Memory>(memory: M, words: &[&[u8]]) -> Result<Option<CommandLine>, AllocError>
    ensures { MatchResult result
        (Finds IsCommandOf (SpellsCommandOf verb.Pwrite (texts_of words.now)))
        (λ _. M.refuses memory) }
{
    let Some((word, rest)) = words.split_first() else {
        return Ok(None);
    };
    let Some(offset) = parse_usize(word) else {
        return Ok(None);
    };
    match parse_put(memory, rest)? {
        Some(put) => Ok(Some(CommandLine::Write(Place::At(offset), put))),
        None => Ok(None),
    }
}

fn parse_gwrite<M: Memory>(memory: M, words: &[&[u8]]) -> Result<Option<CommandLine>, AllocError>
    ensures { MatchResult result
        (Finds IsCommandOf (SpellsCommandOf verb.Gwrite (texts_of words.now)))
        (λ _. M.refuses memory) }
{
    match parse_put(memory, words)? {
        Some(put) => Ok(Some(CommandLine::Write(Place::Cursor, put))),
        None => Ok(None),
    }
}
