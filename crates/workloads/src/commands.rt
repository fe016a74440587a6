// Long lists of commands over one buffer.
use crate::inputs::{Digest, Random, low16, low32};
use scroll::cstr::CStr;
use scroll::ctx::StrCtx;
use scroll::runner::{
    Answer, Command, Kind, Number, Place, Put, Value, Width, run as run_commands,
};
use scroll::{BE, Endian, LE, Sleb128, Uleb128};
use std::alloc::{AllocError, Global};

const BUFFER: usize = 0x1_0000;

const COMMANDS: usize = 60_000;

// So many commands are run with one cursor.
const LIST: usize = 1000;

// What the buffer is filled with.
static LETTERS: [u8; 32] = *b" \0abcdefghijklmnopabcdefghijklmn";

fn choose_order(random: &mut Random) -> Endian {
    if random.next() % 2 == 0 { LE } else { BE }
}

fn choose_place(random: &mut Random, awkward: bool) -> Place {
    if random.next() % 3 == 0 {
        return Place::Cursor;
    }
    // (half of the awkward ones that come here are at the last byte or behind it)
    if awkward && random.next() % 2 == 0 {
        return Place::At(random.between(0xffff, 0x1_0040) as usize);
    }
    Place::At(random.between(0, 0xffff) as usize)
}

fn choose_width(random: &mut Random) -> Width {
    match random.next() % 10 {
        0 => Width::U8,
        1 => Width::I8,
        2 => Width::U16,
        3 => Width::I16,
        4 => Width::U32,
        5 => Width::I32,
        6 => Width::U64,
        7 => Width::I64,
        8 => Width::U128,
        _ => Width::I128,
    }
}

fn choose_text(random: &mut Random, awkward: bool) -> StrCtx {
    // (far where there is none of it)
    let delimiter = if awkward && random.next() % 20 == 0 {
        1
    } else {
        b' '
    };
    match random.next() % 4 {
        0 => StrCtx::Delimiter(delimiter),
        1 => StrCtx::DelimiterUntil(delimiter, random.between(0, 100) as usize),
        2 => StrCtx::Length(random.between(0, 60) as usize),
        _ => StrCtx::Required(delimiter),
    }
}

fn choose_kind(random: &mut Random, awkward: bool) -> Kind {
    match random.next() % 20 {
        0..=7 => Kind::Number(choose_width(random), choose_order(random)),
        8 | 9 => Kind::Text(choose_text(random, awkward)),
        10 | 11 => Kind::Bytes(random.between(0, 80) as usize),
        12 => Kind::CStr,
        13 => Kind::CString,
        14 | 15 => Kind::Uleb,
        16 => Kind::Sleb,
        17 => Kind::U8x0(choose_order(random)),
        18 => Kind::U16x3(choose_order(random)),
        _ => Kind::Textx2(choose_text(random, awkward)),
    }
}

fn choose_number(random: &mut Random) -> Number {
    let number = random.next();
    match choose_width(random) {
        Width::U8 => Number::U8((number & 0x7f) as u8),
        Width::I8 => Number::I8((number & 0x7f) as i8),
        Width::U16 => Number::U16((number & 0x7f7f) as u16),
        Width::I16 => Number::I16((number & 0x7f7f) as i16),
        Width::U32 => Number::U32((number & 0x7f7f_7f7f) as u32),
        Width::I32 => Number::I32((number & 0x7f7f_7f7f) as i32),
        Width::U64 => Number::U64(number),
        Width::I64 => Number::I64(number.cast_signed()),
        Width::U128 => Number::U128(u128::from(number) << 40),
        Width::I128 => Number::I128(i128::from(number.cast_signed())),
    }
}

fn choose_put<'c>(random: &mut Random, text: &'c str) -> Put<'c> {
    let bytes = text.as_bytes();
    let start = random.between(0, 40) as usize;
    let some = bytes
        .get(start..start.saturating_add(random.between(0, 40) as usize))
        .unwrap_or(b"");
    match random.next() % 12 {
        0..=4 => Put::Number(choose_number(random), choose_order(random)),
        5 => Put::Text(text),
        6 => Put::Bytes(some),
        7 => match CStr::from_bytes_until_nul(bytes.get(start..).unwrap_or(b"")) {
            Some(text) => Put::CStr(text),
            None => Put::Bytes(some),
        },
        8 => Put::Uleb(Uleb128::shortest(random.next())),
        9 => Put::Sleb(Sleb128::shortest(random.next().wrapping_sub(0x7fff_ffff).cast_signed())),
        10 => {
            let first = low16(random.next() & 0x7f7f);
            let second = low16(random.next() & 0x7f7f);
            let third = low16(random.next() & 0x7f7f);
            Put::U16x3([first, second, third], choose_order(random))
        }
        _ => Put::Bytesx2(some, bytes),
    }
}

// A third of the commands are writes.
fn choose_command<'c>(random: &mut Random, text: &'c str, awkward: bool) -> Command<'c> {
    let place = choose_place(random, awkward);
    if random.next() % 3 == 0 {
        Command::Write(place, choose_put(random, text))
    } else {
        Command::Read(place, choose_kind(random, awkward))
    }
}

fn make_commands<'c>(
    alloc: Global,
    random: &mut Random,
    text: &'c str,
    awkward: bool,
) -> Result<Vec<Command<'c>>, AllocError> {
    let mut commands = Vec::new(alloc);
    for _ in 0..COMMANDS {
        let command = choose_command(random, text, awkward);
        if commands.push(command).is_err() {
            return Err(AllocError);
        }
    }
    Ok(commands)
}

// Returns both halves of a number as one.
fn fold(number: u128) -> u64 {
    (number & 0xffff_ffff_ffff_ffff) as u64 ^ (number >> 64) as u64
}

fn add_value(digest: &mut Digest, value: &Value) {
    match value {
        Value::Unsigned(number) => digest.add_as(11, fold(*number)),
        Value::Signed(number) => digest.add_as(12, fold(number.cast_unsigned())),
        Value::Text(text) => {
            digest.add_as(13, 1);
            digest.add_ends(text.as_bytes());
        }
        Value::Bytes(bytes) => {
            digest.add_as(14, 1);
            digest.add_ends(bytes.as_slice());
        }
        Value::CStr(bytes) => {
            digest.add_as(15, 1);
            digest.add_ends(bytes.as_slice());
        }
        Value::Uleb(number) => {
            digest.add_as(16, 0);
            digest.add_unsigned(*number);
        }
        Value::Sleb(number) => {
            digest.add_as(17, 0);
            digest.add_signed(*number);
        }
        Value::U8x0 => digest.add_as(18, 0),
        Value::U16x3([first, second, third]) => {
            let first = u64::from(*first);
            digest.add_as(
                19,
                first ^ u64::from(*second) << 16 ^ u64::from(*third) << 32,
            )
        }
        Value::Textx2(first, second) => {
            digest.add_as(20, 2);
            digest.add_ends(first.as_bytes());
            digest.add_ends(second.as_bytes());
        }
    }
}

fn add_answers(digest: &mut Digest, answers: &[Answer]) {
    digest.add(answers.len() as u64);
    for answer in answers {
        match answer {
            Answer::Read(value) => add_value(digest, value),
            Answer::Wrote(size) => digest.add_as(21, *size as u64),
            Answer::Refused(error) => digest.add_error(error),
        }
    }
}

// Words, with a zero behind the eighth.
fn make_text(alloc: Global, random: &mut Random) -> Result<String, AllocError> {
    let mut text = String::new(alloc);
    for i in 0..16 {
        for _ in 0..random.between(1, 7) {
            text.push(char::from(b'a' + (random.next() % 26) as u8))?;
        }
        text.push(if i == 7 { '\0' } else { ' ' })?;
    }
    Ok(text)
}

// Runs the commands, with the cursor put elsewhere for each list.
fn run_lists(
    alloc: Global,
    buffer: &mut [u8],
    commands: &[Command],
    round: u64,
    digest: &mut Digest,
) -> Result<(), AllocError> {
    let mut answers = Vec::new(alloc);
    let mut start = round as usize % 1000;
    for list in commands.chunks(LIST) {
        start = start.saturating_add(7919) % 60_000;
        let mut cursor = start;
        answers.clear();
        if run_commands(alloc, buffer, &mut cursor, list, &mut answers).is_err() {
            return Err(AllocError);
        }
        digest.add(cursor as u64);
        add_answers(digest, answers.as_slice());
    }
    digest.add_written(buffer, round);
    Ok(())
}

// Fills the buffer with letters, with a space or a zero in one of sixteen places.
#[inline(never)]
fn fill(buffer: &mut [u8], random: &mut Random) {
    for part in buffer.chunks_exact_mut(4) {
        if let Some(part) = part.as_mut_array() {
            let [first, second, third, fourth] = low32(random.next()).to_le_bytes();
            *part = [letter(first), letter(second), letter(third), letter(fourth)];
        }
    }
}

fn letter(number: u8) -> u8 {
    LETTERS[number as usize % 32]
}

/// Fills the buffer anew, and runs the commands over it: plain ones, and in every second round
/// awkward ones, of which about a third are refused.
pub fn run(alloc: Global, seed: u64, rounds: u64, digest: &mut Digest) -> Result<(), AllocError> {
    let mut random = Random::new(seed);
    let text = make_text(alloc, &mut random)?;
    let plain = make_commands(alloc, &mut random, text.as_str(), false)?;
    let awkward = make_commands(alloc, &mut random, text.as_str(), true)?;
    let mut buffer = vec![in alloc; 0u8; BUFFER]?;
    for round in 0..rounds {
        fill(buffer.as_mut_slice(), &mut random);
        let commands = if round % 2 == 0 { &plain } else { &awkward };
        run_lists(
            alloc,
            buffer.as_mut_slice(),
            commands.as_slice(),
            round,
            digest,
        )?;
    }
    Ok(())
}
