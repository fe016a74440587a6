// C strings: one after another, in short fields, made of texts, and read by runs of commands.
use crate::inputs::{Digest, Random, add_to_words, low32};
use crate::own::marks::{Marked, ascii_mark};
use scroll::cstr::{CStr, CString};
use scroll::runner::{Answer, Command, Kind, Place, Value, run as run_commands};
use scroll::{Pread, Result};
use std::alloc::{AllocError, Global};
use std::result;

const STRINGS: usize = 10_000;

const FIELDS: usize = 8000;

const TEXTS: usize = 2000;

const LISTS: usize = 50;

// So many commands are in a list.
const LIST: usize = 50;

// C strings one after another: most of 4 to 20 letters, some of up to 200. No zero ends the last.
fn make_strings(
    alloc: Global,
    random: &mut Random,
    count: usize,
) -> result::Result<Marked, AllocError> {
    let mut strings = Marked::new(alloc);
    for _ in 0..count {
        let letters = match random.next() % 10 {
            0..=6 => random.between(4, 20),
            7 | 8 => random.between(20, 60),
            _ => random.between(60, 200),
        };
        strings.push_text(random, letters)?;
        strings.bytes.push(0)?;
    }
    strings.push_text(random, 9)?;
    Ok(strings)
}

#[inline(never)]
fn add_strings(source: &[u8], digest: &mut Digest) {
    let mut offset = 0;
    for _ in 0..source.len() {
        match source.gread_with::<CStr>(&mut offset, ()) {
            Ok(text) => digest.add_ends(text.to_bytes()),
            Err(error) => return digest.add_error(&error),
        }
    }
}

// Fields of sixteen bytes, and the place of a zero in each. Behind it stand any bytes.
#[derive(Drop)]
struct Fields {
    bytes: Vec<u8>,
    zeros: Vec<usize>,
    odd: u64,
}

// Two of fifteen fields have no zero of their own.
fn make_fields(alloc: Global, random: &mut Random) -> result::Result<Fields, AllocError> {
    let mut fields = Fields {
        bytes: Vec::new(alloc),
        zeros: Vec::new(alloc),
        odd: random.next() << 32 | random.next() | 1,
    };
    for _ in 0..FIELDS {
        fields.zeros.push(random.between(3, 17) as usize)?;
        for _ in 0..4 {
            let word = low32(random.next());
            fields.bytes.extend_from_slice(&word.to_le_bytes())?;
        }
    }
    Ok(fields)
}

// Changes the bytes, and puts the zeros in their places again.
fn change_fields(fields: &mut Fields) {
    let bytes = fields.bytes.as_mut_slice();
    add_to_words(bytes, fields.odd);
    for (field, place) in bytes.chunks_exact_mut(16).zip(&fields.zeros) {
        if let Some(byte) = field.get_mut(*place) {
            *byte = 0;
        }
    }
}

#[inline(never)]
fn add_fields(file: &[u8], digest: &mut Digest) {
    for field in file.chunks_exact(16) {
        match field.pread_with::<CStr>(0, ()) {
            Ok(name) => digest.add_ends(name.to_bytes()),
            Err(error) => digest.add_error(&error),
        }
    }
}

// Texts of 16 to 79 letters, and their lengths. One of thirty begins with other letters and a zero.
fn make_texts(
    alloc: Global,
    random: &mut Random,
) -> result::Result<(Marked, Vec<usize>), AllocError> {
    let mut texts = Marked::new(alloc);
    let mut lens = Vec::new(alloc);
    for _ in 0..TEXTS {
        let start = texts.bytes.len();
        if random.next() % 30 == 0 {
            let letters = random.between(4, 30);
            texts.push_text(random, letters)?;
            texts.bytes.push(0)?;
        }
        let letters = random.between(16, 79);
        texts.push_text(random, letters)?;
        lens.push(texts.bytes.len().saturating_sub(start))?;
    }
    Ok((texts, lens))
}

#[inline(never)]
fn make_owned(alloc: Global, source: &[u8], offset: &mut usize, len: usize) -> Result<CString> {
    let text: &[u8] = source.gread_with(offset, len)?;
    let owned = CString::new(alloc, text)?;
    Ok(owned)
}

#[inline(never)]
fn add_owned(alloc: Global, source: &[u8], lens: &[usize], digest: &mut Digest) {
    let mut offset = 0;
    for len in lens {
        match make_owned(alloc, source, &mut offset, *len) {
            Ok(text) => digest.add_ends(text.as_bytes_with_nul()),
            Err(error) => digest.add_error(&error),
        }
    }
}

fn make_commands<'c>(alloc: Global) -> result::Result<Vec<Command<'c>>, AllocError> {
    let mut commands = Vec::new(alloc);
    for _ in 0..LIST {
        let command = Command::Read(Place::Cursor, Kind::CString);
        if commands.push(command).is_err() {
            return Err(AllocError);
        }
    }
    Ok(commands)
}

fn add_answers(digest: &mut Digest, answers: &[Answer]) {
    digest.add(answers.len() as u64);
    for answer in answers {
        match answer {
            Answer::Read(Value::CStr(text)) => digest.add_ends(text.as_slice()),
            Answer::Refused(error) => digest.add_error(error),
            _ => digest.add_as(11, 0),
        }
    }
}

// Runs a list of reads again and again, each run from where the one before it ended.
#[inline(never)]
fn run_lists(
    alloc: Global,
    buffer: &mut [u8],
    commands: &[Command],
    digest: &mut Digest,
) -> result::Result<(), AllocError> {
    let mut answers = Vec::new(alloc);
    let mut cursor = 0;
    for _ in 0..LISTS {
        answers.clear();
        if run_commands(alloc, buffer, &mut cursor, commands, &mut answers).is_err() {
            return Err(AllocError);
        }
        digest.add(cursor as u64);
        add_answers(digest, answers.as_slice());
    }
    Ok(())
}

/// Writes the mark of the round into each string, and reads them.
pub fn run(
    alloc: Global,
    seed: u64,
    rounds: u64,
    digest: &mut Digest,
) -> result::Result<(), AllocError> {
    let mut random = Random::new(seed ^ 0x7777);
    let mut strings = make_strings(alloc, &mut random, STRINGS)?;
    let mut buffer = make_strings(alloc, &mut random, LISTS * LIST - 1)?;
    let mut fields = make_fields(alloc, &mut random)?;
    let (mut texts, lens) = make_texts(alloc, &mut random)?;
    let commands = make_commands(alloc)?;
    for round in 0..rounds {
        let mark = ascii_mark(round);
        strings.mark(mark);
        add_strings(strings.bytes.as_slice(), digest);
        change_fields(&mut fields);
        add_fields(fields.bytes.as_slice(), digest);
        texts.mark(mark);
        add_owned(alloc, texts.bytes.as_slice(), lens.as_slice(), digest);
        buffer.mark(mark);
        run_lists(
            alloc,
            buffer.bytes.as_mut_slice(),
            commands.as_slice(),
            digest,
        )?;
    }
    Ok(())
}
