// Texts of one alphabet each, read up to a zero and by their length.
use crate::inputs::{Digest, Random, low8};
use crate::own::marks::{Marked, ascii_mark, digits};
use scroll::Pread;
use scroll::ctx::StrCtx;
use std::alloc::{AllocError, Global};

const TEXTS: usize = 700;

// What the letters of a text are.
#[derive(Clone, Copy)]
enum Alphabet {
    English,
    German,
    French,
    Russian,
    Chinese,
    // Russian first, and then ASCII.
    Mixed,
    // A pictogram first, and then ASCII.
    Pictogram,
    // Russian in Windows-1251, which is refused at the first letter.
    Windows,
}

const ALPHABETS: [Alphabet; 8] = [
    Alphabet::English,
    Alphabet::German,
    Alphabet::French,
    Alphabet::Russian,
    Alphabet::Chinese,
    Alphabet::Mixed,
    Alphabet::Pictogram,
    Alphabet::Windows,
];

// The texts, and the place and the length of each in bytes.
#[derive(Drop)]
struct Texts {
    marked: Marked,
    places: Vec<(usize, usize)>,
}

fn push_ascii(bytes: &mut Vec<u8>, random: &mut Random) -> Result<(), AllocError> {
    let letter = match random.next() % 7 {
        0 => b' ',
        _ => b'a' + (random.next() % 26) as u8,
    };
    Ok(bytes.push(letter)?)
}

fn push_russian(bytes: &mut Vec<u8>, random: &mut Random) -> Result<(), AllocError> {
    match random.next() % 7 {
        0 => bytes.push(b' ')?,
        1..=4 => bytes.extend_from_slice(&[0xd0, 0xb0 | low8(random.next() & 0xf)])?,
        _ => bytes.extend_from_slice(&[0xd1, 0x80 | low8(random.next() & 0xf)])?,
    }
    Ok(())
}

fn push_one(bytes: &mut Vec<u8>, letters: &[&str], number: u64) -> Result<(), AllocError> {
    let letter = letters.get(number as usize % letters.len().max(1));
    Ok(bytes.extend_from_slice(letter.copied().unwrap_or("").as_bytes())?)
}

impl Alphabet {
    // Appends a letter, of which this many came before.
    fn push_letter(
        self,
        bytes: &mut Vec<u8>,
        random: &mut Random,
        before: u64,
    ) -> Result<(), AllocError> {
        let number = random.next();
        match self {
            Alphabet::German if number % 80 < 4 => push_one(bytes, &["ä", "ö", "ü", "ß"], number)?,
            Alphabet::French if number % 48 < 4 => push_one(bytes, &["é", "è", "à", "ç"], number)?,
            Alphabet::Russian => push_russian(bytes, random)?,
            Alphabet::Chinese if number % 15 == 0 => bytes.extend_from_slice("，".as_bytes())?,
            Alphabet::Chinese => {
                let middle = 0x80 | low8(number >> 8 & 0x3f);
                let last = 0x80 | low8(number >> 16 & 0x3f);
                bytes.extend_from_slice(&[0xe4 | low8(number & 3), middle, last])?
            }
            Alphabet::Mixed if before < 16 => push_russian(bytes, random)?,
            Alphabet::Pictogram if before == 0 => {
                bytes.extend_from_slice(&[0xf0, 0x9f, 0x98, 0x80 | low8(number & 0x3f)])?
            }
            Alphabet::Windows => bytes.push(0xe0 | low8(number & 0x1f))?,
            _ => push_ascii(bytes, random)?,
        }
        Ok(())
    }

    fn push_mark(self, marked: &mut Marked) -> Result<(), AllocError> {
        match self {
            Alphabet::Russian => marked.push_mark(russian_mark(0)),
            Alphabet::Chinese => marked.push_mark(chinese_mark(0)),
            _ => marked.push_mark(ascii_mark(0)),
        }
    }

    fn mark(self, marked: &mut Marked, round: u64) {
        match self {
            Alphabet::Russian => marked.mark(russian_mark(round)),
            Alphabet::Chinese => marked.mark(chinese_mark(round)),
            _ => marked.mark(ascii_mark(round)),
        }
    }
}

// The digits of the number of a round as letters.
fn russian_mark(round: u64) -> [u8; 8] {
    let [a, b, c, d] = digits(round).map(|digit| 0xb0 | digit);
    [0xd0, a, 0xd0, b, 0xd0, c, 0xd0, d]
}

fn chinese_mark(round: u64) -> [u8; 12] {
    let [a, b, c, d] = digits(round).map(|digit| 0x80 | digit);
    [0xe4, 0xb8, a, 0xe4, 0xb8, b, 0xe4, 0xb8, c, 0xe4, 0xb8, d]
}

fn make_texts(alloc: Global, random: &mut Random, alphabet: Alphabet) -> Result<Texts, AllocError> {
    let mut texts = Texts {
        marked: Marked::new(alloc),
        places: Vec::new(alloc),
    };
    for _ in 0..TEXTS {
        let place = texts.marked.bytes.len();
        for before in 0..random.between(5, 120) {
            alphabet.push_letter(&mut texts.marked.bytes, random, before)?;
        }
        alphabet.push_mark(&mut texts.marked)?;
        let len = texts.marked.bytes.len().saturating_sub(place);
        texts.places.push((place, len))?;
        texts.marked.bytes.push(0)?;
    }
    Ok(texts)
}

// Every second text is read up to its zero.
#[inline(never)]
fn add_texts(bytes: &[u8], places: &[(usize, usize)], digest: &mut Digest) {
    for (i, (place, len)) in places.iter().enumerate() {
        let ctx = if i % 2 == 0 {
            StrCtx::Delimiter(0)
        } else {
            StrCtx::Length(*len)
        };
        match bytes.pread_with::<&str>(*place, ctx) {
            Ok(text) => digest.add_ends(text.as_bytes()),
            Err(error) => digest.add_error(&error),
        }
    }
}

/// Writes the mark of the round at the end of each text, and reads the texts.
pub fn run(alloc: Global, seed: u64, rounds: u64, digest: &mut Digest) -> Result<(), AllocError> {
    let mut random = Random::new(seed ^ 0x9999);
    for alphabet in ALPHABETS {
        let mut texts = make_texts(alloc, &mut random, alphabet)?;
        for round in 0..rounds {
            alphabet.mark(&mut texts.marked, round);
            let bytes = texts.marked.bytes.as_slice();
            add_texts(bytes, texts.places.as_slice(), digest);
        }
    }
    Ok(())
}
