// Symbols whose names stand in their order, as a linker leaves them.
use crate::inputs::{Digest, Random, change_all, low16, low32, number_end};
use crate::own::marks::{Marked, ascii_mark};
use object_files::{ElfError, Symbol, symbol_name};
use scroll::LE;
use scroll_formats::Table;
use std::alloc::{AllocError, Global};

const SYMBOLS: usize = 6000;

// What the names are those of: half of C's are below 16 bytes, and half of the others, which say a
// function's types, above 57, and one of twenty above 159.
#[derive(Clone, Copy)]
enum Language {
    Plain,
    Mangled,
}

// A table of symbols, with the place of a number of each, and their names.
#[derive(Drop)]
struct Symbols {
    table: Vec<u8>,
    numbers: Vec<usize>,
    names: Marked,
}

impl Language {
    fn choose_len(self, random: &mut Random) -> u64 {
        match self {
            Language::Plain => match random.next() % 2 {
                0 => random.between(4, 15),
                _ => random.between(16, 40),
            },
            Language::Mangled => match random.next() % 20 {
                0 => random.between(160, 400),
                1..=9 => random.between(58, 159),
                _ => random.between(8, 57),
            },
        }
    }
}

fn make_symbols(
    alloc: Global,
    random: &mut Random,
    language: Language,
) -> Result<Symbols, AllocError> {
    let mut symbols = Symbols {
        table: Vec::new(alloc),
        numbers: Vec::new(alloc),
        names: Marked::new(alloc),
    };
    symbols.names.bytes.push(0)?;
    for _ in 0..SYMBOLS {
        let name = low32(symbols.names.bytes.len() as u64);
        let len = language.choose_len(random);
        symbols.names.push_text(random, len)?;
        symbols.names.bytes.push(0)?;
        let table = &mut symbols.table;
        table.extend_from_slice(&name.to_le_bytes())?;
        table.extend_from_slice(&low16(random.next() & 0x0312).to_le_bytes())?;
        table.extend_from_slice(&low16(random.next() % 30).to_le_bytes())?;
        symbols.numbers.push(table.len())?;
        table.extend_from_slice(&(random.next() << 4).to_le_bytes())?;
        table.extend_from_slice(&(random.next() % 5000).to_le_bytes())?;
    }
    Ok(symbols)
}

fn add_error(digest: &mut Digest, error: &ElfError) {
    match error {
        ElfError::Refused(error) => digest.add_error(error),
        _ => digest.add_as(11, 0),
    }
}

#[inline(never)]
fn add_symbols(table: &[u8], names: &[u8], digest: &mut Digest) {
    let symbols: Table<Symbol> = Table::new(table, LE);
    for symbol in symbols.elements() {
        digest.add(symbol.value ^ u64::from(symbol.name) << 32);
        digest.add(symbol.size ^ u64::from(symbol.section) << 48);
        digest.add(u64::from(symbol.info) ^ u64::from(symbol.other) << 8);
        match symbol_name(names, &symbol) {
            Ok(name) => digest.add_ends(name.to_bytes()),
            Err(error) => add_error(digest, &error),
        }
    }
}

/// Changes a number of each symbol, and the end of its name, and reads both. The last symbol ends
/// in the number of the round, since the read of a symbol is given those behind it too.
pub fn run(alloc: Global, seed: u64, rounds: u64, digest: &mut Digest) -> Result<(), AllocError> {
    let mut random = Random::new(seed ^ 0x8888);
    for language in [Language::Plain, Language::Mangled] {
        let mut symbols = make_symbols(alloc, &mut random, language)?;
        for round in 0..rounds {
            let table = symbols.table.as_mut_slice();
            change_all(table, symbols.numbers.as_slice(), &mut random, 0xff);
            number_end(table, round);
            symbols.names.mark(ascii_mark(round));
            let names = symbols.names.bytes.as_slice();
            add_symbols(symbols.table.as_slice(), names, digest);
        }
    }
    Ok(())
}
