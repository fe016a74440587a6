// The sections and the symbols of object files, with their names.
use crate::inputs::{Digest, Random, change_all, number_end, push_letters};
use object_files::{
    ElfError, Header, SYMBOLS, Section, Sections, Symbol, name_table, read_sections, section_bytes,
    section_name, symbol_name,
};
use scroll::cstr::CStr;
use scroll::{Endian, Pread};
use scroll_formats::Table;
use std::alloc::{AllocError, Global};

const HEADER: usize = 64;

const SECTION: usize = 64;

const SYMBOL: usize = 24;

// What a file is made of: its byte order, and how many sections and symbols it has.
#[derive(Clone, Copy)]
struct Plan {
    big: bool,
    sections: usize,
    symbols: usize,
}

// A table of names, with the place of each name and of its last letter. The last name has no zero.
#[derive(Drop)]
struct Names {
    bytes: Vec<u8>,
    starts: Vec<u64>,
    letters: Vec<usize>,
    last: u64,
}

// A file, with the places of numbers of some sections and symbols, and that of the names, which are
// last.
#[derive(Drop)]
struct Object {
    bytes: Vec<u8>,
    numbers: Vec<usize>,
    names: usize,
}

// Appends a number of `size` bytes in the order of a file.
fn push_ordered(
    bytes: &mut Vec<u8>,
    number: u64,
    size: usize,
    big: bool,
) -> Result<(), AllocError> {
    for i in 0..size.min(8) {
        let place = if big { size.min(8) - 1 - i } else { i };
        bytes.push((number >> (8 * place as u32) & 0xff) as u8)?;
    }
    Ok(())
}

fn push_header(bytes: &mut Vec<u8>, plan: Plan) -> Result<(), AllocError> {
    let big = plan.big;
    let order = if big { 2 } else { 1 };
    bytes.extend_from_slice(&[
        0x7f, b'E', b'L', b'F', 2, order, 1, 0, 0, 0, 0, 0, 0, 0, 0, 0,
    ])?;
    for (number, size) in [
        (1, 2),
        (62, 2),
        (1, 4),
        (0, 8),
        (0, 8),
        (HEADER as u64, 8),
        (0, 4),
        (64, 2),
        (0, 2),
        (0, 2),
        (SECTION as u64, 2),
        (plan.sections as u64, 2),
        (1, 2),
    ] {
        push_ordered(bytes, number, size, big)?;
    }
    Ok(())
}

fn push_section(object: &mut Object, fields: [u64; 5], big: bool) -> Result<(), AllocError> {
    let [name, kind, offset, size, link] = fields;
    // (the address of one of eight is changed)
    if name % 8 == 0 {
        object.numbers.push(object.bytes.len().saturating_add(18))?;
    }
    for (number, size) in [
        (name, 4),
        (kind, 4),
        (0, 8),
        (0, 8),
        (offset, 8),
        (size, 8),
        (link, 4),
        (0, 4),
        (1, 8),
        (0, 8),
    ] {
        push_ordered(&mut object.bytes, number, size, big)?;
    }
    Ok(())
}

fn push_symbol(
    object: &mut Object,
    name: u64,
    random: &mut Random,
    big: bool,
) -> Result<(), AllocError> {
    // (the size of one of eight is changed)
    if name % 8 == 0 {
        object.numbers.push(object.bytes.len().saturating_add(18))?;
    }
    let bytes = &mut object.bytes;
    push_ordered(bytes, name, 4, big)?;
    push_ordered(bytes, random.next() & 0x1203, 2, big)?;
    push_ordered(bytes, random.next() % 40, 2, big)?;
    push_ordered(bytes, random.next() << 4, 8, big)?;
    push_ordered(bytes, random.next() % 5000, 8, big)
}

// Names as compilers make them: most of 5 to 40 letters, some of up to 150, and one of a thousand
// of thousands.
fn make_names(alloc: Global, random: &mut Random, count: usize) -> Result<Names, AllocError> {
    let mut names = Names {
        bytes: Vec::new(alloc),
        starts: Vec::new(alloc),
        letters: Vec::new(alloc),
        last: 0,
    };
    names.bytes.push(0)?;
    for _ in 0..count {
        names.starts.push(names.bytes.len() as u64)?;
        let len = match random.next() % 1000 {
            0 => random.between(2000, 5000),
            1..=300 => random.between(41, 150),
            _ => random.between(5, 40),
        };
        push_letters(&mut names.bytes, random, len)?;
        names.letters.push(names.bytes.len().saturating_sub(1))?;
        names.bytes.push(0)?;
    }
    names.last = names.bytes.len() as u64;
    push_letters(&mut names.bytes, random, 20)?;
    Ok(names)
}

// A name: one of ten is the end of another.
fn choose_name(places: &[u64], random: &mut Random) -> u64 {
    let index = random.next() as usize % places.len().max(1);
    let shift = if random.next() % 10 == 0 {
        random.between(1, 4)
    } else {
        0
    };
    places
        .get(index)
        .copied()
        .unwrap_or(0)
        .saturating_add(shift)
}

// No section, that of the names, that of the symbols, and others, of which only the entries are
// read.
fn push_sections(
    object: &mut Object,
    names: &Names,
    random: &mut Random,
    plan: Plan,
) -> Result<(), AllocError> {
    let table = (HEADER + SECTION * plan.sections.min(0xffff)) as u64;
    let symbols = (SYMBOL * plan.symbols.min(0xff_ffff)) as u64;
    push_section(object, [0, 0, 0, 0, 0], plan.big)?;
    let strings = [1, 3, table + symbols, names.bytes.len() as u64, 0];
    push_section(object, strings, plan.big)?;
    push_section(object, [1, 2, table, symbols, 1], plan.big)?;
    for _ in 3..plan.sections {
        let name = choose_name(names.starts.as_slice(), random);
        let fields = [name, 1, random.next(), random.next(), 0];
        push_section(object, fields, plan.big)?;
    }
    Ok(())
}

fn make_object(
    alloc: Global,
    names: &Names,
    random: &mut Random,
    plan: Plan,
) -> Result<Object, AllocError> {
    let mut object = Object {
        bytes: Vec::new(alloc),
        numbers: Vec::new(alloc),
        names: 0,
    };
    push_header(&mut object.bytes, plan)?;
    push_sections(&mut object, names, random, plan)?;
    for _ in 1..plan.symbols {
        let name = choose_name(names.starts.as_slice(), random);
        push_symbol(&mut object, name, random, plan.big)?;
    }
    push_symbol(&mut object, names.last, random, plan.big)?;
    object.names = object.bytes.len();
    object.bytes.extend_from_slice(names.bytes.as_slice())?;
    Ok(object)
}

fn add_error(digest: &mut Digest, error: &ElfError) {
    match error {
        ElfError::BadMagic(magic) => digest.add_as(11, u64::from(*magic)),
        ElfError::BadClass(class) => digest.add_as(12, u64::from(*class)),
        ElfError::BadOrder(order) => digest.add_as(13, u64::from(*order)),
        ElfError::BadEntrySize(size) => digest.add_as(14, u64::from(*size)),
        ElfError::BadNames(index) => digest.add_as(16, u64::from(*index)),
        ElfError::Refused(error) => digest.add_error(error),
        _ => digest.add_as(15, 0),
    }
}

// Adds a name, or the error in its place.
fn add_name(digest: &mut Digest, name: Result<CStr, ElfError>) {
    match name {
        Ok(name) => digest.add_ends(name.to_bytes()),
        Err(error) => add_error(digest, &error),
    }
}

fn add_header(digest: &mut Digest, header: &Header) {
    digest.add(u64::from(matches!(header.order, Endian::Big)) ^ u64::from(header.system) << 8);
    digest.add(u64::from(header.kind) ^ u64::from(header.machine) << 32);
    digest.add(u64::from(header.version) ^ u64::from(header.flags) << 32);
    digest.add(header.entry);
    digest.add(header.segments_offset);
    digest.add(header.sections_offset);
    digest.add(u64::from(header.header_size) ^ u64::from(header.names_index) << 32);
    digest.add(u64::from(header.segment_size) ^ u64::from(header.segment_count) << 32);
    digest.add(u64::from(header.section_size) ^ u64::from(header.section_count) << 32);
}

fn add_section(digest: &mut Digest, section: &Section) {
    digest.add(u64::from(section.name) ^ u64::from(section.kind) << 32);
    digest.add(section.flags ^ section.alignment << 32 ^ section.entry_size << 48);
    digest.add(section.address ^ u64::from(section.info) << 32);
    digest.add(section.offset ^ section.size << 32);
    digest.add(u64::from(section.link));
}

// The symbols of a section, with their names.
fn add_symbols(
    file: &[u8],
    header: &Header,
    sections: &Sections,
    section: &Section,
    digest: &mut Digest,
) -> Result<(), ElfError> {
    let Some(linked) = sections.get(section.link as usize) else {
        digest.add_as(17, u64::from(section.link));
        return Ok(());
    };
    let names = section_bytes(file, &linked)?;
    let symbols: Table<Symbol> = Table::new(section_bytes(file, section)?, header.order);
    for symbol in symbols.elements() {
        digest.add(symbol.value ^ u64::from(symbol.name) << 32);
        digest.add(symbol.size);
        digest.add(
            u64::from(symbol.info) ^ u64::from(symbol.other) << 8 ^ u64::from(symbol.section) << 16,
        );
        add_name(digest, symbol_name(names, &symbol));
    }
    Ok(())
}

// All sections. An error in one of them ends no walk.
fn add_object(file: &[u8], digest: &mut Digest) -> Result<(), ElfError> {
    let header: Header = file.pread_with(0, ())?;
    add_header(digest, &header);
    let sections = read_sections(file, &header)?;
    let names = name_table(file, &header, &sections)?;
    digest.add(sections.len() as u64);
    for i in 0..sections.len() {
        let Some(section) = sections.get(i) else {
            break;
        };
        add_section(digest, &section);
        add_name(digest, section_name(names, &section));
        if section.kind == SYMBOLS
            && let Err(error) = add_symbols(file, &header, &sections, &section, digest)
        {
            add_error(digest, &error);
        }
    }
    Ok(())
}

// Changes the last letter of each name, and numbers of sections and symbols. The last symbol ends
// in the number of the round, since the read of a symbol is given those behind it too.
fn change_object(object: &mut Object, letters: &[usize], round: u64, random: &mut Random) {
    let bytes = object.bytes.as_mut_slice();
    let Some((symbols, names)) = bytes.split_at_mut_checked(object.names) else {
        return;
    };
    change_all(symbols, object.numbers.as_slice(), random, 0xff);
    number_end(symbols, round);
    change_all(names, letters, random, 0x0f);
}

/// Changes the files, and reads their sections and symbols.
pub fn run(alloc: Global, seed: u64, rounds: u64, digest: &mut Digest) -> Result<(), AllocError> {
    let mut random = Random::new(seed);
    for big in [false, true] {
        let plan = Plan {
            big,
            sections: 5000,
            symbols: 60_000,
        };
        let names = make_names(alloc, &mut random, plan.symbols / 2)?;
        let mut object = make_object(alloc, &names, &mut random, plan)?;
        for round in 0..rounds {
            change_object(&mut object, names.letters.as_slice(), round, &mut random);
            if let Err(error) = add_object(object.bytes.as_slice(), digest) {
                add_error(digest, &error);
            }
        }
    }
    Ok(())
}
