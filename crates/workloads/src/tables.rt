// Tables of abbreviations, read, walked and written back.
use crate::inputs::{Digest, Random, change_all, push_leb128};
use debug_tables::{Attribute, Children, Declaration, TableError, read_table, write_table};
use scroll::LE;
use scroll_layouts::Uleb;
use std::alloc::{AllocError, Global};

const TABLES: u64 = 300;

// The bytes of tables, and the place of the tag of each declaration.
#[derive(Drop)]
struct Section {
    bytes: Vec<u8>,
    tags: Vec<usize>,
}

// Names and forms as compilers write them: mostly of one byte, some names of two, a constant in
// one of twenty.
fn push_attribute(
    bytes: &mut Vec<u8>,
    random: &mut Random,
    padded: bool,
) -> Result<(), AllocError> {
    let kind = random.next() % 20;
    let least = if padded { 3 } else { 1 };
    let name = if kind == 1 {
        random.between(0x2000, 0x3fff)
    } else {
        random.between(1, 0x7f)
    };
    push_leb128(bytes, name, least)?;
    if kind == 0 {
        push_leb128(bytes, 0x21, least)?;
        return push_leb128(bytes, random.between(0, 300), least);
    }
    push_leb128(bytes, random.between(1, 0x1f), least)
}

fn make_section(alloc: Global, random: &mut Random) -> Result<Section, AllocError> {
    let mut bytes = Vec::new(alloc);
    let mut tags = Vec::new(alloc);
    for table in 0..TABLES {
        // (one of fifty has padded numbers)
        let padded = table % 50 == 7;
        let least = if padded { 2 } else { 1 };
        for code in 1..random.between(6, 201) {
            push_leb128(&mut bytes, code, least)?;
            tags.push(bytes.len())?;
            push_leb128(&mut bytes, random.between(1, 0x4b), 1)?;
            bytes.push((random.next() % 2) as u8)?;
            for _ in 0..random.between(1, 12) {
                push_attribute(&mut bytes, random, padded)?;
            }
            push_leb128(&mut bytes, 0, least)?;
            push_leb128(&mut bytes, 0, least)?;
        }
        push_leb128(&mut bytes, 0, least)?;
    }
    Ok(Section { bytes, tags })
}

// Adds a number with the size of its encoding.
fn add_number(digest: &mut Digest, number: &Uleb) {
    digest.add(number.value ^ (number.count as u64) << 56);
}

fn add_attribute(digest: &mut Digest, attribute: &Attribute) {
    add_number(digest, &attribute.name);
    add_number(digest, &attribute.form);
    if let Some(constant) = &attribute.constant {
        digest.add(constant.value.cast_unsigned() ^ (constant.count as u64) << 56);
    }
}

fn add_declaration(digest: &mut Digest, declaration: &Declaration) {
    add_number(digest, &declaration.code);
    add_number(digest, &declaration.tag);
    digest.add(u64::from(matches!(declaration.children, Children::Yes)));
    digest.add(declaration.attributes.bytes.len() as u64);
    let mut attributes = declaration.attributes.values_to_mark();
    for _ in 0..declaration.attributes.bytes.len() {
        let Some(attribute) = attributes.next() else {
            break;
        };
        add_attribute(digest, &attribute);
    }
}

fn add_error(digest: &mut Digest, error: &TableError) {
    match error {
        TableError::Read(error) => digest.add_error(error),
        TableError::BadChildren(byte) => digest.add_as(11, u64::from(*byte)),
    }
}

// Reads the tables, and writes each to a target.
fn copy_tables(alloc: Global, bytes: &[u8], target: &mut [u8], round: u64, digest: &mut Digest) {
    let mut from = 0;
    let mut to = 0;
    for _ in 0..TABLES {
        match read_table(alloc, bytes, &mut from) {
            Ok(table) => {
                for declaration in &table.declarations {
                    add_declaration(digest, declaration);
                }
                digest.add(table.declarations.len() as u64);
                if let Err(error) = write_table(target, &mut to, &table) {
                    digest.add_error(&error);
                }
            }
            Err(error) => add_error(digest, &error),
        }
        digest.add(from as u64 ^ (to as u64) << 32);
    }
    digest.add_written(target, round);
}

/// Changes the tags, and reads and writes the tables. In every fourth round the last one is cut
/// off.
pub fn run(alloc: Global, seed: u64, rounds: u64, digest: &mut Digest) -> Result<(), AllocError> {
    let mut random = Random::new(seed);
    let mut section = make_section(alloc, &mut random)?;
    let mut target = vec![in alloc; 0u8; section.bytes.len()]?;
    for round in 0..rounds {
        let bytes = section.bytes.as_mut_slice();
        change_all(bytes, section.tags.as_slice(), &mut random, 0x3f);
        let cut = if round % 4 == 3 { 1 } else { 0 };
        let len = section.bytes.len().saturating_sub(cut);
        let bytes = section.bytes.get(..len).unwrap_or(b"");
        copy_tables(alloc, bytes, target.as_mut_slice(), round, digest);
    }
    Ok(())
}
