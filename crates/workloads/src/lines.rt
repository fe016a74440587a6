// Line number programs, and runs of numbers in LEB128.
use crate::inputs::{Digest, Random, change_all, low8, low32, push_leb128, push_number};
use scroll::{LE, Pread, Result, Sleb128, Uleb128};
use std::alloc::{AllocError, Global};

// The first special opcode, as compilers choose it.
const SPECIAL: u64 = 13;

// The bytes of units, and the places of operands of a fixed size.
#[derive(Drop)]
struct Units {
    bytes: Vec<u8>,
    places: Vec<usize>,
}

// One instruction: a special opcode in six of ten, and else one with operands.
fn push_instruction(units: &mut Units, random: &mut Random) -> std::result::Result<(), AllocError> {
    let bytes = &mut units.bytes;
    let opcode = match random.next() % 20 {
        0..=11 => random.between(SPECIAL, 255),
        12 | 13 => 2,
        14 | 15 => 3,
        16 => 5,
        17 => 6,
        18 => 9,
        _ => 0,
    };
    bytes.push(low8(opcode))?;
    match opcode {
        2 | 5 => push_leb128(bytes, random.between(0, 400), 1),
        // (a small number, mostly negative in one of four)
        3 => Ok(bytes.push(low8(random.between(0, 0x7f)))?),
        9 => {
            units.places.push(bytes.len())?;
            push_number(bytes, random.next(), 2)
        }
        0 => {
            bytes.push(9)?;
            bytes.push(2)?;
            units.places.push(bytes.len())?;
            push_number(bytes, random.next(), 8)
        }
        _ => Ok(()),
    }
}

// A unit: its length, its header, and its program.
fn push_unit(units: &mut Units, random: &mut Random) -> std::result::Result<(), AllocError> {
    let start = units.bytes.len();
    push_number(&mut units.bytes, 0, 4)?;
    push_number(&mut units.bytes, 5, 4)?;
    push_number(&mut units.bytes, 12, 4)?;
    push_number(&mut units.bytes, random.next(), 8)?;
    push_number(&mut units.bytes, random.next(), 4)?;
    for _ in 0..random.between(200, 4000) {
        push_instruction(units, random)?;
    }
    let len = units.bytes.len().saturating_sub(start).saturating_sub(4);
    if let Some(unit) = units.bytes.as_mut_slice().get_mut(start..) {
        for (byte, new) in unit.iter_mut().zip(low32(len as u64).to_le_bytes()) {
            *byte = new;
        }
    }
    Ok(())
}

fn make_units(alloc: Global, random: &mut Random) -> std::result::Result<Units, AllocError> {
    let mut units = Units {
        bytes: Vec::new(alloc),
        places: Vec::new(alloc),
    };
    for _ in 0..150 {
        push_unit(&mut units, random)?;
    }
    // The last unit is cut off.
    let len = units.bytes.len().saturating_sub(9);
    units.bytes.truncate(len);
    Ok(units)
}

// Returns the program of the unit at the cursor (DWARF 5, section 6.2.4), and the length of its
// header.
fn read_program<'a>(bytes: &'a [u8], offset: &mut usize) -> Result<(&'a [u8], u32)> {
    let len: u32 = bytes.gread_with(offset, LE)?;
    let unit: &[u8] = bytes.gread_with(offset, len as usize)?;
    let header: u32 = unit.pread_with(4, LE)?;
    let at = &mut 8;
    let _header: &[u8] = unit.gread_with(at, header as usize)?;
    let program: &[u8] = unit.gread_with(at, unit.len().saturating_sub(*at))?;
    Ok((program, header))
}

// The operand of an extended opcode.
fn read_extended(program: &[u8], offset: &mut usize) -> Result<u64> {
    let len: Uleb128 = program.gread_with(offset, ())?;
    let opcode: u8 = program.gread_with(offset, LE)?;
    if opcode == 2 {
        let address: u64 = program.gread_with(offset, LE)?;
        return Ok(address);
    }
    let rest = (u64::from(len) as usize).saturating_sub(1);
    let other: &[u8] = program.gread_with(offset, rest)?;
    Ok(other.len() as u64)
}

// The operand of the instruction at the cursor.
fn read_operand(program: &[u8], offset: &mut usize) -> Result<u64> {
    let opcode: u8 = program.gread_with(offset, LE)?;
    let operand = match opcode {
        0 => read_extended(program, offset)?,
        2 | 4 | 5 | 12 => u64::from(program.gread_with::<Uleb128>(offset, ())?),
        3 => i64::from(program.gread_with::<Sleb128>(offset, ())?).cast_unsigned(),
        9 => u64::from(program.gread_with::<u16>(offset, LE)?),
        1 | 6 | 7 | 8 | 10 | 11 => 0,
        _ => u64::from(opcode),
    };
    Ok(operand)
}

// Adds each operand, and where its instruction ends.
fn add_operands(program: &[u8], digest: &mut Digest) {
    let mut at = 0;
    for _ in 0..program.len() {
        if at >= program.len() {
            return;
        }
        match read_operand(program, &mut at) {
            Ok(operand) => digest.add(operand ^ (at as u64) << 40),
            Err(error) => return digest.add_error(&error),
        }
    }
}

fn run_programs(bytes: &[u8], digest: &mut Digest) {
    let mut offset = 0;
    for _ in 0..bytes.len() {
        match read_program(bytes, &mut offset) {
            Ok((program, header)) => {
                digest.add(offset as u64 ^ u64::from(header) << 32);
                add_operands(program, digest);
            }
            Err(error) => return digest.add_error(&error),
        }
    }
}

// A run of numbers, and the places of some that have one byte.
#[derive(Drop)]
struct Numbers {
    bytes: Vec<u8>,
    places: Vec<usize>,
}

// Numbers as files have them: seven of ten in one byte, two in two, the others in up to ten; some
// are padded.
fn push_leb_number(
    numbers: &mut Numbers,
    random: &mut Random,
) -> std::result::Result<(), AllocError> {
    let bytes = &mut numbers.bytes;
    match random.next() % 40 {
        0 => {
            numbers.places.push(bytes.len())?;
            push_leb128(bytes, random.between(0, 0x7f), 1)
        }
        1..=27 => push_leb128(bytes, random.between(0, 0x7f), 1),
        28..=35 => push_leb128(bytes, random.between(0x80, 0x3fff), 1),
        36 => push_leb128(bytes, random.next() % 100, 4),
        37 => push_leb128(bytes, random.next() % 2, 10),
        _ => {
            let shift = random.between(0, 40);
            push_leb128(bytes, (random.next() << 31) >> (shift & 63), 1)
        }
    }
}

fn make_numbers(alloc: Global, random: &mut Random) -> std::result::Result<Numbers, AllocError> {
    let mut numbers = Numbers {
        bytes: Vec::new(alloc),
        places: Vec::new(alloc),
    };
    for _ in 0..400_000 {
        push_leb_number(&mut numbers, random)?;
    }
    // The last number is cut off.
    numbers.bytes.push(0x80)?;
    Ok(numbers)
}

fn add_unsigned(bytes: &[u8], digest: &mut Digest) {
    let mut offset = 0;
    for _ in 0..bytes.len() {
        match bytes.gread_with::<Uleb128>(&mut offset, ()) {
            Ok(number) => digest.add_unsigned(number),
            Err(error) => return digest.add_error(&error),
        }
    }
}

fn add_signed(bytes: &[u8], digest: &mut Digest) {
    let mut offset = 0;
    for _ in 0..bytes.len() {
        match bytes.gread_with::<Sleb128>(&mut offset, ()) {
            Ok(number) => digest.add_signed(number),
            Err(error) => return digest.add_error(&error),
        }
    }
}

/// Changes the bytes, and reads the programs and the numbers.
pub fn run(
    alloc: Global,
    seed: u64,
    rounds: u64,
    digest: &mut Digest,
) -> std::result::Result<(), AllocError> {
    let mut random = Random::new(seed ^ 0x5555);
    let mut units = make_units(alloc, &mut random)?;
    let mut numbers = make_numbers(alloc, &mut random)?;
    for round in 0..rounds {
        change_all(
            units.bytes.as_mut_slice(),
            units.places.as_slice(),
            &mut random,
            0xff,
        );
        run_programs(units.bytes.as_slice(), digest);
        change_all(
            numbers.bytes.as_mut_slice(),
            numbers.places.as_slice(),
            &mut random,
            0x7f,
        );
        if round & 1 == 0 {
            add_unsigned(numbers.bytes.as_slice(), digest);
        } else {
            add_signed(numbers.bytes.as_slice(), digest);
        }
    }
    Ok(())
}
