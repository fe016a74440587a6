// Functions of one's own that aren't inlined: each reads or writes one value, and two others call
// them one after another.
use crate::inputs::{Digest, Random, change_all, push_leb128, push_letters, push_number};
use crate::own::types::Slot;
use scroll::ctx::StrCtx;
use scroll::{BE, LE, Pread, Result, Uleb128, slice};
use std::alloc::{AllocError, Global};
use std::result;

const ITEMS: u64 = 6000;

// A number, one in LEB128, a record and a text, as they follow one another.
#[derive(Drop)]
struct Item<'a> {
    number: u32,
    index: Uleb128,
    slot: Slot,
    name: &'a str,
}

// The bytes of items, and the places of a byte of each number and of each record.
#[derive(Drop)]
struct Items {
    bytes: Vec<u8>,
    places: Vec<usize>,
}

#[inline(never)]
fn read_number(source: &[u8], offset: &mut usize) -> Result<u32> {
    let number = source.gread_with(offset, LE)?;
    Ok(number)
}

#[inline(never)]
fn read_index(source: &[u8], offset: &mut usize) -> Result<Uleb128> {
    let index = source.gread_with(offset, ())?;
    Ok(index)
}

#[inline(never)]
fn read_slot(source: &[u8], offset: &mut usize) -> Result<Slot> {
    let slot = source.gread_with(offset, BE)?;
    Ok(slot)
}

#[inline(never)]
fn read_name<'a>(source: &'a [u8], offset: &mut usize) -> Result<&'a str> {
    let name = source.gread_with(offset, StrCtx::Required(0))?;
    Ok(name)
}

#[inline(never)]
fn read_item<'a>(source: &'a [u8], offset: &mut usize) -> Result<Item<'a>> {
    let number = read_number(source, offset)?;
    let index = read_index(source, offset)?;
    let slot = read_slot(source, offset)?;
    let name = read_name(source, offset)?;
    Ok(Item {
        number,
        index,
        slot,
        name,
    })
}

#[inline(never)]
fn write_number(target: &mut [u8], offset: &mut usize, number: u32) -> Result<()> {
    slice::gwrite_with(target, number, offset, BE)?;
    Ok(())
}

#[inline(never)]
fn write_index(target: &mut [u8], offset: &mut usize, index: Uleb128) -> Result<()> {
    slice::gwrite_with(target, index, offset, ())?;
    Ok(())
}

#[inline(never)]
fn write_slot(target: &mut [u8], offset: &mut usize, slot: Slot) -> Result<()> {
    slice::gwrite_with(target, slot, offset, LE)?;
    Ok(())
}

#[inline(never)]
fn write_name(target: &mut [u8], offset: &mut usize, name: &str) -> Result<()> {
    slice::gwrite_with(target, name, offset, ())?;
    slice::gwrite_with(target, 0u8, offset, LE)?;
    Ok(())
}

#[inline(never)]
fn write_item(target: &mut [u8], offset: &mut usize, item: &Item) -> Result<()> {
    write_number(target, offset, item.number)?;
    write_index(target, offset, item.index)?;
    write_slot(target, offset, item.slot)?;
    write_name(target, offset, item.name)?;
    Ok(())
}

// Numbers in LEB128 are mostly of one or two bytes.
fn push_item(items: &mut Items, random: &mut Random) -> result::Result<(), AllocError> {
    let bytes = &mut items.bytes;
    items.places.push(bytes.len())?;
    push_number(bytes, random.next(), 4)?;
    let shift = random.between(16, 31);
    push_leb128(bytes, random.next() >> (shift & 31), 1)?;
    items.places.push(bytes.len())?;
    push_number(bytes, random.next(), 4)?;
    push_number(bytes, random.next() << 32 ^ random.next(), 8)?;
    let letters = random.between(0, 40);
    push_letters(bytes, random, letters)?;
    Ok(bytes.push(0)?)
}

fn add_item(digest: &mut Digest, item: &Item) {
    digest.add(u64::from(item.number));
    digest.add_unsigned(item.index);
    digest.add(u64::from(item.slot.key) ^ u64::from(item.slot.flags) << 32);
    digest.add(item.slot.value);
    digest.add_ends(item.name.as_bytes());
}

// Reads the items, and writes each.
fn copy_items(source: &[u8], target: &mut [u8], round: u64, digest: &mut Digest) {
    let mut from = 0;
    let mut to = 0;
    for _ in 0..source.len() {
        match read_item(source, &mut from) {
            Ok(item) => {
                add_item(digest, &item);
                if let Err(error) = write_item(target, &mut to, &item) {
                    digest.add_error(&error);
                }
            }
            Err(error) => {
                digest.add_error(&error);
                break;
            }
        }
    }
    digest.add(from as u64 ^ (to as u64) << 32);
    digest.add_written(target, round);
}

/// Changes the bytes, and reads and writes the items. The last one is cut off, at another place in
/// each round, and the target too.
#[inline(never)]
pub fn run(
    alloc: Global,
    seed: u64,
    rounds: u64,
    digest: &mut Digest,
) -> result::Result<(), AllocError> {
    let mut random = Random::new(seed ^ 0x1111);
    let mut items = Items {
        bytes: Vec::new(alloc),
        places: Vec::new(alloc),
    };
    for _ in 0..ITEMS {
        push_item(&mut items, &mut random)?;
    }
    let mut target = vec![in alloc; 0u8; items.bytes.len()]?;
    for round in 0..rounds {
        let places = items.places.as_slice();
        change_all(items.bytes.as_mut_slice(), places, &mut random, 0xff);
        let len = items.bytes.len().saturating_sub(1 + (round % 17) as usize);
        let source = items.bytes.get(..len).unwrap_or(b"");
        let room = len.saturating_sub((round % 61) as usize);
        if let Some(target) = target.as_mut_slice().get_mut(..room) {
            copy_items(source, target, round, digest);
        }
    }
    Ok(())
}
