// All sections of an ELF file in one call.
ghost use Rattle.std.specs.Prelude.{◌≡◌, ◌≤◌, ◌<◌, ◌<ℤ◌, ◌⊎◌, drop, pos, length, IfOk, IfErr, OnOk, OnErr};
ghost use Rattle.scroll_ffi.specs.Interface.{AreAll, IsOpened};
ghost use Rattle.scroll_ffi.specs.Refusals.{RefusesAll, LacksRoom};

use crate::elf::{ScrollElfSection, ScrollElfSections, next, open};
use crate::elf_fill::fill;
use crate::{SCROLL_BAD_INPUT, SCROLL_NO_MEMORY, SCROLL_NO_ROOM, ScrollError, fault};
use std::alloc::Global;

const BLANK: ScrollElfSection = ScrollElfSection {
    name_offset: 0,
    name_len: 0,
    name: 0,
    kind: 0,
    flags: 0,
    address: 0,
    offset: 0,
    size: 0,
    link: 0,
    info: 0,
    alignment: 0,
    entry_size: 0,
};

/// Reads all sections of an ELF file, with their names, into `sections`, and stores in `count` how
/// many there are. It allocates memory for them, and frees it, so that `sections` is unchanged if
/// an error occurs, and `count` too, but for `SCROLL_NO_ROOM`. Returns 0; or an error,
/// `SCROLL_NO_MEMORY` if the memory is refused and `SCROLL_NO_ROOM`, with the count, if `sections` is
/// shorter than the table.
#[unsafe(no_mangle)]
pub extern "C" fn scroll_elf_table(
    alloc: Global,
    file: &[u8],
    sections: &mut [ScrollElfSection],
    count: &mut usize,
    error: &mut ScrollError,
) -> i32
    ensures answer { (result ≡ pos 0) ⊎ (result <ℤ pos 0) }
    ensures all { result ≡ pos 0 → AreAll file.now count.new sections.new }
    ensures room { result ≡ pos 0 → count.new ≤ length sections.old }
    ensures rest { result ≡ pos 0 → drop count.new sections.new ≡ drop count.new sections.old }
    ensures refused { result <ℤ pos 0
        → (RefusesAll file.now error.new × (count.new ≡ count.old))
        ⊎ LacksRoom file.now (length sections.old) count.new error.new }
    ensures code { result <ℤ pos 0 → result ≡ error.new.code }
    ensures stays { result <ℤ pos 0 → sections.new ≡ sections.old }
    ensures no_error { result ≡ pos 0 → error.new ≡ error.old }
{
    let made = match read_all(alloc, file) {
        Ok(made) => made,
        Err(why) => {
            *error = why;
            return why.code;
        }
    };
    let found = made.len();
    *count = found;
    if found > sections.len() {
        *error = fault(SCROLL_NO_ROOM, 0, found as u64);
        return SCROLL_NO_ROOM;
    }
    sections[..found].copy_from_slice(made.as_slice());
    0
}

// Reads all sections.
fn read_all(alloc: Global, file: &[u8]) -> Result<Vec<ScrollElfSection>, ScrollError>
    ensures all { IfOk result (λ made. AreAll file.now (length made.items) made.items) }
    ensures refused { IfErr result (RefusesAll file.now) }
    ensures error { IfErr result (λ e. e.code <ℤ pos 0) }
{
    let mut left = open(file)?;
    let count = left.left as usize;
    let mut made = Vec::new(alloc);
    if made.resize(count, BLANK).is_err() {
        return Err(fault(SCROLL_NO_MEMORY, left.next, 0));
    }
    let filled = fill(file, &mut left, made.as_mut_slice())?;
    if filled < count {
        let mut section = BLANK;
        next(file, &mut left, &mut section)?;
        return Err(fault(SCROLL_BAD_INPUT, left.next, 0));
    }
    Ok(made)
}
