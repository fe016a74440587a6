// An index that git 2.39.5 wrote by `git add .` of three files: `README`, one whose name is `caf`
// and the byte e9, which isn't UTF-8, and `src/a.rs`, which is executable. The values are those
// that `git ls-files --stage --debug` printed.
ghost use Rattle.std.specs.Prelude.{◌<◌};

use crate::{Entry, read_index, write_index};
use scroll::{BE, slice};
use std::alloc::Global;
use std::fmt::Debug;
use std::process::Abort;

static INDEX: [u8; 248] = [
    0x44, 0x49, 0x52, 0x43, 0x00, 0x00, 0x00, 0x02, 0x00, 0x00, 0x00, 0x03, 0x6b, 0x03, 0xea, 0xf9,
    0x2a, 0xd6, 0x97, 0x58, 0x6b, 0x03, 0xea, 0xf9, 0x2a, 0xd6, 0x97, 0x58, 0x00, 0x00, 0xfe, 0x00,
    0x00, 0xaa, 0x86, 0x34, 0x00, 0x00, 0x81, 0xa4, 0x00, 0x00, 0x00, 0x00, 0x00, 0x00, 0x00, 0x00,
    0x00, 0x00, 0x00, 0x06, 0xce, 0x01, 0x36, 0x25, 0x03, 0x0b, 0xa8, 0xdb, 0xa9, 0x06, 0xf7, 0x56,
    0x96, 0x7f, 0x9e, 0x9c, 0xa3, 0x94, 0x46, 0x4a, 0x00, 0x06, 0x52, 0x45, 0x41, 0x44, 0x4d, 0x45,
    0x00, 0x00, 0x00, 0x00, 0x6b, 0x03, 0xea, 0xf9, 0x2b, 0x8d, 0x6b, 0x4f, 0x6b, 0x03, 0xea, 0xf9,
    0x2b, 0x8d, 0x6b, 0x4f, 0x00, 0x00, 0xfe, 0x00, 0x00, 0xaa, 0x86, 0x3a, 0x00, 0x00, 0x81, 0xa4,
    0x00, 0x00, 0x00, 0x00, 0x00, 0x00, 0x00, 0x00, 0x00, 0x00, 0x00, 0x01, 0x8b, 0x13, 0x78, 0x91,
    0x79, 0x1f, 0xe9, 0x69, 0x27, 0xad, 0x78, 0xe6, 0x4b, 0x0a, 0xad, 0x7b, 0xde, 0xd0, 0x8b, 0xdc,
    0x00, 0x04, 0x63, 0x61, 0x66, 0xe9, 0x00, 0x00, 0x00, 0x00, 0x00, 0x00, 0x6b, 0x03, 0xea, 0xf9,
    0x2c, 0x81, 0x8f, 0x4f, 0x6b, 0x03, 0xea, 0xf9, 0x2a, 0xd6, 0x97, 0x58, 0x00, 0x00, 0xfe, 0x00,
    0x00, 0xaa, 0x86, 0x35, 0x00, 0x00, 0x81, 0xed, 0x00, 0x00, 0x00, 0x00, 0x00, 0x00, 0x00, 0x00,
    0x00, 0x00, 0x00, 0x02, 0x78, 0x98, 0x19, 0x22, 0x61, 0x3b, 0x2a, 0xfb, 0x60, 0x25, 0x04, 0x2f,
    0xf6, 0xbd, 0x87, 0x8a, 0xc1, 0x99, 0x4e, 0x85, 0x00, 0x08, 0x73, 0x72, 0x63, 0x2f, 0x61, 0x2e,
    0x72, 0x73, 0x00, 0x00, 0x93, 0x3d, 0xad, 0x47, 0x15, 0x89, 0x6a, 0xda, 0xa9, 0xa9, 0x87, 0x97,
    0x9a, 0x20, 0xed, 0xaa, 0xb9, 0xb5, 0x60, 0xe1,
];

// Checks that a value is printed like this.
fn check_printed<T: Debug + Drop>(rt: &impl Abort, alloc: Global, value: T, wanted: &str) {
    let printed = format!(in alloc; "{value:?}").expect(rt, "memory for the text");
    assert!(rt; printed.as_str() == wanted, "got {printed}");
}

// Returns whether an entry is that of a file with this path, size, mode, first byte and last byte
// of its object's name.
fn is_entry(entry: &Entry, path: &[u8], size: u32, mode: u32, first: u8, last: u8) -> bool {
    entry.path.to_bytes() == path
        && entry.stat.size == size
        && entry.stat.mode == mode
        && entry.stat.id[0] == first
        && entry.stat.id[19] == last
        && entry.stat.modified == 1795418873
        && entry.stat.flags as usize == path.len()
}

#[test]
fn what_git_wrote(rt: HostRuntime) {
    let entries = read_index(rt.alloc(), &INDEX).expect(&rt, "the entries");
    assert!(rt; entries.len() == 3);
    assert!(rt; is_entry(&entries[0], b"README", 6, 0o100644, 0xce, 0x4a));
    assert!(rt; is_entry(&entries[1], b"caf\xe9", 1, 0o100644, 0x8b, 0xdc));
    assert!(rt; is_entry(&entries[2], b"src/a.rs", 2, 0o100755, 0x78, 0x85));
    let readme = entries[0].stat;
    let numbers = [
        readme.modified_nanos,
        readme.device,
        readme.inode,
        readme.user,
        readme.group,
    ];
    assert!(rt; numbers == [718706520, 65024, 11175476, 0, 0]);
}

// Checks the error of reading an index.
fn check_refused(rt: &impl Abort, alloc: Global, file: &[u8], wanted: &str) {
    check_printed(rt, alloc, read_index(alloc, file), wanted);
}

// Returns the file with another byte at an offset.
fn with(offset: usize, byte: u8) -> [u8; 248]
    requires { offset < 248 }
{
    let mut file = INDEX;
    file[offset] = byte;
    file
}

#[test]
fn what_is_refused(rt: HostRuntime) {
    let alloc = rt.alloc();
    check_refused(
        &rt,
        alloc,
        &INDEX[..11],
        "Err(Short(TooBig { size: 12, len: 11 }))",
    );
    check_refused(&rt, alloc, &with(3, 0x44), "Err(BadSignature(1145655876))");
    check_refused(&rt, alloc, &with(7, 3), "Err(BadVersion(3))");
    check_refused(
        &rt,
        alloc,
        &INDEX[..100],
        "Err(Refused(At { offset: 84, error: TooBig { size: 62, len: 16 } }))",
    );
    // the first of the zeros after the one that ends `README`
    check_refused(
        &rt,
        alloc,
        &with(81, 1),
        r#"Err(Refused(At { offset: 12, error: BadInput { size: 0, msg: "padding is not zero" } }))"#,
    );
    // the header says four entries, and there are three
    check_refused(
        &rt,
        alloc,
        &with(11, 4),
        "Err(Refused(At { offset: 228, error: TooBig { size: 62, len: 20 } }))",
    );
}

#[test]
fn what_is_written(rt: HostRuntime) {
    let alloc = rt.alloc();
    let entries = read_index(alloc, &INDEX).expect(&rt, "the entries");
    let mut out = INDEX;
    out[..228].fill(0);
    check_printed(&rt, alloc, write_index(&mut out, &entries), "Ok(228)");
    assert!(rt; out == INDEX);
    let short = write_index(&mut [0; 83], &entries);
    check_printed(
        &rt,
        alloc,
        short,
        "Err(Short(TooBig { size: 228, len: 83 }))",
    );
}

// An index of many entries, whose header says each of these numbers of them in turn. An allocation
// failure ends the test.
fn check_counts(rt: &impl Abort, alloc: Global, from: u32, to: u32) {
    let read = read_index(alloc, &INDEX).expect(rt, "the entries");
    let entries = vec![in alloc; *read.get(0).expect(rt, "an entry"); 5000].expect(rt, "more");
    let mut out = vec![in alloc; 0u8; 360_012].expect(rt, "room");
    let written = write_index(out.as_mut_slice(), &entries);
    check_printed(rt, alloc, written, "Ok(360012)");
    for count in from..to {
        check_count(rt, alloc, out.as_mut_slice(), count);
    }
    check_count(rt, alloc, out.as_mut_slice(), 5000);
}

#[test]
fn indexes_of_few_entries(rt: HostRuntime) {
    check_counts(&rt, rt.alloc(), 0, 551);
}

#[test]
fn indexes_of_some_entries(rt: HostRuntime) {
    check_counts(&rt, rt.alloc(), 551, 779);
}

#[test]
fn indexes_of_more_entries(rt: HostRuntime) {
    check_counts(&rt, rt.alloc(), 779, 954);
}

#[test]
fn indexes_of_many_entries(rt: HostRuntime) {
    check_counts(&rt, rt.alloc(), 954, 1101);
}

// Checks that so many entries are read of an index whose header says so.
fn check_count(rt: &impl Abort, alloc: Global, index: &mut [u8], count: u32) {
    let header = index.first_chunk_mut::<12>().expect(rt, "a header");
    slice::cwrite_with(header, count, 8, BE);
    let entries = read_index(alloc, index).expect(rt, "the entries");
    assert!(rt; entries.len() == count as usize);
}
