// A picture of a red pixel and a blue one, with zlib's checksums, from Python:
//
//     def chunk(kind, data): return struct.pack(">I", len(data)) + kind + data + struct.pack(">I", zlib.crc32(kind + data))
//     chunk(b"IHDR", struct.pack(">IIBBBBB", 2, 1, 8, 2, 0, 0, 0))
//     chunk(b"IDAT", zlib.compress(b"\0\xff\0\0\0\0\xff", 9)) + chunk(b"IEND", b"")
use super::*;
use std::alloc::Global;
use std::process::Abort;

static PICTURE: [u8; 70] = [
    0x89, 0x50, 0x4e, 0x47, 0x0d, 0x0a, 0x1a, 0x0a, 0x00, 0x00, 0x00, 0x0d, 0x49, 0x48, 0x44, 0x52,
    0x00, 0x00, 0x00, 0x02, 0x00, 0x00, 0x00, 0x01, 0x08, 0x02, 0x00, 0x00, 0x00, 0x7b, 0x40, 0xe8,
    0xdd, 0x00, 0x00, 0x00, 0x0d, 0x49, 0x44, 0x41, 0x54, 0x78, 0xda, 0x63, 0xf8, 0xcf, 0x00, 0x04,
    0xff, 0x01, 0x07, 0x00, 0x01, 0xff, 0x3d, 0x7d, 0x8c, 0x49, 0x00, 0x00, 0x00, 0x00, 0x49, 0x45,
    0x4e, 0x44, 0xae, 0x42, 0x60, 0x82,
];

#[test]
fn the_picture_begins_with_the_signature(rt: HostRuntime) {
    assert!(rt; PICTURE.starts_with(&SIGNATURE));
}

// The kinds of its chunks (`IHDR`, `IDAT` and `IEND`), where each begins, and its contents.
static CHUNKS: [(u32, usize, &[u8]); 3] = [
    (0x4948_4452, 8, b"\0\0\0\x02\0\0\0\x01\x08\x02\0\0\0"),
    (
        0x4944_4154,
        33,
        b"\x78\xda\x63\xf8\xcf\x00\x04\xff\x01\x07\x00\x01\xff",
    ),
    (0x4945_4e44, 58, b""),
];

// CRC-32, a bit at a time.
struct Crc32;

impl Checksum for Crc32 {
    ghost counts = { λ _ _ _ _. Unit {0} };

    fn checksum(&self, kind: u32, contents: &[u8]) -> u32 {
        let mut crc = u32::MAX;
        for byte in kind.to_be_bytes() {
            crc = add_byte(crc, byte);
        }
        for byte in contents {
            crc = add_byte(crc, *byte);
        }
        !crc
    }
}

// Returns the remainder after one more byte.
fn add_byte(crc: u32, byte: u8) -> u32 {
    let mut crc = crc ^ u32::from(byte);
    for _bit in 0..8 {
        let is_odd = crc & 1 == 1;
        crc >>= 1;
        if is_odd {
            crc ^= 0xedb8_8320;
        }
    }
    crc
}

// Checks a chunk that is read, and written to the same place.
fn check_chunk(rt: &impl Abort, out: &mut [u8], kind: u32, start: usize, contents: &[u8]) {
    let mut offset = start;
    let chunk = read_chunk(&PICTURE, &mut offset, &Crc32).expect(rt, "a chunk");
    assert!(rt; chunk.kind == kind);
    assert!(rt; chunk.contents == contents);
    let mut at = start;
    let written = write_chunk(out, &mut at, kind, contents, &Crc32).expect(rt, "room");
    assert!(rt; written == chunk);
    assert!(rt; at == offset);
}

#[test]
fn chunks_are_read_and_written(rt: HostRuntime) {
    let mut out = PICTURE;
    out[8..].fill(0);
    for (kind, start, contents) in &CHUNKS {
        check_chunk(&rt, &mut out, *kind, *start, contents);
    }
    assert!(rt; out == PICTURE);
}

// Checks the error of reading a chunk, and that the cursor is unchanged.
fn check_refused(rt: &impl Abort, alloc: Global, file: &[u8], start: usize, wanted: &str) {
    let mut offset = start;
    let read = read_chunk(file, &mut offset, &Crc32);
    let printed = format!(in alloc; "{read:?}").expect(rt, "memory");
    assert!(rt; printed.as_str() == wanted, "got {printed}");
    assert!(rt; offset == start);
}

#[test]
fn what_is_refused(rt: HostRuntime) {
    let alloc = rt.alloc();
    let mut other = PICTURE;
    other[20] = 1;
    let checksum = "Err(BadChecksum { stated: 2067851485, counted: 1815870622 })";
    check_refused(&rt, alloc, &other, 8, checksum);
    let cut = "Err(Refused(TooBig { size: 4, len: 3 }))";
    check_refused(&rt, alloc, &PICTURE[..32], 8, cut);
    check_refused(&rt, alloc, &PICTURE, 71, "Err(Refused(BadOffset(71)))");
}
