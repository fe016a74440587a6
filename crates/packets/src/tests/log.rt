// Logs from another program, made by Python's struct.pack:
//
//     def record(order, name, body): return struct.pack(order + "H", len(name) + 1 + len(body)) + name + b"\0" + body
//     (record(o, b"boot", b"\x01\x02") + record(o, b"", b"") + record(o, b"up", b"ok")).hex(" ")
//
// with "<" and with ">" for o.
use super::check_printed;
use crate::log::*;
use scroll::{BE, Error, LE, Pread};

static LITTLE: [u8; 19] = [
    0x07, 0x00, 0x62, 0x6f, 0x6f, 0x74, 0x00, 0x01, 0x02, 0x01, 0x00, 0x00, 0x05, 0x00, 0x75, 0x70,
    0x00, 0x6f, 0x6b,
];

static BIG: [u8; 19] = [
    0x00, 0x07, 0x62, 0x6f, 0x6f, 0x74, 0x00, 0x01, 0x02, 0x00, 0x01, 0x00, 0x00, 0x05, 0x75, 0x70,
    0x00, 0x6f, 0x6b,
];

const RECORDS: &str = "[Record { len: 7, name: \"boot\", body: [1, 2] }, \
    Record { len: 1, name: \"\", body: [] }, Record { len: 5, name: \"up\", body: [111, 107] }]";

#[test]
fn a_log_in_either_order(rt: HostRuntime) {
    let alloc = rt.alloc();
    let records = read_records(alloc, &LITTLE, LE).expect(&rt, "a log");
    check_printed(&rt, alloc, records.as_slice(), RECORDS);
    let mut out = [0xffu8; 20];
    check_printed(&rt, alloc, write_records(&mut out, &records, BE), "Ok(19)");
    assert!(rt; out.starts_with(&BIG));
    assert!(rt; out[19] == 0xff);
}

// Each record, and the offset behind it.
static EACH: [(&str, usize); 3] = [
    ("Ok(Record { len: 7, name: \"boot\", body: [1, 2] })", 9),
    ("Ok(Record { len: 1, name: \"\", body: [] })", 12),
    ("Ok(Record { len: 5, name: \"up\", body: [111, 107] })", 19),
];

#[test]
fn one_after_the_other(rt: HostRuntime) {
    let offset = &mut 0;
    for (wanted, behind) in &EACH {
        let found: Result<Record, Error> = BIG.gread_with(offset, BE);
        check_printed(&rt, rt.alloc(), found, wanted);
        assert!(rt; *offset == *behind);
    }
}

// Logs that are cut, where each fails, and why.
static CUT: [(usize, &str); 4] = [
    (
        18,
        "Err(At { offset: 12, error: TooBig { size: 2, len: 1 } })",
    ),
    (
        13,
        "Err(At { offset: 12, error: TooBig { size: 2, len: 1 } })",
    ),
    (
        1,
        "Err(At { offset: 0, error: TooBig { size: 2, len: 1 } })",
    ),
    (
        11,
        "Err(At { offset: 9, error: BadInput { size: 0, msg: \"missing delimiter\" } })",
    ),
];

const LONG_NAME: &str =
    "Err(At { offset: 9, error: BadInput { size: 1, msg: \"len is less than name.len() + 1\" } })";

const ZERO_IN_NAME: &str =
    "Err(At { offset: 4, error: BadInput { size: 1, msg: \"a text has its delimiter\" } })";

static WRONG: [Record; 2] = [
    Record {
        len: 2,
        name: "a",
        body: b"",
    },
    Record {
        len: 4,
        name: "b\0c",
        body: b"",
    },
];

#[test]
fn what_is_refused(rt: HostRuntime) {
    let alloc = rt.alloc();
    for (len, wanted) in &CUT {
        check_printed(&rt, alloc, read_records(alloc, &LITTLE[..*len], LE), wanted);
    }
    let mut bytes = LITTLE;
    bytes[11] = b'!';
    check_printed(&rt, alloc, read_records(alloc, &bytes, LE), LONG_NAME);
    let mut out = [0u8; 6];
    check_printed(
        &rt,
        alloc,
        write_records(&mut out, &WRONG, LE),
        ZERO_IN_NAME,
    );
    assert!(rt; out == [2, 0, b'a', 0, 0, 0]);
    let short = "Err(At { offset: 0, error: TooBig { size: 4, len: 3 } })";
    check_printed(&rt, alloc, write_records(&mut out[..3], &WRONG, LE), short);
}
