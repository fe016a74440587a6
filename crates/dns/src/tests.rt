// An answer for example.com as Python puts it together from RFC 1035:
//
//     head = struct.pack(">6H", 0x28b1, 0x8180, 1, 1, 0, 0); name = b"\7example\3com\0"
//     head + name + struct.pack(">2H", 1, 1) + struct.pack(">3HIH", 0xc00c, 1, 1, 3600, 4) + bytes([192, 0, 2, 1])
use super::*;
use scroll_layouts::Items;

static ANSWER: [u8; 45] = [
    0x28, 0xb1, 0x81, 0x80, 0x00, 0x01, 0x00, 0x01, 0x00, 0x00, 0x00, 0x00, 0x07, 0x65, 0x78, 0x61,
    0x6d, 0x70, 0x6c, 0x65, 0x03, 0x63, 0x6f, 0x6d, 0x00, 0x00, 0x01, 0x00, 0x01, 0xc0, 0x0c, 0x00,
    0x01, 0x00, 0x01, 0x00, 0x00, 0x0e, 0x10, 0x00, 0x04, 0xc0, 0x00, 0x02, 0x01,
];

#[test]
fn an_answer_is_read_and_written(rt: HostRuntime) {
    let message = read_message(&ANSWER).expect(&rt, "an answer");
    let header = message.header;
    assert_eq!(rt;
        (header.id, header.is_response, header.code),
        (0x28b1, 1, 0)
    );
    assert_eq!(rt;
        (header.wants_recursion, header.has_recursion, header.answers),
        (1, 1, 1)
    );
    let record: Resource = message
        .records
        .bytes
        .pread_with(0, BE)
        .expect(&rt, "a record");
    assert!(rt; pointer(&record.name) == Some(12));
    assert!(rt; matches!(&record.data, Data::Address(it) if it.bytes == [192, 0, 2, 1]));
    let mut target = [0xff; 46];
    let size = write_message(&mut target, message).expect(&rt, "room");
    assert!(rt; size == 45 && target.starts_with(&ANSWER) && target[45] == 0xff);
}

// Names, and where they go on.
static NAMES: [(&[u8], Option<u16>); 4] = [
    (b"\x01a\x01b\xc0\x0c", Some(12)),
    (b"\xc1\x00", Some(256)),
    (b"\x01\xc3\x00", None),
    (b"\x00", None),
];

#[test]
fn names_that_go_on(rt: HostRuntime) {
    for (bytes, wanted) in &NAMES {
        let labels = Items::to_mark(bytes, BE).expect(&rt, "a name");
        assert!(rt; pointer(&Name { labels }) == *wanted);
    }
}

// Bytes that are others, and the error of reading the message.
static WRONG: [(usize, u8, &str); 5] = [
    (5, 2, "type is too big (10) for 9"),
    (12, 0x40, "bad input it is not so that len < 64 (64)"),
    (12, 0xc0, "bad input it is not so that len < 64 (108)"),
    (40, 3, "type is too big (4) for 3"),
    (40, 5, "type is too big (5) for 4"),
];

#[test]
fn what_is_refused(rt: HostRuntime) {
    for (at, byte, wanted) in &WRONG {
        let mut bytes = ANSWER;
        if let Some(place) = bytes.get_mut(*at) {
            *place = *byte;
        }
        match read_message(&bytes) {
            Ok(_) => panic!(rt; "it is read"),
            Err(error) => {
                let printed = format!(in rt.alloc(); "{error}").expect(&rt, "memory");
                assert!(rt; printed.as_str() == *wanted, "got {printed}");
            }
        }
    }
}
