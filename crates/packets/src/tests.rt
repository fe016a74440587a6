// Packets from outside: a query for example.com that glibc's resolver sent, by `getent ahostsv4
// example.com`, and the name server's response, both as a socket of the family AF_PACKET received
// them in Python: `u.hex()`, where `u` is what comes after the IP header. The values are those of
// the two RFCs, worked out by hand.
use super::*;
use std::alloc::Global;
use std::fmt::Debug;
use std::process::Abort;

mod log;

// ce850035 0025cc6d 28b10100 00010000 00000000 07 "example" 03 "com" 00 0001 0001
static QUERY: [u8; 37] = [
    0xce, 0x85, 0x00, 0x35, 0x00, 0x25, 0xcc, 0x6d, 0x28, 0xb1, 0x01, 0x00, 0x00, 0x01, 0x00, 0x00,
    0x00, 0x00, 0x00, 0x00, 0x07, 0x65, 0x78, 0x61, 0x6d, 0x70, 0x6c, 0x65, 0x03, 0x63, 0x6f, 0x6d,
    0x00, 0x00, 0x01, 0x00, 0x01,
];

// 0035ce85 0025cc6d 28b18183 00010000 00000000 07 "example" 03 "com" 00 0001 0001, and two bytes
// after it
static ANSWER: [u8; 39] = [
    0x00, 0x35, 0xce, 0x85, 0x00, 0x25, 0xcc, 0x6d, 0x28, 0xb1, 0x81, 0x83, 0x00, 0x01, 0x00, 0x00,
    0x00, 0x00, 0x00, 0x00, 0x07, 0x65, 0x78, 0x61, 0x6d, 0x70, 0x6c, 0x65, 0x03, 0x63, 0x6f, 0x6d,
    0x00, 0x00, 0x01, 0x00, 0x01, 0xff, 0xff,
];

// Checks that a value is printed like this.
fn check_printed<T: Debug + Drop>(rt: &impl Abort, alloc: Global, value: T, wanted: &str) {
    let printed = format!(in alloc; "{value:?}").expect(rt, "memory for the text");
    assert!(rt; printed.as_str() == wanted, "got {printed}");
}

#[test]
fn a_query(rt: HostRuntime) {
    let query = read_packet(&QUERY).expect(&rt, "a query");
    check_printed(
        &rt,
        rt.alloc(),
        (query.udp, query.dns),
        "(UdpHeader { source: 52869, destination: 53, len: 37, checksum: 52333 }, DnsHeader { id: 10417, flags: 256, questions: 1, answers: 0, authorities: 0, additionals: 0 })",
    );
    assert!(rt; !query.dns.is_response());
    assert!(rt; query.body == b"\x07example\x03com\x00\x00\x01\x00\x01".as_slice());
}

#[test]
fn an_answer_written_back(rt: HostRuntime) {
    let answer = read_packet(&ANSWER[..37]).expect(&rt, "an answer");
    assert!(rt; answer.dns.is_response());
    assert!(rt; answer.dns.response_code() == 3);
    let mut out = [0xffu8; 39];
    check_printed(&rt, rt.alloc(), write_packet(&mut out, answer), "Ok(37)");
    assert!(rt; out == ANSWER);
}

// The query, with another UDP length.
fn with_len(len: u8) -> [u8; 37] {
    let mut bytes = QUERY;
    bytes[5] = len;
    bytes
}

#[test]
fn refused(rt: HostRuntime) {
    let alloc = rt.alloc();
    check_printed(
        &rt,
        alloc,
        read_packet(&QUERY[..36]),
        "Err(Short(TooBig { size: 17, len: 16 }))",
    );
    check_printed(
        &rt,
        alloc,
        read_packet(&QUERY[..7]),
        "Err(Short(TooBig { size: 20, len: 7 }))",
    );
    check_printed(&rt, alloc, read_packet(&with_len(7)), "Err(NoMessage(7))");
    check_printed(&rt, alloc, read_packet(&with_len(19)), "Err(NoMessage(19))");
}

#[test]
fn headers_before_a_body(rt: HostRuntime) {
    let answer = read_packet(&ANSWER[..37]).expect(&rt, "an answer");
    let mut out = [0xffu8; 20];
    check_printed(
        &rt,
        rt.alloc(),
        write_headers(&mut out, answer.udp, answer.dns),
        "Ok(())",
    );
    assert!(rt; ANSWER.starts_with(&out));
    check_printed(
        &rt,
        rt.alloc(),
        write_headers(&mut out[..19], answer.udp, answer.dns),
        "Err(Short(TooBig { size: 12, len: 11 }))",
    );
}
