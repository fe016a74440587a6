// Sessions, with their output and their status.
use crate::session::session;
use std::alloc::Global;
use std::process::Abort;

// Runs the session of an input, and expects its output and its status.
fn expect_session(rt: &impl Abort, alloc: Global, input: &[u8], wanted: &str, status: u8) {
    let mut input = input;
    let mut output = Vec::new(alloc);
    let ended = session(alloc, &mut input, &mut output).expect(rt, wanted);
    assert!(rt; ended == status, "{ended} with {wanted}");
    assert!(rt; output.as_slice() == wanted.as_bytes(), "{wanted}");
}

// Inputs, outputs and statuses.
static SESSIONS: [(&str, &str, u8); 11] = [
    ("", "bad line 1\n", 2),
    ("buffer -\n", "bad line 2\n", 2),
    ("buffer -\ncursor 0\n", "buffer -\ncursor 0\n", 0),
    ("buffer 0\ncursor 0\n", "bad line 1\n", 2),
    ("buffer 00\r\n", "bad line 1\n", 2),
    (
        "buffer 00\ncursor 18446744073709551616\n",
        "bad line 2\n",
        2,
    ),
    ("buffer 00\ncursor +1\n", "bad line 2\n", 2),
    (
        "buffer 00\ncursor 0\npwrite 0 i8 le -128\n",
        "wrote 1\nbuffer 80\ncursor 0\n",
        0,
    ),
    (
        "buffer 00\ncursor 0\ngwrite bytes AA\n\n",
        "bad line 4\n",
        2,
    ),
    (
        "buffer 00\ncursor 0\ngwrite bytes AA\n",
        "wrote 1\nbuffer aa\ncursor 1\n",
        0,
    ),
    (
        "buffer 0000000000000000\ncursor 0\npwrite 0 u64 be 72623859790382856\npread 0 u64 le\npread 6 u32 be\npread 8 u8 le\npwrite 9 u8 le 0\n",
        "wrote 8\nnumber 578437695752307201\nerror type is too big (4) for 2\nerror type is too big (1) for 0\nerror bad offset 9\nbuffer 0102030405060708\ncursor 0\n",
        0,
    ),
];

#[test]
fn each_input_has_its_output(rt: HostRuntime) {
    for (input, wanted, status) in &SESSIONS {
        expect_session(&rt, rt.alloc(), input.as_bytes(), wanted, *status);
    }
}

static BAD: [&str; 8] = [
    "pwrite 0 u8 le 256",
    "pwrite 0 u8 le -1",
    "pwrite 0 i8 le -",
    "gwrite str ff",
    "gwrite cstr 6100",
    "gwrite sleb 9223372036854775808",
    "pread  0 u8 le",
    "pread 0 str delim 0",
];

#[test]
fn a_command_is_bad(rt: HostRuntime) {
    for line in &BAD {
        let input = format!(in rt.alloc(); "buffer 00\ncursor 0\n{line}\n").expect(&rt, "memory");
        expect_session(&rt, rt.alloc(), input.as_bytes(), "bad line 3\n", 2);
    }
}

static LENGTHS: [(usize, &str); 2] = [(65_536, "bad line 1\n"), (65_537, "input too long\n")];

#[test]
fn length_is_tested_before_the_lines(rt: HostRuntime) {
    for (length, wanted) in &LENGTHS {
        let input = vec![in rt.alloc(); b'0'; *length].expect(&rt, "memory");
        expect_session(&rt, rt.alloc(), input.as_slice(), wanted, 2);
    }
}
