// Runs of commands. Their answers to each kind of command are in the stored sessions of the
// program. Each test also passes, or says `NoMemory`, where an allocation fails
// (`rt try --test --fail-alloc N`).
ghost use Rattle.std.specs.Prelude.{◌<◌};

use crate::LE;
use crate::ctx::{NULL, StrCtx};
use crate::runner::{Answer, Command, Kind, Number, Place, Put, run};
use crate::tests::results::{check_eq, check_value};
use arrayvec::ArrayString;
use std::alloc::Global;
use std::fmt::Write;
use std::process::Abort;

const HERE: Place = Place::Cursor;

const WHOLE: Place = Place::At(0);

// Checks that a string, a slice and C strings of one length are copied. An allocation failure ends
// the test.
fn check_length(rt: &impl Abort, alloc: Global, len: usize) {
    assert!(rt; len < 8193);
    let mut room = [b'a'; 8193];
    let buffer = &mut room[..len + 1];
    buffer[len] = 0;
    let commands = [
        Command::Read(HERE, Kind::Text(StrCtx::Delimiter(NULL))),
        Command::Read(WHOLE, Kind::Bytes(len)),
        Command::Read(WHOLE, Kind::CStr),
        Command::Read(WHOLE, Kind::CString),
    ];
    let mut cursor = 0;
    let answers = &mut Vec::new(alloc);
    check_value(rt, run(alloc, buffer, &mut cursor, &commands, answers), ());
    check_eq(rt, (cursor, answers.len()), (len + 1, 4));
}

#[test]
fn values_of_each_length(rt: HostRuntime) {
    for len in 0..1101 {
        check_length(&rt, rt.alloc(), len);
    }
    for len in &[4096, 5000, 8192] {
        check_length(&rt, rt.alloc(), *len);
    }
}

// Runs of each number of commands, and a longer one.
#[test]
fn runs_of_each_length(rt: HostRuntime) {
    for count in 0..1101 {
        check_count(&rt, rt.alloc(), count);
    }
    check_count(&rt, rt.alloc(), 5000);
}

const COMMAND: Command<'static> = Command::Write(WHOLE, Put::Number(Number::U8(98), LE));

// Checks that so many commands have an answer each. An allocation failure ends the test.
fn check_count(rt: &impl Abort, alloc: Global, count: usize) {
    let commands = vec![in alloc; COMMAND; count].expect(rt, "commands");
    let answers = &mut Vec::new(alloc);
    let ran = run(alloc, &mut [0], &mut 0, commands.as_slice(), answers);
    check_value(rt, ran, ());
    check_eq(rt, answers.len(), count);
}

// The answers before those of the commands below, and then theirs.
const ANSWERS: &str = r#"Wrote(0)
Wrote(1)
Wrote(2)
Wrote(3)
Wrote(1)
Read(CStr([]))
Read(Text("b"))
"#;

const COMMANDS: [Command<'static>; 3] = [
    Command::Write(HERE, Put::Number(Number::U8(98), LE)),
    Command::Read(HERE, Kind::CString),
    Command::Read(WHOLE, Kind::Text(StrCtx::Length(1))),
];

// The end of the answers' lines, the buffer and the cursor, after none of these commands, after the
// first, after two and after all three.
static LEFT: [(usize, [u8; 3], usize); 4] = [
    (36, [0x61, 0, 0], 0),
    (45, [0x62, 0, 0], 1),
    (60, [0x62, 0, 0], 2),
    (76, [0x62, 0, 0], 2),
];

// Prints a line for each answer. Nothing is allocated, and so no allocation can fail here. What
// doesn't fit is cut off, and then differs from what is expected.
fn print_answers(answers: &[Answer]) -> ArrayString<80> {
    let mut printed = ArrayString::new();
    for answer in answers {
        let _ = writeln!(printed, "{answer:?}");
    }
    printed
}

// Returns the answers from `start` to 3.
fn answers_from(rt: &impl Abort, alloc: Global, start: usize) -> Vec<Answer> {
    let mut answers = Vec::new(alloc);
    for size in start..4 {
        answers
            .push(Answer::Wrote(size))
            .ok()
            .expect(rt, "NoMemory");
    }
    answers
}

// Checks the answers from `start` on, and what as many commands leave as have an answer.
fn check_left(rt: &impl Abort, answers: &[Answer], start: usize, left: ([u8; 3], usize))
    requires start_in { start < 5 }
{
    let done = answers.len().wrapping_add(start).wrapping_sub(4);
    let &(end, buffer, cursor) = LEFT.get(done).expect(rt, "at most three commands");
    check_eq(rt, left, (buffer, cursor));
    let lines = ANSWERS.get(9 * start..end).unwrap_or_default();
    check_eq(rt, print_answers(answers).as_str(), lines);
}

// Runs so many of the commands with the answers from `start` to 3 before theirs. After an
// allocation failure, which ends the test, the first of them are as in a run of their own.
fn check_from(rt: &impl Abort, alloc: Global, start: usize, count: usize)
    requires start_in { start < 5 }
    requires count_in { count < 4 }
{
    let (mut buffer, mut cursor) = ([0x61, 0, 0], 0);
    let mut answers = answers_from(rt, alloc, start);
    let ran = run(
        alloc,
        &mut buffer,
        &mut cursor,
        &COMMANDS[..count],
        &mut answers,
    );
    check_left(rt, &answers, start, (buffer, cursor));
    check_value(rt, ran, ());
}

// None of the commands, the first, two and all three run with four to no other answers before
// theirs, so that the list of answers grows at each command in turn.
#[test]
fn answers_stand_up_to_a_refusal(rt: HostRuntime) {
    for start in 0..5 {
        for count in 0..4 {
            check_from(&rt, rt.alloc(), start, count);
        }
    }
}
