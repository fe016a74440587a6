//! The lines of the output.
ghost use Rattle.std.specs.Prelude.{◌≡◌, ◌++◌, ℕ, List, codes, IfSome, MatchResult, string_bytes};
ghost use Rattle.scroll.specs.declared.runner.Answer.TheVariants as answer;
ghost use Rattle.scroll.specs.declared.runner.Value.TheVariants as value;
ghost use Rattle.scroll_run.specs.Answers.{IsAnswerLine, Prints, hex_text, value_line};

use crate::memory::Memory;
use scroll::Error;
use scroll::runner::{Answer, Value};
use std::alloc::AllocError;
use std::fmt::Display;

/// Returns a line for each answer, then one for the buffer and one for the cursor.
pub fn print_answers<M: Memory>(
    memory: M,
    answers: &[Answer],
    buffer: &[u8],
    cursor: usize,
) -> Result<String, AllocError>
    ensures { MatchResult result
        (λ text. Prints answers.now buffer.now cursor (string_bytes text)) (λ _. M.refuses memory) }
{
    let mut text = String::new(memory.alloc());
    for answer in answers {
        print_answer(memory, &mut text, answer)?;
    }
    print_bytes_line(memory, &mut text, "buffer", buffer)?;
    print_line(memory, &mut text, "cursor", cursor)?;
    Ok(text)
}

// Appends the line of an answer.
fn print_answer<M: Memory>(memory: M, text: &mut String, answer: &Answer) -> Result<(), AllocError>
    ensures { MatchResult result (λ _. (line : List ℕ)
        × (string_bytes text.new ≡ string_bytes text.old ++ line) × IsAnswerLine answer.now line)
        (λ _. M.refuses memory) }
{
    match answer {
        Answer::Read(value) => print_value(memory, text, value),
        Answer::Wrote(size) => print_line(memory, text, "wrote", *size),
        Answer::Refused(error) => print_error(memory, text, error),
    }
}

// Appends the line of an error.
fn print_error<M: Memory>(memory: M, text: &mut String, error: &Error) -> Result<(), AllocError>
    ensures { MatchResult result (λ _. (line : List ℕ)
        × (string_bytes text.new ≡ string_bytes text.old ++ line)
        × IsAnswerLine (answer.Refused error.now) line) (λ _. M.refuses memory) }
{
    let says = memory.format(format_args!("{error}"))?;
    print_line(memory, text, "error", says)
}

// Appends the line of a value.
fn print_value<M: Memory>(memory: M, text: &mut String, value: &Value) -> Result<(), AllocError>
    ensures { MatchResult result
        (λ _. string_bytes text.new ≡ string_bytes text.old ++ value_line value.now)
        (λ _. M.refuses memory) }
{
    match value {
        Value::Unsigned(number) => print_line(memory, text, "number", number),
        Value::Signed(number) => print_line(memory, text, "number", number),
        Value::Text(found) => print_bytes_line(memory, text, "text", found.as_bytes()),
        Value::Bytes(found) => print_bytes_line(memory, text, "bytes", found),
        Value::CStr(found) => print_bytes_line(memory, text, "cstr", found),
        Value::Uleb(found) => print_two(memory, text, "uleb", u64::from(*found), found.size()),
        Value::Sleb(found) => print_two(memory, text, "sleb", i64::from(*found), found.size()),
        Value::U8x0 => memory.write(text, "numbers\n"),
        Value::U16x3(numbers) => print_three(memory, text, numbers),
        Value::Textx2(first, second) => {
            print_texts(memory, text, first.as_bytes(), second.as_bytes())
        }
    }
}

// Appends the line of three numbers.
fn print_three<M: Memory>(
    memory: M,
    text: &mut String,
    numbers: &[u16; 3],
) -> Result<(), AllocError>
    ensures { MatchResult result
        (λ _. string_bytes text.new ≡ string_bytes text.old ++ value_line (value.U16x3 numbers.now))
        (λ _. M.refuses memory) }
{
    let [first, second, third] = numbers;
    memory.write(text, format_args_nl!("numbers {first} {second} {third}"))
}

// Appends a line of a name and bytes.
fn print_bytes_line<M: Memory>(
    memory: M,
    text: &mut String,
    name: &str,
    bytes: &[u8],
) -> Result<(), AllocError>
    ensures { MatchResult result (λ _. string_bytes text.new
        ≡ string_bytes text.old ++ (name.now ++ codes " " ++ hex_text bytes.now ++ codes "\n"))
        (λ _. M.refuses memory) }
{
    let bytes = print_bytes(memory, bytes)?;
    print_line(memory, text, name, bytes)
}

// Appends the line of two texts.
fn print_texts<M: Memory>(
    memory: M,
    text: &mut String,
    first: &[u8],
    second: &[u8],
) -> Result<(), AllocError>
    ensures { MatchResult result (λ _. string_bytes text.new
        ≡ string_bytes text.old ++ (codes "texts " ++ hex_text first.now
        ++ codes " " ++ hex_text second.now ++ codes "\n")) (λ _. M.refuses memory) }
{
    let first = print_bytes(memory, first)?;
    let second = print_bytes(memory, second)?;
    print_two(memory, text, "texts", first, second)
}

// Appends a line of a name and what a value displays.
fn print_line<M: Memory, D: Display + Drop>(
    memory: M,
    text: &mut String,
    name: &str,
    value: D,
) -> Result<(), AllocError>
    ensures { MatchResult result (λ _. IfSome (D.output value) (λ shown. string_bytes text.new
        ≡ string_bytes text.old ++ (name.now ++ codes " " ++ shown ++ codes "\n")))
        (λ _. M.refuses memory) }
{
    memory.write(text, format_args_nl!("{name} {value}"))
}

// Appends a line of a name and what two values display.
fn print_two<M: Memory, D: Display + Drop, E: Display + Drop>(
    memory: M,
    text: &mut String,
    name: &str,
    first: D,
    second: E,
) -> Result<(), AllocError>
    ensures { MatchResult result (λ _. IfSome (D.output first) (λ one. IfSome (E.output second)
        (λ two. string_bytes text.new ≡ string_bytes text.old ++ (name.now ++ codes " " ++ one
        ++ codes " " ++ two ++ codes "\n")))) (λ _. M.refuses memory) }
{
    memory.write(text, format_args_nl!("{name} {first} {second}"))
}

// Returns the bytes in hexadecimal, or `-` if there are none.
fn print_bytes<M: Memory>(memory: M, bytes: &[u8]) -> Result<String, AllocError>
    ensures { MatchResult result (λ text. string_bytes text ≡ hex_text bytes.now)
        (λ _. M.refuses memory) }
{
    if bytes.is_empty() {
        memory.format("-")
    } else {
        memory.encode(bytes)
    }
}
