//! What asks for memory. No other function of the program does.
ghost use Rattle.std.specs.Prelude.{◌≡◌, ◌+◌, ◌≤◌, ◌⊎◌, ⊤, length, Ok, Err, OnOk, OnErr, IfOk, IfErr, IfSome, string_bytes, vec_capacity, vec_len};
ghost use Rattle.std.specs.Fmt.{AppendsText};
ghost use Rattle.hex.specs.Hex.{decode_of, encode_lower};
ghost use Rattle.hex.specs.declared.error.FromHexError.TheVariants.{OutOfMemory};
ghost use Rattle.scroll.specs.CStrings.{RefusesToHold};
ghost use Rattle.scroll.specs.CStringTexts.{c_string_text};
ghost use Rattle.scroll.specs.Runs.{IsRun};
ghost use Rattle.scroll.specs.Texts.{index_of};
ghost use Rattle.scroll.specs.declared.error.Error.TheVariants.{NoMemory};

use hex::FromHexError;
use scroll::Error;
use scroll::cstr::CString;
use scroll::runner::{self, Answer, Command};
use std::alloc::{AllocError, Global};
use std::fmt::Display;

/// Memory for a session.
///
/// The functions of the program take any, and return an error for want of memory only where it
/// refuses some.
pub trait Memory: Copy {
    // Holds where the memory refuses an allocation.
    ghost refuses: { Self → Type 0 };

    /// Returns the allocator, for vectors and strings without room.
    fn alloc(self) -> Global;

    /// Makes room for `count` more items.
    fn reserve<T>(self, items: &mut Vec<T>, count: usize) -> Result<(), AllocError>
        ensures items { items.new.items ≡ items.old.items }
        ensures len { vec_len items.new ≡ vec_len items.old }
        ensures room { OnOk result (vec_len items.new + count ≤ vec_capacity items.new) }
        ensures refused { OnErr result (refuses self) };

    /// Returns the string that a value displays.
    fn format<D: Display + Drop>(self, value: D) -> Result<String, AllocError>
        ensures text { IfOk result (λ text.
            IfSome (D.output value) (λ bytes. string_bytes text ≡ bytes)) }
        ensures refused { OnErr result (refuses self) };

    /// Appends what a value displays.
    fn write<D: Display + Drop>(self, text: &mut String, value: D) -> Result<(), AllocError>
        ensures bytes { OnOk result
            (AppendsText (string_bytes text.old) (string_bytes text.new) (D.output value)) }
        ensures refused { OnErr result (refuses self) };

    /// Returns the bytes in hexadecimal.
    fn encode(self, bytes: &[u8]) -> Result<String, AllocError>
        ensures text { IfOk result (λ text. string_bytes text ≡ encode_lower bytes.now) }
        ensures refused { OnErr result (refuses self) };

    /// Returns the bytes that hexadecimal digits spell.
    fn decode(self, word: &[u8]) -> Result<Vec<u8>, FromHexError>
        ensures bytes { IfOk result (λ bytes. decode_of word.now ≡ Ok bytes.items) }
        ensures error { IfErr result (λ e. (e ≡ OutOfMemory) ⊎ (decode_of word.now ≡ Err e)) }
        ensures refused { IfErr result (λ e. e ≡ OutOfMemory → refuses self) };

    /// Returns a C string with a copy of the text.
    fn c_string(self, text: &[u8]) -> Result<CString, Error>
        ensures text { IfOk result (λ s. c_string_text s ≡ text.now) }
        ensures no_zero { OnOk result (index_of 0 text.now ≡ length text.now) }
        ensures zero { IfErr result (RefusesToHold text.now) }
        ensures refused { IfErr result (λ e. e ≡ NoMemory → refuses self) };

    /// Runs the commands, and appends an answer for each.
    fn run(
        self,
        buffer: &mut [u8],
        cursor: &mut usize,
        commands: &[Command<'_>],
        answers: &mut Vec<Answer>,
    ) -> Result<(), AllocError>
        ensures ran { OnOk result (IsRun buffer.old buffer.new cursor.old cursor.new commands.now
            answers.old.items answers.new.items) }
        ensures refused { OnErr result (refuses self) };
}

impl Memory for Global {
    ghost refuses = { λ _. ⊤ };

    fn alloc(self) -> Global {
        self
    }

    fn reserve<T>(self, items: &mut Vec<T>, count: usize) -> Result<(), AllocError> {
        items.reserve(count)
    }

    fn format<D: Display + Drop>(self, value: D) -> Result<String, AllocError> {
        String::format(self, value)
    }

    fn write<D: Display + Drop>(self, text: &mut String, value: D) -> Result<(), AllocError> {
        text.write_fmt(value)
    }

    fn encode(self, bytes: &[u8]) -> Result<String, AllocError> {
        hex::encode(self, bytes)
    }

    fn decode(self, word: &[u8]) -> Result<Vec<u8>, FromHexError> {
        hex::decode(self, word)
    }

    fn c_string(self, text: &[u8]) -> Result<CString, Error> {
        CString::new(self, text)
    }

    fn run(
        self,
        buffer: &mut [u8],
        cursor: &mut usize,
        commands: &[Command<'_>],
        answers: &mut Vec<Answer>,
    ) -> Result<(), AllocError> {
        runner::run(self, buffer, cursor, commands, answers).or(Err(AllocError))
    }
}
