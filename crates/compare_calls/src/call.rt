//! The forms of a call, what its numbers mean, and what it returned, as bytes: each part has a
//! letter before it.
use scroll::cstr::{CStr, CString};
use scroll::ctx::{StrCtx, TryIntoCtx};
use scroll::{Endian, Error, LE, Pread, Pwrite, ReadFrom, Result, Sleb128, Uleb128, slice};

/// Which value is read or written, where, by which form of the call, and two numbers that make the
/// context.
#[repr(C)]
pub struct Asked {
    pub kind: u64,
    pub place: usize,
    pub form: u64,
    pub a: u64,
    pub b: u64,
}

pub fn order(asked: &Asked) -> Endian {
    Endian::from(asked.a % 2 == 1)
}

/// Where a text ends: by a delimiter, a delimiter and a limit, a length, or a delimiter that is
/// required.
pub fn text_end(asked: &Asked) -> StrCtx {
    let delimiter = (asked.a % 256) as u8;
    match asked.a / 256 % 4 {
        0 => StrCtx::Delimiter(delimiter),
        1 => StrCtx::DelimiterUntil(delimiter, asked.b as usize),
        2 => StrCtx::Length(asked.b as usize),
        _ => StrCtx::Required(delimiter),
    }
}

/// Reads a value at an offset or a cursor, in a context or in the default one.
pub fn read<'a, C: Copy + Default, N: ReadFrom<&'a [u8], C, Error = Error> + Show + Drop>(
    asked: &Asked,
    source: &'a [u8],
    room: &mut [u8],
    ctx: C,
) -> usize {
    let answer = &mut Answer::new(room);
    let mut offset = asked.place;
    let result = match asked.form % 4 {
        0 => source.pread_with::<N>(offset, ctx),
        1 => source.gread_with::<N>(&mut offset, ctx),
        2 => source.pread::<N>(offset),
        _ => source.gread::<N>(&mut offset),
    };
    answer.outcome(result);
    answer.size(offset);
    answer.len
}

/// Writes a value at an offset or a cursor, in a context or in the default one, by the trait's
/// calls or those of `slice`.
pub fn write<C: Copy + Default, N: TryIntoCtx<C, Error = Error> + Drop>(
    asked: &Asked,
    target: &mut [u8],
    room: &mut [u8],
    value: N,
    ctx: C,
) -> usize {
    let answer = &mut Answer::new(room);
    let mut offset = asked.place;
    let mut bytes = &mut target[..];
    let result = match asked.form % 8 {
        0 => bytes.pwrite_with(value, offset, ctx),
        1 => bytes.gwrite_with(value, &mut offset, ctx),
        2 => bytes.pwrite(value, offset),
        3 => bytes.gwrite(value, &mut offset),
        4 => slice::pwrite_with(bytes, value, offset, ctx),
        5 => slice::gwrite_with(bytes, value, &mut offset, ctx),
        6 => slice::pwrite(bytes, value, offset),
        _ => slice::gwrite(bytes, value, &mut offset),
    };
    answer.outcome(result);
    answer.size(offset);
    answer.len
}

/// An answer, as far as there is room for it.
#[derive(Drop)]
pub struct Answer<'o> {
    bytes: &'o mut [u8],
    pub len: usize,
}

impl<'o> Answer<'o> {
    pub fn new(bytes: &'o mut [u8]) -> Answer<'o> {
        Answer { bytes, len: 0 }
    }

    fn letter(&mut self, letter: u8) {
        let _ = slice::gwrite_with(self.bytes, letter, &mut self.len, LE);
    }

    pub fn number(&mut self, number: u128) {
        self.letter(b'n');
        let _ = slice::gwrite_with(self.bytes, number, &mut self.len, LE);
    }

    pub fn signed(&mut self, number: i128) {
        self.letter(b'i');
        let _ = slice::gwrite_with(self.bytes, number, &mut self.len, LE);
    }

    pub fn size(&mut self, size: usize) {
        self.number(size as u128);
    }

    pub fn bytes(&mut self, bytes: &[u8]) {
        self.letter(b's');
        let _ = slice::gwrite_with(self.bytes, bytes.len() as u64, &mut self.len, LE);
        let _ = slice::gwrite_with(self.bytes, bytes, &mut self.len, ());
    }

    pub fn error(&mut self, error: &Error) {
        match error {
            Error::TooBig { size, len } => {
                self.letter(b't');
                self.size(*size);
                self.size(*len);
            }
            Error::BadOffset(offset) => {
                self.letter(b'o');
                self.size(*offset);
            }
            Error::BadInput { size, msg } => {
                self.letter(b'b');
                self.size(*size);
                self.bytes(msg.as_bytes());
            }
            Error::Custom(_) | Error::IO(_) | Error::NoMemory => self.letter(b'?'),
        }
    }

    /// A call that failed in a stream.
    pub fn ended(&mut self) {
        self.letter(b'e');
    }

    pub fn outcome<N: Show + Drop>(&mut self, outcome: Result<N>) {
        match outcome {
            Ok(value) => {
                self.letter(b'k');
                value.show(self);
            }
            Err(error) => self.error(&error),
        }
    }
}

/// A value that an answer can hold.
pub trait Show {
    fn show(&self, answer: &mut Answer);
}

impl Show for u8 {
    fn show(&self, answer: &mut Answer) {
        answer.number(u128::from(*self));
    }
}

impl Show for u16 {
    fn show(&self, answer: &mut Answer) {
        answer.number(u128::from(*self));
    }
}

impl Show for u32 {
    fn show(&self, answer: &mut Answer) {
        answer.number(u128::from(*self));
    }
}

impl Show for u64 {
    fn show(&self, answer: &mut Answer) {
        answer.number(u128::from(*self));
    }
}

impl Show for i8 {
    fn show(&self, answer: &mut Answer) {
        answer.signed(i128::from(*self));
    }
}

impl Show for i16 {
    fn show(&self, answer: &mut Answer) {
        answer.signed(i128::from(*self));
    }
}

impl Show for i32 {
    fn show(&self, answer: &mut Answer) {
        answer.signed(i128::from(*self));
    }
}

impl Show for i64 {
    fn show(&self, answer: &mut Answer) {
        answer.signed(i128::from(*self));
    }
}

impl Show for u128 {
    fn show(&self, answer: &mut Answer) {
        answer.number(*self);
    }
}

impl Show for i128 {
    fn show(&self, answer: &mut Answer) {
        answer.signed(*self);
    }
}

impl Show for usize {
    fn show(&self, answer: &mut Answer) {
        answer.size(*self);
    }
}

// (the bits of a NaN are not told)
impl Show for f32 {
    fn show(&self, answer: &mut Answer) {
        let bits = if self.is_nan() {
            0x7fc0_0000
        } else {
            self.to_bits()
        };
        answer.number(u128::from(bits));
    }
}

impl Show for f64 {
    fn show(&self, answer: &mut Answer) {
        let bits = if self.is_nan() {
            0x7ff8_0000_0000_0000
        } else {
            self.to_bits()
        };
        answer.number(u128::from(bits));
    }
}

impl<'s> Show for &'s str {
    fn show(&self, answer: &mut Answer) {
        answer.bytes(self.as_bytes());
    }
}

impl<'s> Show for &'s [u8] {
    fn show(&self, answer: &mut Answer) {
        answer.bytes(self);
    }
}

impl<'s> Show for CStr<'s> {
    fn show(&self, answer: &mut Answer) {
        answer.bytes(self.to_bytes_with_nul());
    }
}

impl Show for CString {
    fn show(&self, answer: &mut Answer) {
        answer.bytes(self.as_bytes_with_nul());
    }
}

impl<'s> Show for std::ffi::CStr<'s> {
    fn show(&self, answer: &mut Answer) {
        answer.bytes(self.to_bytes_with_nul());
    }
}

impl Show for std::ffi::CString {
    fn show(&self, answer: &mut Answer) {
        answer.bytes(self.as_bytes_with_nul());
    }
}

impl Show for Uleb128 {
    fn show(&self, answer: &mut Answer) {
        answer.number(u128::from(*self.as_ref()));
        answer.size(self.size());
    }
}

impl Show for Sleb128 {
    fn show(&self, answer: &mut Answer) {
        answer.signed(i128::from(*self.as_ref()));
        answer.size(self.size());
    }
}

impl<N: Show, const LEN: usize> Show for [N; LEN] {
    fn show(&self, answer: &mut Answer) {
        for value in self {
            value.show(answer);
        }
    }
}
