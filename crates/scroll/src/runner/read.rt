// The reads of a run.
ghost use Rattle.std.specs.Prelude.{◌≡◌, ◌≢◌, ◌<◌, ◌+◌, ℕ, ℤ, [], ◌∷◌, vec_len, vec_capacity, IfOk, IfErr, IsOk, Ok, OnOk, OnErr};
ghost use Rattle.scroll.specs.Steps.{AppendsAnswer, AnswersRead};
ghost use Rattle.scroll.specs.Runs.{Copies, ReadStep};
ghost use Rattle.scroll.specs.Arrays.{ReadsArray, RefusesArray};
ghost use Rattle.scroll.specs.Errors.{IsBadOffset};
ghost use Rattle.scroll.specs.Reads.{ReadsBetween, RefusesAt};
ghost use Rattle.scroll.specs.Texts.{ReadsText, RefusesText};
ghost use Rattle.scroll.specs.declared.error.Error.TheVariants.{NoMemory};
ghost use Rattle.scroll.specs.declared.runner.Kind.TheVariants as kind;
ghost use Rattle.scroll.specs.declared.runner.Value.TheVariants as value;

use super::{Answer, Kind, Place, Value, Width};
use crate::cstr::{CStr, CString};
use crate::ctx::StrCtx;
use crate::endian::Endian;
use crate::error::{Error, Result};
use crate::leb128::{Sleb128, Uleb128};
use crate::pread::Pread;
use crate::source::ReadFrom;
use std::alloc::{AllocError, Global};
use std::result;

// Runs a read, and appends its answer, for which there is room. A read at the cursor advances it by
// the size of the value, once that has been copied. Only an allocation failure returns an error,
// and then nothing has changed.
//
// Each kind appends its own answer, by `read_at` or `copy_at`: a result for all kinds would be as
// large as the largest error, and be copied. All but the reads of C strings are inlined.
#[inline(always)]
pub(crate) fn read(
    alloc: Global,
    buffer: &[u8],
    cursor: &mut usize,
    place: Place,
    kind: &Kind,
    answers: &mut Vec<Answer>,
) -> result::Result<(), AllocError>
    requires { vec_len answers.old < vec_capacity answers.old }
    ensures answered { OnOk result (AppendsAnswer answers.old.items answers.new.items (λ a.
        ReadStep buffer.now cursor.old place kind.now a cursor.new)) }
    ensures len { OnOk result (vec_len answers.new ≡ vec_len answers.old + 1) }
    ensures capacity { vec_capacity answers.new ≡ vec_capacity answers.old }
    ensures succeeds { ¬ (Copies kind.now) → IsOk result }
    ensures kept { OnErr result (answers.new.items ≡ answers.old.items) }
    ensures stays { OnErr result (cursor.new ≡ cursor.old) }
{
    match *kind {
        Kind::Number(width, order) => read_number(buffer, cursor, place, width, order, answers),
        Kind::Text(ctx) => {
            let copy = |text: &str| String::from_str(alloc, text);
            return copy_at(buffer, cursor, place, ctx, copy, Value::Text, answers);
        }
        Kind::Bytes(len) => {
            let copy = |bytes: &[u8]| Vec::from_slice(alloc, bytes);
            return copy_at(buffer, cursor, place, len, copy, Value::Bytes, answers);
        }
        Kind::CStr => return read_c_str(alloc, buffer, cursor, place, answers),
        Kind::CString => return read_c_string(alloc, buffer, cursor, place, answers),
        Kind::Uleb => read_at(buffer, cursor, place, (), Value::Uleb, answers),
        Kind::Sleb => read_at(buffer, cursor, place, (), Value::Sleb, answers),
        Kind::U8x0(order) => read_at(buffer, cursor, place, order, no_bytes, answers),
        Kind::U16x3(order) => read_at(buffer, cursor, place, order, Value::U16x3, answers),
        Kind::Textx2(ctx) => return read_texts(alloc, buffer, cursor, place, ctx, answers),
    }
    Ok(())
}

#[inline(never)]
fn read_c_str(
    alloc: Global,
    buffer: &[u8],
    cursor: &mut usize,
    place: Place,
    answers: &mut Vec<Answer>,
) -> result::Result<(), AllocError>
    requires { vec_len answers.old < vec_capacity answers.old }
    ensures answered { OnOk result (AppendsAnswer answers.old.items answers.new.items (λ a.
        ReadStep buffer.now cursor.old place kind.CStr a cursor.new)) }
    ensures len { OnOk result (vec_len answers.new ≡ vec_len answers.old + 1) }
    ensures capacity { vec_capacity answers.new ≡ vec_capacity answers.old }
    ensures kept { OnErr result (answers.new.items ≡ answers.old.items) }
    ensures stays { OnErr result (cursor.new ≡ cursor.old) }
{
    let copy = |text: CStr| Vec::from_slice(alloc, text.to_bytes());
    copy_at(buffer, cursor, place, (), copy, Value::CStr, answers)
}

#[inline(never)]
fn read_c_string(
    alloc: Global,
    buffer: &[u8],
    cursor: &mut usize,
    place: Place,
    answers: &mut Vec<Answer>,
) -> result::Result<(), AllocError>
    requires { vec_len answers.old < vec_capacity answers.old }
    ensures answered { OnOk result (AppendsAnswer answers.old.items answers.new.items (λ a.
        ReadStep buffer.now cursor.old place kind.CString a cursor.new)) }
    ensures len { OnOk result (vec_len answers.new ≡ vec_len answers.old + 1) }
    ensures capacity { vec_capacity answers.new ≡ vec_capacity answers.old }
    ensures kept { OnErr result (answers.new.items ≡ answers.old.items) }
    ensures stays { OnErr result (cursor.new ≡ cursor.old) }
{
    let copy = |text: CString| Vec::from_slice(alloc, text.as_bytes());
    copy_at(buffer, cursor, place, &alloc, copy, Value::CStr, answers)
}

#[inline(always)]
fn read_texts(
    alloc: Global,
    buffer: &[u8],
    cursor: &mut usize,
    place: Place,
    ctx: StrCtx,
    answers: &mut Vec<Answer>,
) -> result::Result<(), AllocError>
    requires { vec_len answers.old < vec_capacity answers.old }
    ensures answered { OnOk result (AppendsAnswer answers.old.items answers.new.items (λ a.
        ReadStep buffer.now cursor.old place (kind.Textx2 ctx) a cursor.new)) }
    ensures len { OnOk result (vec_len answers.new ≡ vec_len answers.old + 1) }
    ensures capacity { vec_capacity answers.new ≡ vec_capacity answers.old }
    ensures kept { OnErr result (answers.new.items ≡ answers.old.items) }
    ensures stays { OnErr result (cursor.new ≡ cursor.old) }
{
    let mut end = place.offset(*cursor);
    match borrow_texts(buffer, &mut end, ctx) {
        Ok((first, second)) => {
            let first = String::from_str(alloc, first)?;
            let second = String::from_str(alloc, second)?;
            *cursor = place.cursor_after(*cursor, end);
            answers.push_reserved(Answer::Read(Value::Textx2(first, second)));
        }
        Err(error) => answers.push_reserved(Answer::Refused(error)),
    }
    Ok(())
}

// Runs the read of a number.
#[inline(always)]
fn read_number(
    buffer: &[u8],
    cursor: &mut usize,
    place: Place,
    width: Width,
    order: Endian,
    answers: &mut Vec<Answer>,
)
    requires { vec_len answers.old < vec_capacity answers.old }
    ensures answered { AppendsAnswer answers.old.items answers.new.items (λ a.
        ReadStep buffer.now cursor.old place (kind.Number width order) a cursor.new) }
    ensures len { vec_len answers.new ≡ vec_len answers.old + 1 }
    ensures capacity { vec_capacity answers.new ≡ vec_capacity answers.old }
{
    match width {
        Width::U8 => read_at(buffer, cursor, place, order, unsigned::<u8>, answers),
        Width::I8 => read_at(buffer, cursor, place, order, signed::<i8>, answers),
        Width::U16 => read_at(buffer, cursor, place, order, unsigned::<u16>, answers),
        Width::I16 => read_at(buffer, cursor, place, order, signed::<i16>, answers),
        Width::U32 => read_at(buffer, cursor, place, order, unsigned::<u32>, answers),
        Width::I32 => read_at(buffer, cursor, place, order, signed::<i32>, answers),
        Width::U64 => read_at(buffer, cursor, place, order, unsigned::<u64>, answers),
        Width::I64 => read_at(buffer, cursor, place, order, signed::<i64>, answers),
        Width::U128 => read_at(buffer, cursor, place, order, unsigned::<u128>, answers),
        Width::I128 => read_at(buffer, cursor, place, order, signed::<i128>, answers),
    }
}

// Reads a value of any type, and appends the answer, with what `as_value` makes of it.
#[inline(always)]
fn read_at<
    S: Pread<Ctx, Error>,
    Ctx: Copy,
    N: ReadFrom<S, Ctx, Error = Error>,
    F: FnOnce(N) -> Value,
>(buffer: S, cursor: &mut usize, place: Place, ctx: Ctx, as_value: F, answers: &mut Vec<Answer>)
    requires room { vec_len answers.old < vec_capacity answers.old }
    requires callable { F.IsAlwaysCallable as_value }
    ensures answered { AppendsAnswer answers.old.items answers.new.items (λ a.
        AnswersRead (λ source x size. (n : N) × F.post as_value n x × N.reads ctx source n size)
        (N.refuses ctx) S.past_end (S.bytes buffer) cursor.old place a cursor.new) }
    ensures len { vec_len answers.new ≡ vec_len answers.old + 1 }
    ensures capacity { vec_capacity answers.new ≡ vec_capacity answers.old }
{
    let mut end = place.offset(*cursor);
    match buffer.gread_with::<N>(&mut end, ctx) {
        Ok(n) => {
            *cursor = place.cursor_after(*cursor, end);
            answers.push_reserved(Answer::Read(as_value(n)));
        }
        Err(error) => answers.push_reserved(Answer::Refused(error)),
    }
}

// Reads a value of any type, and appends the answer, with what `as_value` makes of its copy. The
// read or the copy may find no memory, and then nothing has changed.
#[inline(always)]
fn copy_at<
    S: Pread<Ctx, Error>,
    Ctx: Copy,
    N: ReadFrom<S, Ctx, Error = Error>,
    C,
    F: FnOnce(N) -> result::Result<C, AllocError>,
    G: FnOnce(C) -> Value,
>(
    buffer: S,
    cursor: &mut usize,
    place: Place,
    ctx: Ctx,
    copy: F,
    as_value: G,
    answers: &mut Vec<Answer>,
) -> result::Result<(), AllocError>
    requires room { vec_len answers.old < vec_capacity answers.old }
    requires copies { F.IsAlwaysCallable copy }
    requires callable { G.IsAlwaysCallable as_value }
    ensures answered { OnOk result (AppendsAnswer answers.old.items answers.new.items (λ a.
        AnswersRead (λ source x size. (n : N) × (copied : C) × F.post copy n (Ok copied)
        × G.post as_value copied x × N.reads ctx source n size)
        (λ source e. N.refuses ctx source e × (e ≢ NoMemory)) S.past_end (S.bytes buffer)
        cursor.old place a cursor.new)) }
    ensures len { OnOk result (vec_len answers.new ≡ vec_len answers.old + 1) }
    ensures capacity { vec_capacity answers.new ≡ vec_capacity answers.old }
    ensures kept { OnErr result (answers.new.items ≡ answers.old.items) }
    ensures stays { OnErr result (cursor.new ≡ cursor.old) }
{
    let mut end = place.offset(*cursor);
    match buffer.gread_with::<N>(&mut end, ctx) {
        Ok(n) => {
            let copied = copy(n)?;
            *cursor = place.cursor_after(*cursor, end);
            answers.push_reserved(Answer::Read(as_value(copied)));
        }
        Err(Error::NoMemory) => return Err(AllocError),
        Err(error) => answers.push_reserved(Answer::Refused(error)),
    }
    Ok(())
}

#[inline(always)]
fn unsigned<N: Into<u128>>(number: N) -> Value
    ensures { (wide : ℕ) × N.converts number wide × (result ≡ value.Unsigned wide) }
{
    Value::Unsigned(number.into())
}

#[inline(always)]
fn signed<N: Into<i128>>(number: N) -> Value
    ensures { (wide : ℤ) × N.converts number wide × (result ≡ value.Signed wide) }
{
    Value::Signed(number.into())
}

#[inline(always)]
fn no_bytes(_none: [u8; 0]) -> Value
    ensures { result ≡ value.U8x0 }
{
    Value::U8x0
}

// Reads an array of two strings, and takes it apart, since a `match` can't bind an array of
// references.
#[inline(always)]
fn borrow_texts<'b>(buffer: &'b [u8], offset: &mut usize, ctx: StrCtx) -> Result<(&'b str, &'b str)>
    ensures read { IfOk result (ReadsBetween (λ source x n. ReadsArray (ReadsText ctx) 2 source
        (x.0.now ∷ x.1.now ∷ []) n) buffer.now offset.old offset.new) }
    ensures refused { IfErr result (RefusesAt (RefusesArray (ReadsText ctx)
        (RefusesText ctx) IsBadOffset 2) IsBadOffset buffer.now offset.old) }
{
    buffer.gread_with(offset, ctx).map(both)
}

// Returns the two strings of an array.
#[inline(always)]
fn both<'b>(texts: [&'b str; 2]) -> (&'b str, &'b str)
    ensures { texts.entry ≡ result.0 ∷ result.1 ∷ [] }
{
    (texts[0], texts[1])
}
