// The writes of a run.
ghost use Rattle.std.specs.Prelude.{◌≡◌, ◌<◌, [], ◌∷◌, ◌+◌, vec_len, vec_capacity};
ghost use Rattle.scroll.specs.History.{WritesLeaves};
ghost use Rattle.scroll.specs.Steps.{AppendsWrite};
ghost use Rattle.scroll.specs.Runs.{leaf_of, leaves_of, offset_of};
ghost use Rattle.scroll.specs.Writes.{AnswersWrite};
ghost use Rattle.scroll.specs.declared.error.Error.TheVariants.{BadOffset};

use super::{Answer, Number, Place, Put};
use crate::ctx::TryIntoCtx;
use crate::endian::Endian;
use crate::error::Error;
use crate::slice;

// Runs a write, and appends its answer, for which there is room. A write at the cursor advances it
// by the size of the value. Each type appends its own answer, as each kind does in a read.
#[inline(always)]
pub(crate) fn write(
    buffer: &mut [u8],
    cursor: &mut usize,
    place: Place,
    put: &Put<'_>,
    answers: &mut Vec<Answer>,
)
    requires { vec_len answers.old < vec_capacity answers.old }
    ensures wrote { AppendsWrite (WritesLeaves buffer.old (offset_of place cursor.old)
        (leaves_of put.now) buffer.new) place cursor.old cursor.new
        answers.old.items answers.new.items }
    ensures len { vec_len answers.new ≡ vec_len answers.old + 1 }
    ensures capacity { vec_capacity answers.new ≡ vec_capacity answers.old }
{
    match *put {
        Put::Number(number, order) => write_number(buffer, cursor, place, number, order, answers),
        Put::Text(text) => write_at(buffer, cursor, place, text, (), answers),
        Put::Bytes(bytes) => write_at(buffer, cursor, place, bytes, (), answers),
        Put::CStr(text) => write_at(buffer, cursor, place, text, (), answers),
        Put::Uleb(number) => write_at(buffer, cursor, place, number, (), answers),
        Put::Sleb(number) => write_at(buffer, cursor, place, number, (), answers),
        Put::U16x3(xs, order) => write_at(buffer, cursor, place, xs, order, answers),
        Put::Bytesx2(first, second) => {
            write_at(buffer, cursor, place, [first, second], (), answers)
        }
    }
}

#[inline(always)]
fn write_number(
    buffer: &mut [u8],
    cursor: &mut usize,
    place: Place,
    number: Number,
    order: Endian,
    answers: &mut Vec<Answer>,
)
    requires { vec_len answers.old < vec_capacity answers.old }
    ensures wrote { AppendsWrite (WritesLeaves buffer.old (offset_of place cursor.old)
        (leaf_of order number ∷ []) buffer.new) place cursor.old cursor.new
        answers.old.items answers.new.items }
    ensures len { vec_len answers.new ≡ vec_len answers.old + 1 }
    ensures capacity { vec_capacity answers.new ≡ vec_capacity answers.old }
{
    match number {
        Number::U8(x) => write_at(buffer, cursor, place, x, order, answers),
        Number::I8(x) => write_at(buffer, cursor, place, x, order, answers),
        Number::U16(x) => write_at(buffer, cursor, place, x, order, answers),
        Number::I16(x) => write_at(buffer, cursor, place, x, order, answers),
        Number::U32(x) => write_at(buffer, cursor, place, x, order, answers),
        Number::I32(x) => write_at(buffer, cursor, place, x, order, answers),
        Number::U64(x) => write_at(buffer, cursor, place, x, order, answers),
        Number::I64(x) => write_at(buffer, cursor, place, x, order, answers),
        Number::U128(x) => write_at(buffer, cursor, place, x, order, answers),
        Number::I128(x) => write_at(buffer, cursor, place, x, order, answers),
    }
}

// Writes a value of any type, and appends the answer.
#[inline(always)]
fn write_at<Ctx: Copy, N: TryIntoCtx<Ctx, Error = Error> + Drop>(
    buffer: &mut [u8],
    cursor: &mut usize,
    place: Place,
    n: N,
    ctx: Ctx,
    answers: &mut Vec<Answer>,
)
    requires { vec_len answers.old < vec_capacity answers.old }
    ensures wrote { AppendsWrite (AnswersWrite (N.writes ctx n) (N.refuses ctx n) (λ o e.
        e ≡ BadOffset o) buffer.old (offset_of place cursor.old) buffer.new) place cursor.old
        cursor.new answers.old.items answers.new.items }
    ensures len { vec_len answers.new ≡ vec_len answers.old + 1 }
    ensures capacity { vec_capacity answers.new ≡ vec_capacity answers.old }
{
    let mut end = place.offset(*cursor);
    match slice::gwrite_with(buffer, n, &mut end, ctx) {
        Ok(size) => {
            *cursor = place.cursor_after(*cursor, end);
            answers.push_reserved(Answer::Wrote(size));
        }
        Err(error) => answers.push_reserved(Answer::Refused(error)),
    }
}
