//! Reads and writes in bounds, where there is no answer if the value has no room; sizes before
//! there is a value, and of values; and the readers of LEB128 at a cursor.
ghost use Rattle.std.specs.Prelude.{◌≡◌, ◌≤◌, ◌+◌, length, true};

use crate::call::{Answer, Asked, Show, order};
use scroll::ctx::{FromCtx, IntoCtx, MeasureWith, SizeWith};
use scroll::{Cread, Cwrite, Endian, LE, Sleb128, Uleb128, slice};

/// Returns whether so many bytes stand at a place.
pub fn has_room(place: usize, size: usize, bytes: &[u8]) -> bool
    ensures { result ≡ true → place + size ≤ length bytes.now }
{
    place <= bytes.len() && size <= bytes.len() - place
}

/// Reads a value of so many bytes.
fn cread<N: FromCtx<Endian> + Show + Drop>(
    asked: &Asked,
    source: &[u8],
    room: &mut [u8],
    size: usize,
) -> usize
    requires need { (ctx : Endian) → N.need ctx ≤ size }
{
    let place = asked.place;
    if !has_room(place, size, source) {
        return 0;
    }
    let value = if asked.form % 2 == 0 {
        source.cread_with::<N>(place, order(asked))
    } else {
        source.cread::<N>(place)
    };
    let answer = &mut Answer::new(room);
    value.show(answer);
    answer.len
}

#[unsafe(no_mangle)]
pub extern "C" fn rt_cread(
    asked: &Asked,
    bytes: &mut [u8],
    _given: &[u8],
    room: &mut [u8],
) -> usize {
    match asked.kind {
        0 => cread::<u8>(asked, bytes, room, 1),
        1 => cread::<u16>(asked, bytes, room, 2),
        2 => cread::<u32>(asked, bytes, room, 4),
        3 => cread::<u64>(asked, bytes, room, 8),
        4 => cread::<u128>(asked, bytes, room, 16),
        5 => cread::<i8>(asked, bytes, room, 1),
        6 => cread::<i16>(asked, bytes, room, 2),
        7 => cread::<i32>(asked, bytes, room, 4),
        8 => cread::<i64>(asked, bytes, room, 8),
        9 => cread::<i128>(asked, bytes, room, 16),
        10 => cread::<f32>(asked, bytes, room, 4),
        _ => cread::<f64>(asked, bytes, room, 8),
    }
}

/// Writes a value of so many bytes.
fn cwrite<N: FromCtx<Endian> + IntoCtx<Endian> + Drop>(
    asked: &Asked,
    mut target: &mut [u8],
    given: &[u8],
    size: usize,
) -> usize
    requires made { (ctx : Endian) → N.FromCtx.need ctx ≤ size }
    requires need { (ctx : Endian) → N.IntoCtx.need ctx ≤ size }
{
    let place = asked.place;
    if given.len() < size || !has_room(place, size, target) {
        return 0;
    }
    let value = given.cread_with::<N>(0, LE);
    match asked.form % 4 {
        0 => target.cwrite_with(value, place, order(asked)),
        1 => target.cwrite(value, place),
        2 => slice::cwrite_with(target, value, place, order(asked)),
        _ => slice::cwrite(target, value, place),
    }
    0
}

#[unsafe(no_mangle)]
pub extern "C" fn rt_cwrite(
    asked: &Asked,
    bytes: &mut [u8],
    given: &[u8],
    _room: &mut [u8],
) -> usize {
    match asked.kind {
        0 => cwrite::<u8>(asked, bytes, given, 1),
        1 => cwrite::<u16>(asked, bytes, given, 2),
        2 => cwrite::<u32>(asked, bytes, given, 4),
        3 => cwrite::<u64>(asked, bytes, given, 8),
        4 => cwrite::<u128>(asked, bytes, given, 16),
        5 => cwrite::<i8>(asked, bytes, given, 1),
        6 => cwrite::<i16>(asked, bytes, given, 2),
        7 => cwrite::<i32>(asked, bytes, given, 4),
        8 => cwrite::<i64>(asked, bytes, given, 8),
        9 => cwrite::<i128>(asked, bytes, given, 16),
        10 => cwrite::<f32>(asked, bytes, given, 4),
        _ => cwrite::<f64>(asked, bytes, given, 8),
    }
}

macro_rules! sizes {
    ($answer:ident, $ctx:expr; $($value:ty),*) => {
        $($answer.size(<$value>::size_with($ctx));)*
    };
}

fn sizes_by_order(answer: &mut Answer, ctx: &Endian) {
    sizes!(answer, ctx; u8, u16, u32, u64, u128, i8, i16, i32, i64, i128, f32, f64);
}

fn sizes_by_nothing(answer: &mut Answer) {
    sizes!(answer, &(); u8, u16, u32, u64, u128, i8, i16, i32, i64, i128, f32, f64);
}

fn sizes_of_arrays(answer: &mut Answer, ctx: &Endian) {
    sizes!(answer, ctx; [u8; 0], [u16; 3], [[f64; 3]; 2], [[[i32; 2]; 0]; 5]);
}

#[unsafe(no_mangle)]
pub extern "C" fn rt_sizes(
    asked: &Asked,
    bytes: &mut [u8],
    given: &[u8],
    room: &mut [u8],
) -> usize {
    let answer = &mut Answer::new(room);
    let mut offset = asked.place;
    let ctx = &order(asked);
    match asked.kind {
        0 => sizes_by_order(answer, ctx),
        1 => sizes_of_arrays(answer, ctx),
        2 => sizes_by_nothing(answer),
        3 => {
            let slice = &bytes[..];
            answer.size(slice.measure_with(ctx));
            answer.size([7u8; 5].measure_with(ctx));
        }
        4 => {
            if let Ok(text) = std::str::from_utf8(given) {
                answer.size(text.measure_with(ctx));
            }
        }
        5 => {
            answer.outcome(Uleb128::read(bytes, &mut offset));
            answer.size(offset);
        }
        _ => {
            answer.outcome(Sleb128::read(bytes, &mut offset));
            answer.size(offset);
        }
    }
    answer.len
}
