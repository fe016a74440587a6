//! Reads and writes of a buffer: at an offset and at a cursor, of up to seven values in bulk, and
//! of C strings that own their memory. The value of a write is read from the given bytes.
use crate::call::{Answer, Asked, Show, order, read, text_end, write};
use scroll::cstr::{CStr, CString};
use scroll::{Cread, Error, LE, Pread, ReadFrom, Sleb128, Uleb128};
use std::alloc::Global;

#[unsafe(no_mangle)]
pub extern "C" fn rt_read_number(
    asked: &Asked,
    bytes: &mut [u8],
    _given: &[u8],
    room: &mut [u8],
) -> usize {
    let ctx = order(asked);
    match asked.kind {
        0 => read::<_, u8>(asked, bytes, room, ctx),
        1 => read::<_, u16>(asked, bytes, room, ctx),
        2 => read::<_, u32>(asked, bytes, room, ctx),
        3 => read::<_, u64>(asked, bytes, room, ctx),
        4 => read::<_, u128>(asked, bytes, room, ctx),
        5 => read::<_, i8>(asked, bytes, room, ctx),
        6 => read::<_, i16>(asked, bytes, room, ctx),
        7 => read::<_, i32>(asked, bytes, room, ctx),
        8 => read::<_, i64>(asked, bytes, room, ctx),
        9 => read::<_, i128>(asked, bytes, room, ctx),
        10 => read::<_, f32>(asked, bytes, room, ctx),
        _ => read::<_, f64>(asked, bytes, room, ctx),
    }
}

#[unsafe(no_mangle)]
pub extern "C" fn rt_read_array(
    asked: &Asked,
    bytes: &mut [u8],
    _given: &[u8],
    room: &mut [u8],
) -> usize {
    let ctx = order(asked);
    match asked.kind {
        0 => read::<_, [u8; 4]>(asked, bytes, room, ctx),
        1 => read::<_, [i32; 5]>(asked, bytes, room, ctx),
        2 => read::<_, [u128; 2]>(asked, bytes, room, ctx),
        3 => read::<_, [f64; 2]>(asked, bytes, room, ctx),
        4 => read::<_, [[u16; 2]; 2]>(asked, bytes, room, ctx),
        5 => read::<_, [[[i8; 2]; 3]; 2]>(asked, bytes, room, ctx),
        _ => read::<_, [[u16; 0]; 3]>(asked, bytes, room, ctx),
    }
}

#[unsafe(no_mangle)]
pub extern "C" fn rt_read_text(
    asked: &Asked,
    bytes: &mut [u8],
    _given: &[u8],
    room: &mut [u8],
) -> usize {
    let ctx = text_end(asked);
    let count = asked.b as usize;
    match asked.kind {
        0 => read::<_, &str>(asked, bytes, room, ctx),
        1 => read::<_, [&str; 3]>(asked, bytes, room, ctx),
        2 => read::<_, [[&str; 2]; 2]>(asked, bytes, room, ctx),
        3 => read::<_, &[u8]>(asked, bytes, room, count),
        4 => read::<_, [&[u8]; 3]>(asked, bytes, room, count),
        5 => read::<_, CStr>(asked, bytes, room, ()),
        6 => read::<_, [CStr; 2]>(asked, bytes, room, ()),
        _ => read::<_, std::ffi::CStr>(asked, bytes, room, ()),
    }
}

#[unsafe(no_mangle)]
pub extern "C" fn rt_read_leb(
    asked: &Asked,
    bytes: &mut [u8],
    _given: &[u8],
    room: &mut [u8],
) -> usize {
    match asked.kind {
        0 => read::<_, Uleb128>(asked, bytes, room, ()),
        1 => read::<_, Sleb128>(asked, bytes, room, ()),
        2 => read::<_, [Uleb128; 3]>(asked, bytes, room, ()),
        _ => read::<_, [[Sleb128; 2]; 2]>(asked, bytes, room, ()),
    }
}

/// Reads as many values as there are given bytes, in a context or in the default one.
fn fill<'a, C: Copy + Default, N: ReadFrom<&'a [u8], C, Error = Error> + Show + Drop>(
    asked: &Asked,
    source: &'a [u8],
    given: &[u8],
    room: &mut [u8],
    ctx: C,
    mut values: [N; 7],
) -> usize {
    let answer = &mut Answer::new(room);
    let mut offset = asked.place;
    let count = given.len() % 8;
    let result = if asked.form % 2 == 0 {
        source.gread_inout_with(&mut offset, &mut values[..count], ctx)
    } else {
        source.gread_inout(&mut offset, &mut values[..count])
    };
    if let Err(error) = result {
        answer.error(&error);
    }
    answer.size(offset);
    values.show(answer);
    answer.len
}

#[unsafe(no_mangle)]
pub extern "C" fn rt_bulk(asked: &Asked, bytes: &mut [u8], given: &[u8], room: &mut [u8]) -> usize {
    let ctx = order(asked);
    match asked.kind {
        0 => fill(asked, bytes, given, room, ctx, [9u8; 7]),
        1 => fill(asked, bytes, given, room, ctx, [9u16; 7]),
        2 => fill(asked, bytes, given, room, ctx, [9u64; 7]),
        3 => fill(asked, bytes, given, room, ctx, [-9i32; 7]),
        4 => fill(asked, bytes, given, room, ctx, [-9i128; 7]),
        5 => fill(asked, bytes, given, room, ctx, [1.5f32; 7]),
        6 => fill(asked, bytes, given, room, ctx, [[9u16, 8]; 7]),
        7 => {
            let source = &bytes[..];
            match std::str::from_utf8(&source[..0]) {
                Ok(empty) => fill(asked, source, given, room, text_end(asked), [empty; 7]),
                Err(_) => 0,
            }
        }
        _ => fill(asked, bytes, given, room, (), [Uleb128::shortest(300); 7]),
    }
}

// How many bytes the largest of the values is made of.
const MOST: usize = 20;

#[unsafe(no_mangle)]
pub extern "C" fn rt_write_number(
    asked: &Asked,
    bytes: &mut [u8],
    given: &[u8],
    room: &mut [u8],
) -> usize {
    if given.len() < MOST {
        return 0;
    }
    let ctx = order(asked);
    match asked.kind {
        0 => write(asked, bytes, room, given.cread_with::<u8>(0, LE), ctx),
        1 => write(asked, bytes, room, given.cread_with::<u16>(0, LE), ctx),
        2 => write(asked, bytes, room, given.cread_with::<u32>(0, LE), ctx),
        3 => write(asked, bytes, room, given.cread_with::<u64>(0, LE), ctx),
        4 => write(asked, bytes, room, given.cread_with::<u128>(0, LE), ctx),
        5 => write(asked, bytes, room, given.cread_with::<i8>(0, LE), ctx),
        6 => write(asked, bytes, room, given.cread_with::<i16>(0, LE), ctx),
        7 => write(asked, bytes, room, given.cread_with::<i32>(0, LE), ctx),
        8 => write(asked, bytes, room, given.cread_with::<i64>(0, LE), ctx),
        9 => write(asked, bytes, room, given.cread_with::<i128>(0, LE), ctx),
        10 => write(asked, bytes, room, given.cread_with::<f32>(0, LE), ctx),
        _ => write(asked, bytes, room, given.cread_with::<f64>(0, LE), ctx),
    }
}

#[unsafe(no_mangle)]
pub extern "C" fn rt_write_array(
    asked: &Asked,
    bytes: &mut [u8],
    given: &[u8],
    room: &mut [u8],
) -> usize {
    if given.len() < MOST {
        return 0;
    }
    let ctx = order(asked);
    match asked.kind {
        0 => write(asked, bytes, room, given.cread_with::<[u8; 4]>(0, LE), ctx),
        1 => write(asked, bytes, room, given.cread_with::<[i32; 5]>(0, LE), ctx),
        2 => write(asked, bytes, room, given.cread_with::<[f32; 3]>(0, LE), ctx),
        3 => write(
            asked,
            bytes,
            room,
            given.cread_with::<[[u16; 2]; 2]>(0, LE),
            ctx,
        ),
        4 => write(
            asked,
            bytes,
            room,
            given.cread_with::<[[[i8; 2]; 3]; 2]>(0, LE),
            ctx,
        ),
        5 => write(asked, bytes, room, &given.cread_with::<u16>(0, LE), ctx),
        6 => write(asked, bytes, room, &given.cread_with::<i128>(0, LE), ctx),
        _ => write(asked, bytes, room, &given.cread_with::<f64>(0, LE), ctx),
    }
}

/// The given bytes, as a slice or a text or in an array; what is read from them is written as C
/// strings and LEB128.
#[unsafe(no_mangle)]
pub extern "C" fn rt_write_bytes(
    asked: &Asked,
    bytes: &mut [u8],
    given: &[u8],
    room: &mut [u8],
) -> usize {
    let prefix = given.get(..(asked.b % 16) as usize).unwrap_or(given);
    match asked.kind {
        0 => write(asked, bytes, room, given, ()),
        1 => write(asked, bytes, room, [prefix, given, prefix], ()),
        2 => match std::str::from_utf8(given) {
            Ok(text) => write(asked, bytes, room, text, ()),
            Err(_) => 0,
        },
        3 => match std::str::from_utf8(given) {
            Ok(text) => write(asked, bytes, room, [text, text], ()),
            Err(_) => 0,
        },
        4 => match given.pread_with::<CStr>(0, ()) {
            Ok(text) => write(asked, bytes, room, text, ()),
            Err(_) => 0,
        },
        5 => match given.pread_with::<std::ffi::CStr>(0, ()) {
            Ok(text) => write(asked, bytes, room, text, ()),
            Err(_) => 0,
        },
        6 => match given.pread_with::<Uleb128>(0, ()) {
            Ok(number) => write(asked, bytes, room, number, ()),
            Err(_) => 0,
        },
        _ => match given.pread_with::<Sleb128>(0, ()) {
            Ok(number) => write(asked, bytes, room, number, ()),
            Err(_) => 0,
        },
    }
}

/// Reads a value that owns its memory.
fn own<'a, N: ReadFrom<&'a [u8], &'a Global, Error = Error> + Show + Drop>(
    alloc: &'a Global,
    asked: &Asked,
    source: &'a [u8],
    room: &mut [u8],
) -> usize {
    let mut offset = asked.place;
    let outcome = if asked.form % 2 == 0 {
        source.pread_with::<N>(offset, alloc)
    } else {
        source.gread_with::<N>(&mut offset, alloc)
    };
    let answer = &mut Answer::new(room);
    answer.outcome(outcome);
    answer.size(offset);
    answer.len
}

/// Reads a C string, writes one that is read from the given bytes, or makes one of these.
#[unsafe(no_mangle)]
pub extern "C" fn rt_owned(
    alloc: Global,
    asked: &Asked,
    bytes: &mut [u8],
    given: &[u8],
    room: &mut [u8],
) -> usize {
    match asked.kind {
        0 => own::<CString>(&alloc, asked, bytes, room),
        1 => own::<std::ffi::CString>(&alloc, asked, bytes, room),
        2 => match given.pread_with::<CString>(0, &alloc) {
            Ok(text) => write(asked, bytes, room, text, ()),
            Err(_) => 0,
        },
        3 => match given.pread_with::<std::ffi::CString>(0, &alloc) {
            Ok(text) => write(asked, bytes, room, text, ()),
            Err(_) => 0,
        },
        _ => {
            let answer = &mut Answer::new(room);
            answer.outcome(CString::new(alloc, given));
            answer.len
        }
    }
}
