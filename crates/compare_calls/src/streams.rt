//! Values over streams that move a few bytes at a time.
ghost use Rattle.std.specs.Prelude.{◌≤◌};

use crate::call::{Answer, Asked, Show, order};
use scroll::ctx::{FromCtx, IntoCtx, SizeWith};
use scroll::{Cread, Endian, IOread, IOwrite, LE};
use std::io;
use std::io::{Read, Write};

#[derive(Drop)]
struct Source<'a> {
    rest: &'a [u8],
    piece: usize,
}

impl<'a> Read for Source<'a> {
    fn read(&mut self, buf: &mut [u8]) -> io::Result<usize> {
        let count = buf.len().min(self.piece);
        self.rest.read(&mut buf[..count])
    }
}

#[derive(Drop)]
struct Sink<'a> {
    rest: &'a mut [u8],
    piece: usize,
}

impl<'a> Write for Sink<'a> {
    fn write(&mut self, buf: &[u8]) -> io::Result<usize> {
        let count = buf.len().min(self.piece);
        self.rest.write(&buf[..count])
    }

    fn flush(&mut self) -> io::Result<()> {
        Ok(())
    }
}

fn piece(asked: &Asked) -> usize {
    (asked.b % 5) as usize + 1
}

/// Reads three values, or as many as there are.
pub fn pull<N: FromCtx<Endian> + SizeWith<Endian> + Show + Drop>(
    asked: &Asked,
    bytes: &[u8],
    room: &mut [u8],
) -> usize
    requires need { (ctx : Endian) → N.need ctx ≤ N.size ctx }
    requires size { (ctx : Endian) → N.size ctx ≤ 256 }
{
    let answer = &mut Answer::new(room);
    let mut source = Source {
        rest: bytes,
        piece: piece(asked),
    };
    for _ in 0..3 {
        let result = if asked.form % 2 == 0 {
            source.ioread_with::<N>(order(asked))
        } else {
            source.ioread::<N>()
        };
        match result {
            Ok(value) => value.show(answer),
            Err(_) => {
                answer.ended();
                break;
            }
        }
    }
    answer.len
}

#[unsafe(no_mangle)]
pub extern "C" fn rt_ioread(
    asked: &Asked,
    bytes: &mut [u8],
    _given: &[u8],
    room: &mut [u8],
) -> usize {
    match asked.kind {
        0 => pull::<u8>(asked, bytes, room),
        1 => pull::<u32>(asked, bytes, room),
        2 => pull::<i64>(asked, bytes, room),
        3 => pull::<u128>(asked, bytes, room),
        4 => pull::<f32>(asked, bytes, room),
        _ => pull::<f64>(asked, bytes, room),
    }
}

/// Writes a value three times, or as often as there is room for it.
pub fn push<N: IntoCtx<Endian> + SizeWith<Endian> + Copy>(
    asked: &Asked,
    bytes: &mut [u8],
    room: &mut [u8],
    value: N,
) -> usize
    requires need { (ctx : Endian) → N.need ctx ≤ N.size ctx }
    requires size { (ctx : Endian) → N.size ctx ≤ 256 }
{
    let answer = &mut Answer::new(room);
    let mut target = Sink {
        rest: bytes,
        piece: piece(asked),
    };
    for _ in 0..3 {
        let result = if asked.form % 2 == 0 {
            target.iowrite_with(value, order(asked))
        } else {
            target.iowrite(value)
        };
        if result.is_err() {
            answer.ended();
            break;
        }
    }
    answer.len
}

#[unsafe(no_mangle)]
pub extern "C" fn rt_iowrite(
    asked: &Asked,
    bytes: &mut [u8],
    given: &[u8],
    room: &mut [u8],
) -> usize {
    if given.len() < 16 {
        return 0;
    }
    match asked.kind {
        0 => push(asked, bytes, room, given.cread_with::<u8>(0, LE)),
        1 => push(asked, bytes, room, given.cread_with::<u32>(0, LE)),
        2 => push(asked, bytes, room, given.cread_with::<i64>(0, LE)),
        3 => push(asked, bytes, room, given.cread_with::<u128>(0, LE)),
        4 => push(asked, bytes, room, given.cread_with::<f32>(0, LE)),
        _ => push(asked, bytes, room, given.cread_with::<f64>(0, LE)),
    }
}
