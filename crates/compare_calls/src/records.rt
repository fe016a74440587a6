//! Reads and writes of structs whose implementations tools/derive wrote.
ghost use Rattle.std.specs.Prelude.{◌≤◌};

use crate::bounds::has_room;
use crate::call::{Answer, Asked, Show, order, read, write};
use crate::streams::{pull, push};
use crate::structs::{Entry, Label, Sample, Wide};
use scroll::ctx::{FromCtx, IntoCtx, SizeWith};
use scroll::{Cread, Cwrite, Endian, LE};

macro_rules! show {
    ($self:ident, $answer:ident; $($field:ident),*) => {
        $($self.$field.show($answer);)*
    };
}

impl Show for Entry {
    fn show(&self, answer: &mut Answer) {
        show!(self, answer; id, time, parts);
    }
}

impl Show for Wide {
    fn show(&self, answer: &mut Answer) {
        show!(self, answer; flag, wide, small);
    }
}

impl Show for Label {
    fn show(&self, answer: &mut Answer) {
        show!(self, answer; id, name);
    }
}

impl Show for Sample {
    fn show(&self, answer: &mut Answer) {
        show!(self, answer; kind, weight, height, balance, count, last);
    }
}

// How many given bytes the structs are made of, whichever it is.
const MOST: usize = 39;

#[unsafe(no_mangle)]
pub extern "C" fn rt_read_struct(
    asked: &Asked,
    bytes: &mut [u8],
    _given: &[u8],
    room: &mut [u8],
) -> usize {
    let ctx = order(asked);
    match asked.kind {
        0 => read::<_, Entry>(asked, bytes, room, ctx),
        1 => read::<_, Wide>(asked, bytes, room, ctx),
        2 => read::<_, Label>(asked, bytes, room, ctx),
        _ => read::<_, Sample>(asked, bytes, room, ctx),
    }
}

#[unsafe(no_mangle)]
pub extern "C" fn rt_write_struct(
    asked: &Asked,
    bytes: &mut [u8],
    given: &[u8],
    room: &mut [u8],
) -> usize {
    if given.len() < MOST {
        return 0;
    }
    let ctx = order(asked);
    match asked.kind {
        0 => write(asked, bytes, room, given.cread_with::<Entry>(0, LE), ctx),
        1 => write(asked, bytes, room, given.cread_with::<Wide>(0, LE), ctx),
        2 => write(asked, bytes, room, given.cread_with::<Label>(0, LE), ctx),
        _ => write(asked, bytes, room, given.cread_with::<Sample>(0, LE), ctx),
    }
}

/// A struct in bounds, over a stream in pieces, and its size.
fn other<N: FromCtx<Endian> + IntoCtx<Endian> + SizeWith<Endian> + Show + Copy>(
    asked: &Asked,
    bytes: &mut [u8],
    given: &[u8],
    room: &mut [u8],
) -> usize
    requires made { (ctx : Endian) → N.FromCtx.need ctx ≤ N.SizeWith.size ctx }
    requires need { (ctx : Endian) → N.IntoCtx.need ctx ≤ N.SizeWith.size ctx }
    requires size { (ctx : Endian) → N.SizeWith.size ctx ≤ 39 }
{
    let place = asked.place;
    let ctx = order(asked);
    if given.len() < MOST || !has_room(place, N::size_with(&ctx), bytes) {
        return 0;
    }
    match asked.form % 4 {
        0 => {
            let source = &bytes[..];
            let answer = &mut Answer::new(room);
            source.cread_with::<N>(place, ctx).show(answer);
            answer.size(N::size_with(&ctx));
            answer.len
        }
        1 => {
            let mut target = &mut bytes[..];
            target.cwrite_with(given.cread_with::<N>(0, LE), place, ctx);
            0
        }
        2 => pull::<N>(asked, bytes, room),
        _ => push(asked, bytes, room, given.cread_with::<N>(0, LE)),
    }
}

#[unsafe(no_mangle)]
pub extern "C" fn rt_struct(
    asked: &Asked,
    bytes: &mut [u8],
    given: &[u8],
    room: &mut [u8],
) -> usize {
    match asked.kind {
        0 => other::<Entry>(asked, bytes, given, room),
        1 => other::<Wide>(asked, bytes, given, room),
        2 => other::<Label>(asked, bytes, given, room),
        _ => other::<Sample>(asked, bytes, given, room),
    }
}
