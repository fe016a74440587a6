// Optional values and enums of numbers whose encodings are of any length: each reads back whole.
mod derived;

ghost use Rattle.std.specs.Prelude.{◌≡◌, IfOk};

use crate::{Octal, Uleb};
use scroll::{BE, Endian, Pread, Result, slice};
use std::result;
use std::test::Fail;

/// A place.
// #[derive(Pread, Pwrite)]
#[derive(Clone, Copy)]
pub struct Spot {
    pub x: i16,
    pub y: i16,
}

/// What has happened.
// #[derive(Part)]
// #[scroll(given = kind: u8)]
#[derive(Clone, Copy)]
pub enum Event {
    // #[scroll(is = 0)]
    Ended,
    // #[scroll(is = 1)]
    Moved(i16, Spot),
    // #[scroll(is = 2)]
    Counted(Uleb),
}

/// A line of a journal.
// #[derive(Pread, Pwrite)]
#[derive(Clone, Copy)]
pub struct Line<'a> {
    pub kind: u8,
    pub flags: u8,
    // #[scroll(if = flags & 1 != 0)]
    pub count: Option<Uleb>,
    // #[scroll(if = flags & 2 != 0)]
    pub mode: Option<Octal<4>>,
    // #[scroll(if = flags & 4 != 0)]
    pub spot: Option<Spot>,
    // #[scroll(ctx = kind)]
    pub event: Event,
    pub len: u8,
    // #[scroll(ctx = len as usize)]
    pub name: &'a [u8],
}

/// Writes a line and reads it: what it has is the same, or is none again.
pub fn line_again(
    target: &mut [u8],
    line: Line,
    order: Endian,
) -> Result<(Option<Uleb>, Option<Octal<4>>, Option<Spot>, Event)>
    ensures count { IfOk result (λ again. again.0 ≡ line.entry.count) }
    ensures mode { IfOk result (λ again. again.1 ≡ line.entry.mode) }
    ensures spot { IfOk result (λ again. again.2 ≡ line.entry.spot) }
    ensures event { IfOk result (λ again. again.3 ≡ line.entry.event) }
{
    slice::gwrite_with(target, line, &mut 0, order)?;
    let again: Line = (&*target).pread_with(0, order)?;
    Ok((again.count, again.mode, again.spot, again.event))
}

static MOVED: [u8; 21] = [
    1, 7, 0xac, 2, b'0', b'6', b'4', b'4', 0xff, 0xfe, 0, 7, 0, 5, 0, 1, 0, 2, 2, b'h', b'i',
];

static COUNTED: [u8; 6] = [2, 0, 0x81, 0x80, 0, 0];

#[test]
fn lines_read_back(rt: HostRuntime) -> result::Result<(), Fail> {
    let mut target = [0u8; 32];
    let line: Line = MOVED.pread_with(0, BE)?;
    let (count, mode, spot, event) = line_again(&mut target, line, BE)?;
    assert!(rt; matches!(&count, Some(it) if it.value == 300));
    assert!(rt; matches!(&mode, Some(it) if it.value == 420));
    assert!(rt; matches!(&spot, Some(Spot { x: -2, y: 7 })));
    assert!(rt; matches!(&event, Event::Moved(5, Spot { x: 1, y: 2 })));
    let line: Line = COUNTED.pread_with(0, BE)?;
    let (count, mode, spot, event) = line_again(&mut target, line, BE)?;
    assert!(rt; count.is_none() && mode.is_none() && spot.is_none());
    assert!(rt; matches!(&event, Event::Counted(it) if it.value == 1 && it.count == 3));
    Ok(())
}
