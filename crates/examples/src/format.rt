// A struct of numbers in a byte order that is chosen at run time, read field by field, and as a
// type. `read_back` alone has a proof.
mod derived;

ghost use Rattle.std.specs.Prelude.{◌≡◌, ◌≤◌, ◌<◌, ◌^◌, ◌++◌, length, take, drop, IfOk, IsOk, OnOk};
ghost use Rattle.scroll.specs.Numbers.{number, number_bytes};
ghost use Rattle.scroll.specs.declared.endian.Endian.TheVariants.{Big};

use crate::results::{check_eq, check_too_big, check_value};
use scroll::laws::fixed_size_is_written_back;
use scroll::{BE, Cread, Endian, LE, Pread, Pwrite, Result, check_room, slice};

/// How sound is stored.
// #[derive(Pread, Pwrite)]
#[derive(Clone, Copy, Debug, PartialEq)]
pub struct Format {
    pub tag: u16,
    pub channels: u16,
    pub rate: u32,
}

const SIZE: usize = 8;

/// Returns the format at the start of a file.
pub fn read_format(file: &[u8], order: Endian) -> Result<Format>
    ensures tag { IfOk result (λ format. format.tag ≡ number order 2 file.now) }
    ensures channels { IfOk result (λ format. format.channels ≡ number order 2 (drop 2 file.now)) }
    ensures rate { IfOk result (λ format. format.rate ≡ number order 4 (drop 4 file.now)) }
    ensures room { 8 ≤ length file.now → IsOk result }
    ensures whole { OnOk result (8 ≤ length file.now) }
{
    check_room(SIZE, file.len())?;
    Ok(Format {
        tag: file.cread_with(0, order),
        channels: file.cread_with(2, order),
        rate: file.cread_with(4, order),
    })
}

/// Returns the format at the start of a file, read as a type.
pub fn read_whole(file: &[u8], order: Endian) -> Result<Format>
    ensures tag { IfOk result (λ format. format.tag ≡ number order 2 file.now) }
    ensures channels { IfOk result (λ format. format.channels ≡ number order 2 (drop 2 file.now)) }
    ensures rate { IfOk result (λ format. format.rate ≡ number order 4 (drop 4 file.now)) }
    ensures room { 8 ≤ length file.now → IsOk result }
    ensures whole { OnOk result (8 ≤ length file.now) }
{
    file.pread_with(0, order)
}

/// Returns the format at the start of a file, whose bytes are those by which it is written.
pub fn read_back(file: &[u8]) -> Result<Format>
    ensures back { IfOk result (λ x. number_bytes Big 2 x.tag
        ++ (number_bytes Big 2 x.channels ++ number_bytes Big 4 x.rate) ≡ take 8 file.now) }
{
    fixed_size_is_written_back::<Format>();
    let format: Format = file.pread_with(0, BE)?;
    Ok(format)
}

/// Writes two formats, one after the other.
pub fn write_two(file: &mut [u8], first: Format, second: Format, order: Endian) -> Result<usize>
    ensures size { IfOk result (λ size. size ≡ 16) }
    ensures others { OnOk result (drop 16 file.new ≡ drop 16 file.old) }
    ensures room { 16 ≤ length file.old → IsOk result }
{
    let mut offset = 0;
    slice::gwrite_with(file, first, &mut offset, order)?;
    slice::gwrite_with(file, second, &mut offset, order)?;
    Ok(offset)
}

// #[derive(Pread, Pwrite)]
#[derive(Clone, Copy, Debug, PartialEq, Eq)]
struct Data {
    one: u32,
    two: u16,
    three: u8,
}

#[test]
fn formats_read_back(rt: HostRuntime) {
    let rt = &rt;
    let format = Format {
        tag: 1,
        channels: 2,
        rate: 44100,
    };
    let mut file = [0u8; 17];
    for order in &[LE, BE] {
        check_value(rt, write_two(&mut file, format, format, *order), 16);
        check_value(rt, read_format(&file, *order), format);
        check_value(rt, read_whole(&file, *order), format);
        check_value(rt, file.pread_with(8, *order), format);
    }
    check_value(rt, read_back(&file), format);
    check_eq(
        rt,
        &file,
        b"\x00\x01\x00\x02\x00\x00\xac\x44\x00\x01\x00\x02\x00\x00\xac\x44\x00",
    );
    check_too_big(rt, file.pread_with::<Format>(10, LE), 8, 7);
}

#[test]
fn three_numbers(rt: HostRuntime) {
    let rt = &rt;
    let bytes: [u8; 7] = [0xde, 0xad, 0xbe, 0xef, 0xfa, 0xce, 0xff];
    let data = Data {
        one: 0xdeadbeef,
        two: 0xface,
        three: 0xff,
    };
    let source = &bytes[..];
    check_value(rt, source.pread_with(0, BE), data);
    check_too_big(rt, source.pread_with::<Data>(1, BE), 7, 6);
    let mut out = [0u8; 7];
    let mut target = &mut out[..];
    check_value(rt, target.pwrite_with(data, 0, BE), 7);
    check_too_big(rt, target.pwrite_with(data, 1, BE), 7, 6);
    check_eq(rt, out, bytes);
}
