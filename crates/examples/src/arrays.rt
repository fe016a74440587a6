// Arrays: of numbers, of arrays, of values that borrow, and of a length and elements that the
// caller chooses; and the triangles of a mesh, from a binary STL file: floats in a struct, and
// structs and an array of them in a struct.
//
// An STL file has 80 bytes of any kind, the number of its triangles in 32 bits, and then the
// triangles, 50 bytes each. All its numbers are little-endian.
mod derived;

ghost use Rattle.std.specs.Prelude.{◌≡◌, [], ◌∷◌, IfOk, IfErr, IfSome, OnErr, ◌≤◌, ◌<◌, ◌^◌, ◌+◌, ◌*◌, length, drop, IsOk};
ghost use Rattle.std.specs.Float.{binary32};
ghost use Rattle.scroll.specs.Arrays.{ReadsArray, RefusesArray, MakesArray, SlotsFit};
ghost use Rattle.scroll.specs.Bytes.{RefusesShort};
ghost use Rattle.scroll.specs.Errors.{IsBadOffset};
ghost use Rattle.scroll.specs.Numbers.{float, ReadsNumber, number};
ghost use Rattle.scroll.specs.Reads.{ReadsBetween, ReadsSome, RefusesAt};
ghost use Rattle.scroll.specs.Texts.{ReadsText};
ghost use Rattle.scroll.specs.declared.ctx.str_ctx.StrCtx.TheVariants.{Delimiter};
ghost use Rattle.scroll.specs.declared.endian.Endian.TheVariants.{Little};
ghost use Rattle.scroll.specs.declared.error.Error.TheVariants.{BadOffset};

use crate::results::{check_eq, check_error, check_too_big, check_value};
use scroll::ctx::{NULL, StrCtx, TryFromCtx, array_fits};
use scroll::{Endian, Error, LE, Pread, Result};
use std::result;

/// Reads a point at a cursor: three coordinates of 16 bits, little-endian.
pub fn read_point(file: &[u8], offset: &mut usize) -> Result<[u16; 3]>
    ensures read { IfOk result (ReadsBetween (ReadsArray (ReadsNumber 2 Little) 3) file.now offset.old offset.new) }
    ensures refused { IfErr result (RefusesAt (RefusesArray (ReadsNumber 2 Little) (λ s. RefusesShort 2 s) IsBadOffset 3) IsBadOffset file.now offset.old) }
    ensures stays { OnErr result (offset.new ≡ offset.old) }
{
    file.gread_with(offset, LE)
}

/// Reads a line: two points.
pub fn read_line(file: &[u8], offset: &mut usize) -> Result<[[u16; 3]; 2]>
    ensures read { IfOk result (ReadsBetween (ReadsArray (ReadsArray (ReadsNumber 2 Little) 3) 2) file.now offset.old offset.new) }
    ensures refused { IfErr result (RefusesAt (RefusesArray (ReadsArray (ReadsNumber 2 Little) 3) (RefusesArray (ReadsNumber 2 Little) (λ s. RefusesShort 2 s) IsBadOffset 3) IsBadOffset 2) IsBadOffset file.now offset.old) }
{
    file.gread_with(offset, LE)
}

/// Returns the greatest coordinate of the point at an offset.
pub fn greatest(file: &[u8], offset: usize) -> Result<u16> {
    let point: [u16; 3] = file.pread_with(offset, LE)?;
    let [x, y, z] = point;
    Ok(x.max(y).max(z))
}

#[test]
fn a_point(rt: HostRuntime) {
    let rt = &rt;
    let bytes: [u8; 7] = [1, 0, 2, 0, 3, 0, 9];
    let offset = &mut 0;
    check_value(rt, greatest(&bytes, 0), 3);
    check_value(rt, read_point(&bytes, offset), [1, 2, 3]);
    check_eq(rt, *offset, 6);
    check_too_big(rt, read_line(&bytes, offset), 2, 1);
    check_eq(rt, *offset, 6);
}

/// Returns the three names at the start of a file, each of which a zero ends.
pub fn read_names(file: &[u8]) -> Result<(&str, &str, &str)>
    ensures read { IfOk result (ReadsSome (λ source x n. ReadsArray (ReadsText (Delimiter 0)) 3 source (x.0.now ∷ x.1.now ∷ x.2.now ∷ []) n) file.now 0) }
{
    file.pread_with(0, StrCtx::Delimiter(NULL)).map(take_apart)
}

// Returns the three strings of an array.
fn take_apart<'a>(names: [&'a str; 3]) -> (&'a str, &'a str, &'a str)
    ensures { names.entry ≡ result.0 ∷ result.1 ∷ result.2 ∷ [] }
{
    (names[0], names[1], names[2])
}

#[test]
fn three_names(rt: HostRuntime) {
    let rt = &rt;
    check_value(rt, read_names(b"ab\0c\0\0"), ("ab", "c", ""));
    check_eq(rt, read_names(b"ab").is_err(), true);
}

/// Returns the first `N` values of a file, little-endian.
pub fn first_values<
    'a,
    E: From<Error>,
    T: TryFromCtx<'a, Endian, Error = E> + Drop + 'a,
    const N: usize,
>(file: &'a [u8]) -> result::Result<[T; N], E>
    requires fits { SlotsFit T.row N.row }
    ensures read { IfOk result (ReadsSome (ReadsArray (T.reads Little) N) file.now 0) }
    ensures refused { IfErr result (RefusesAt (RefusesArray (T.reads Little) (T.refuses Little) (λ offset e. E.from_gives (BadOffset offset) e) N) (λ offset e. E.from_gives (BadOffset offset) e) file.now 0) }
{
    file.pread_with(0, LE)
}

/// The same without a requirement on the caller: returns `None` where that many values don't fit in
/// memory.
pub fn try_first_values<
    'a,
    E: From<Error>,
    T: TryFromCtx<'a, Endian, Error = E> + Drop + 'a,
    const N: usize,
>(file: &'a [u8]) -> Option<result::Result<[T; N], E>>
    ensures refused { IfSome result (λ values. IfErr values (RefusesAt (RefusesArray (T.reads Little) (T.refuses Little) (λ offset e. E.from_gives (BadOffset offset) e) N) (λ offset e. E.from_gives (BadOffset offset) e) file.now 0)) }
{
    if array_fits::<T, N>() {
        Some(first_values(file))
    } else {
        None
    }
}

#[test]
fn values_of_a_file(rt: HostRuntime) {
    let rt = &rt;
    let file: [u8; 5] = [1, 0, 2, 0, 3];
    check_value(rt, first_values::<Error, u16, 2>(&file), [1, 2]);
    let three = try_first_values::<Error, u16, 3>(&file);
    check_too_big(rt, three.expect(rt, "an array that fits"), 2, 1);
}

/// A point, or a direction.
// #[derive(Pread, Pwrite)]
#[derive(Clone, Copy, Debug, PartialEq)]
pub struct Point {
    pub x: f32,
    pub y: f32,
    pub z: f32,
}

/// A triangle of a mesh: a normal, three corners, and 16 bits that programs use freely.
// #[derive(Pread, Pwrite)]
#[derive(Clone, Copy, Debug, PartialEq)]
pub struct Triangle {
    pub normal: Point,
    pub corners: [Point; 3],
    pub attribute: u16,
}

/// Returns the triangle with this index, counted from 0. A file that ends before the triangle does
/// returns [`Error::TooBig`](scroll::Error::TooBig), and one that ends before the triangle starts
/// [`Error::BadOffset`](scroll::Error::BadOffset).
pub fn read_triangle(file: &[u8], index: u32) -> Result<Triangle>
    ensures normal { IfOk result (λ triangle. let s = drop (84 + 50 * index) file.now in
        (triangle.normal.x ≡ float binary32 Little s)
        × (triangle.normal.y ≡ float binary32 Little (drop 4 s))
        × (triangle.normal.z ≡ float binary32 Little (drop 8 s))) }
    ensures corners { IfOk result (λ triangle. MakesArray 12 (λ s x.
        (x.x ≡ float binary32 Little s)
        × (x.y ≡ float binary32 Little (drop 4 s))
        × (x.z ≡ float binary32 Little (drop 8 s))) 3 (drop 12 (drop (84 + 50 * index) file.now)) triangle.corners) }
    ensures attribute { IfOk result (λ triangle.
        triangle.attribute ≡ number Little 2 (drop 48 (drop (84 + 50 * index) file.now))) }
    ensures refused { IfErr result (RefusesAt (RefusesShort 50) IsBadOffset file.now (84 + 50 * index)) }
    ensures room { 84 + 50 * (index + 1) ≤ length file.now → IsOk result }
{
    file.pread_with(84 + 50 * index as usize, LE)
}

// Python 3.11 made this file by `struct`: b'mesh'.ljust(80, b'\\0') + pack('<I', 2), and for each
// triangle pack('<12fH', ..) of the numbers below.
const FILE: [u8; 184] = [
    0x6d, 0x65, 0x73, 0x68, 0, 0, 0, 0, 0, 0, 0, 0, 0, 0, 0, 0, 0, 0, 0, 0, 0, 0, 0, 0, 0, 0, 0, 0,
    0, 0, 0, 0, 0, 0, 0, 0, 0, 0, 0, 0, 0, 0, 0, 0, 0, 0, 0, 0, 0, 0, 0, 0, 0, 0, 0, 0, 0, 0, 0, 0,
    0, 0, 0, 0, 0, 0, 0, 0, 0, 0, 0, 0, 0, 0, 0, 0, 0, 0, 0, 0, 0x02, 0, 0, 0, 0, 0, 0, 0, 0, 0, 0,
    0, 0, 0, 0x80, 0x3f, 0, 0, 0, 0, 0, 0, 0, 0, 0, 0, 0, 0x3f, 0, 0, 0x80, 0x3f, 0, 0, 0, 0, 0, 0,
    0, 0x3f, 0, 0, 0, 0, 0, 0, 0x80, 0x3f, 0, 0, 0, 0x3f, 0, 0, 0, 0, 0x80, 0xbf, 0, 0, 0, 0, 0, 0,
    0, 0, 0, 0, 0, 0x80, 0xcd, 0xcc, 0xcc, 0x3d, 0, 0, 0xc0, 0xbf, 0x6f, 0x12, 0x83, 0x3a, 0, 0xe0,
    0x7f, 0x47, 0x9e, 0xc9, 0x7f, 0x7f, 0, 0, 0x10, 0xc0, 0xc2, 0x16, 0x01, 0, 0, 0, 0xe0, 0x40,
    0x1f, 0x80,
];

fn make_point(x: f32, y: f32, z: f32) -> Point {
    Point { x, y, z }
}

#[test]
fn triangles_are_read(rt: HostRuntime) {
    let rt = &rt;
    let first = Triangle {
        normal: make_point(0.0, 0.0, 1.0),
        corners: [
            make_point(0.0, 0.0, 0.5),
            make_point(1.0, 0.0, 0.5),
            make_point(0.0, 1.0, 0.5),
        ],
        attribute: 0,
    };
    check_value(rt, read_triangle(&FILE, 0), first);
    let second = Triangle {
        normal: make_point(-1.0, 0.0, 0.0),
        corners: [
            make_point(-0.0, 0.1, -1.5),
            make_point(1e-3, 65504.0, 3.4e38),
            make_point(-2.25, 1e-40, 7.0),
        ],
        attribute: 0x801f,
    };
    check_value(rt, read_triangle(&FILE, 1), second);
    check_error(rt, read_triangle(&FILE, 3), ("BadOffset", 234, 0));
    check_too_big(rt, read_triangle(&FILE[..183], 1), 50, 49);
}
