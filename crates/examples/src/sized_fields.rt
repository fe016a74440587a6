// Three numbers whose width the context says, and a name and a value, each after its length. The
// numbers must ascend, and the error is the caller's own.
ghost use Rattle.std.specs.Prelude.{◌≡◌, ℕ, ◌≤◌, ◌<◌, ◌+◌, ◌*◌, [], ◌∷◌, length, take, drop, ◌⊎◌, IfOk, IfErr, IsUtf8};
ghost use Rattle.std.proofs.Common.{rules};
ghost use Rattle.std.proofs.lemmas.Grind.{common_steps};
ghost use Rattle.scroll.specs.Bytes.{RefusesShort};
ghost use Rattle.scroll.specs.Numbers.{number};
ghost use Rattle.scroll.specs.Texts.{ReadsText, RefusesText, ReadsSlice};
ghost use Rattle.scroll.specs.declared.ctx.str_ctx.StrCtx.TheVariants.{Length};
ghost use Rattle.scroll.specs.declared.error.Error.{Error};
ghost use Rattle.examples.specs.declared.sized_fields.DataError.TheVariants.{BadFieldMatchup, Scroll};
ghost use Rattle.examples.specs.declared.sized_fields.FieldSize.TheVariants.{U32, U64};

use crate::results::{check_eq, check_too_big, check_value};
use scroll::ctx::{StrCtx, TryFromCtx};
use scroll::{BE, Endian, Error, Pread, Result};
use std::result;

// How wide the fields are.
#[derive(Clone, Copy)]
enum FieldSize {
    U32,
    U64,
}

#[derive(Clone, Copy)]
struct Context {
    fieldsize: FieldSize,
    endianess: Endian,
}

#[derive(Clone, Copy, Debug, PartialEq, Eq)]
struct Data<'b> {
    field_a: u64,
    field_b: u64,
    field_c: u64,
    name: &'b str,
    value: &'b [u8],
}

#[derive(Debug, Drop)]
enum DataError {
    // The fields don't ascend.
    BadFieldMatchup,
    Scroll(Error),
}

impl From<Error> for DataError {
    ghost from_gives = { λ error e. e ≡ Scroll error };

    fn from(error: Error) -> DataError {
        DataError::Scroll(error)
    }
}

// Reads the field at an offset.
fn read_field(from: &[u8], offset: &mut usize, ctx: Context) -> Result<u64>
    requires { offset.old ≤ length from.now }
    ensures read { IfOk result (λ x. let w : ℕ = elim ctx.fieldsize [ U32 ↦ 4 | U64 ↦ 8 ] in
        (offset.old + w ≤ length from.now) × (x ≡ number ctx.endianess w (drop offset.old from.now)) × (offset.new ≡ offset.old + w)) }
    ensures refused { IfErr result (RefusesShort (elim ctx.fieldsize [ U32 ↦ 4 | U64 ↦ 8 ]) (drop offset.old from.now)) }
{
    match ctx.fieldsize {
        FieldSize::U32 => from.gread_with::<u32>(offset, ctx.endianess).map(u64::from),
        FieldSize::U64 => from.gread_with(offset, ctx.endianess),
    }
}

// Reads the three fields at the start of a source, and returns them with their size in bytes.
fn read_fields(from: &[u8], ctx: Context) -> Result<([u64; 3], usize)>
    ensures room { IfOk result (λ x. let w : ℕ = elim ctx.fieldsize [ U32 ↦ 4 | U64 ↦ 8 ] in (3 * w ≤ length from.now) × (x.1 ≡ 3 * w)) }
    ensures fields { IfOk result (λ x. let w : ℕ = elim ctx.fieldsize [ U32 ↦ 4 | U64 ↦ 8 ] in
        x.0 ≡ number ctx.endianess w from.now ∷ number ctx.endianess w (drop w from.now) ∷ number ctx.endianess w (drop (2 * w) from.now) ∷ []) }
    ensures refused { IfErr result (λ e. let w : ℕ = elim ctx.fieldsize [ U32 ↦ 4 | U64 ↦ 8 ] in
        RefusesShort w from.now e ⊎ (((w ≤ length from.now) × RefusesShort w (drop w from.now) e)
        ⊎ ((2 * w ≤ length from.now) × RefusesShort w (drop (2 * w) from.now) e))) }
{
    let mut offset = 0;
    let a = read_field(from, &mut offset, ctx)?;
    let b = read_field(from, &mut offset, ctx)?;
    let c = read_field(from, &mut offset, ctx)?;
    Ok(([a, b, c], offset))
}

// Reads the name at an offset, after its length.
fn read_name<'b>(from: &'b [u8], offset: &mut usize, order: Endian) -> Result<&'b str>
    requires { offset.old ≤ length from.now }
    ensures read { IfOk result (λ name. let len = number order 2 (drop offset.old from.now) in
        (offset.old + 2 ≤ length from.now) × ReadsText (Length len) (drop (offset.old + 2) from.now) name.now len × (offset.new ≡ offset.old + 2 + len)) }
    ensures refused { IfErr result (λ e. RefusesShort 2 (drop offset.old from.now) e
        ⊎ ((offset.old + 2 ≤ length from.now) × RefusesText (Length (number order 2 (drop offset.old from.now))) (drop (offset.old + 2) from.now) e)) }
{
    let len: u16 = from.gread_with(offset, order)?;
    from.gread_with(offset, StrCtx::Length(len as usize))
}

// Reads the value at an offset, after its length.
fn read_value<'b>(from: &'b [u8], offset: &mut usize, order: Endian) -> Result<&'b [u8]>
    requires { offset.old ≤ length from.now }
    ensures read { IfOk result (λ value. let len = number order 2 (drop offset.old from.now) in
        (offset.old + 2 ≤ length from.now) × ReadsSlice len (drop (offset.old + 2) from.now) value.now len × (offset.new ≡ offset.old + 2 + len)) }
    ensures refused { IfErr result (λ e. RefusesShort 2 (drop offset.old from.now) e
        ⊎ ((offset.old + 2 ≤ length from.now) × RefusesShort (number order 2 (drop offset.old from.now)) (drop (offset.old + 2) from.now) e)) }
{
    let len: u16 = from.gread_with(offset, order)?;
    from.gread_with(offset, len as usize)
}

impl<'b> TryFromCtx<'b, Context> for Data<'b> {
    type Error = DataError;

    ghost reads = { λ ctx source x n.
        let w : ℕ = elim ctx.fieldsize [ U32 ↦ 4 | U64 ↦ 8 ] in
        let name_len = number ctx.endianess 2 (drop (3 * w) source) in
        let value_at = 3 * w + 2 + name_len in
        let value_len = number ctx.endianess 2 (drop value_at source) in
        (x.field_a ≡ number ctx.endianess w source) × (x.field_b ≡ number ctx.endianess w (drop w source)) × (x.field_c ≡ number ctx.endianess w (drop (2 * w) source))
        × (x.field_a < x.field_b) × (x.field_b < x.field_c)
        × ReadsText (Length name_len) (drop (3 * w + 2) source) x.name.now name_len
        × (value_at + 2 ≤ length source) × ReadsSlice value_len (drop (value_at + 2) source) x.value.now value_len
        × (n ≡ value_at + 2 + value_len) };

    // The error of the first that fails, or else that the fields don't ascend.
    ghost refuses = { λ ctx source e.
        let w : ℕ = elim ctx.fieldsize [ U32 ↦ 4 | U64 ↦ 8 ] in
        let name_len = number ctx.endianess 2 (drop (3 * w) source) in
        let is_name = IsUtf8 (take name_len (drop (3 * w + 2) source)) in
        let value_at = 3 * w + 2 + name_len in
        let value_len = number ctx.endianess 2 (drop value_at source) in
        ((s : Error) × (e ≡ Scroll s) × (RefusesShort w source s
        ⊎ (((w ≤ length source) × RefusesShort w (drop w source) s)
        ⊎ (((2 * w ≤ length source) × RefusesShort w (drop (2 * w) source) s)
        ⊎ (((3 * w ≤ length source) × RefusesShort 2 (drop (3 * w) source) s)
        ⊎ (((3 * w + 2 ≤ length source) × RefusesText (Length name_len) (drop (3 * w + 2) source) s)
        ⊎ (((value_at ≤ length source) × is_name × RefusesShort 2 (drop value_at source) s)
        ⊎ ((value_at + 2 ≤ length source) × is_name × RefusesShort value_len (drop (value_at + 2) source) s))))))))
        ⊎ ((e ≡ BadFieldMatchup) × (value_at + 2 + value_len ≤ length source) × is_name
        × ((number ctx.endianess w (drop w source) ≤ number ctx.endianess w source)
        ⊎ (number ctx.endianess w (drop (2 * w) source) ≤ number ctx.endianess w (drop w source)))) };

    ghost reads_bounded = { λ ctx source x n h. Prim.search (rules, common_steps) };

    fn try_from_ctx(from: &'b [u8], ctx: Context) -> result::Result<(Data<'b>, usize), DataError> {
        let (fields, mut offset) = read_fields(from, ctx)?;
        let name = read_name(from, &mut offset, ctx.endianess)?;
        let value = read_value(from, &mut offset, ctx.endianess)?;
        let [field_a, field_b, field_c] = fields;
        if field_a >= field_b || field_b >= field_c {
            return Err(DataError::BadFieldMatchup);
        }
        let data = Data {
            field_a,
            field_b,
            field_c,
            name,
            value,
        };
        Ok((data, offset))
    }
}

const NARROW_FIELDS: Context = Context {
    fieldsize: FieldSize::U32,
    endianess: BE,
};

const WIDE_FIELDS: Context = Context {
    fieldsize: FieldSize::U64,
    endianess: BE,
};

const NARROW: &[u8] =
    b"\x00\x02\x03\x04\x01\x02\x03\x04\xde\xad\xbe\xef\x00\x08UserName\x00\x02\xca\xfe";

const WIDE: &[u8] =
    b"\0\0\0\0\x00\x02\x03\x04\0\0\0\0\x01\x02\x03\x04\0\0\0\0\xde\xad\xbe\xef\x00\x08UserName\x00\x02\xca\xfe";

static DATA: Data = Data {
    field_a: 0x00020304,
    field_b: 0x01020304,
    field_c: 0xdeadbeef,
    name: "UserName",
    value: b"\xca\xfe",
};

// Returns whether the fields at the start of a file ascend, or the library's error.
fn ascends(file: &[u8], ctx: Context) -> Result<bool> {
    match file.pread_with::<Data>(0, ctx) {
        Ok(_) => Ok(true),
        Err(DataError::BadFieldMatchup) => Ok(false),
        Err(DataError::Scroll(error)) => Err(error),
    }
}

static FILES: [(&[u8], Context); 2] = [(NARROW, NARROW_FIELDS), (WIDE, WIDE_FIELDS)];

#[test]
fn by_fields_of_either_width(rt: HostRuntime) {
    for &(file, ctx) in &FILES {
        check_value(&rt, file.pread_with(0, ctx), DATA);
        let offset = &mut 0;
        check_value(&rt, file.gread_with(offset, ctx), DATA);
        check_eq(&rt, *offset, file.len());
    }
    check_too_big(&rt, ascends(NARROW, WIDE_FIELDS), 51966, 0);
}

// Where a file is cut, the size of what is cut then, and what is left of it.
static CUTS: [(usize, usize, usize); 7] = [
    (0, 4, 0),
    (7, 4, 3),
    (11, 4, 3),
    (13, 2, 1),
    (21, 8, 7),
    (22, 2, 0),
    (25, 2, 1),
];

static NOT_ASCENDING: [&[u8; 16]; 3] = [
    b"\0\0\0\x02\0\0\0\x02\0\0\0\x03\0\0\0\0",
    b"\0\0\0\x01\0\0\0\x02\0\0\0\x02\0\0\0\0",
    b"\0\0\0\x03\0\0\0\x02\0\0\0\x01\0\0\0\0",
];

#[test]
fn cut_or_out_of_order(rt: HostRuntime) {
    for &(cut, wanted, left) in &CUTS {
        let file = NARROW.get(..cut).unwrap_or_default();
        check_too_big(&rt, ascends(file, NARROW_FIELDS), wanted, left);
    }
    for &file in &NOT_ASCENDING {
        check_value(&rt, ascends(file, NARROW_FIELDS), false);
        check_too_big(&rt, ascends(&file[..15], NARROW_FIELDS), 2, 1);
    }
}
