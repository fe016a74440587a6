// Types of a caller's own: one with its own error, read and written by the contracts of the traits
// alone; and a number, with a name after its length or up to a zero, whose size depends on their
// bytes.
ghost use Rattle.std.specs.Prelude.{◌≡◌, ◌≤◌, ◌<◌, ◌++◌, [], ◌∷◌, length, drop, slice_index, ◌⊎◌, ◌+◌, take, IsUtf8};
ghost use Rattle.std.proofs.Common.{rules};
ghost use Rattle.std.proofs.lemmas.Grind.{common_steps};
ghost use Rattle.scroll.specs.Bytes.{RefusesShort};
ghost use Rattle.scroll.specs.Errors.{IsBadOffset};
ghost use Rattle.scroll.specs.Numbers.{number};
ghost use Rattle.scroll.specs.Reads.{RefusesAt};
ghost use Rattle.scroll.specs.Texts.{index_of, ReadsText, RefusesText};
ghost use Rattle.scroll.specs.declared.ctx.str_ctx.StrCtx.TheVariants.{Delimiter, Length};
ghost use Rattle.scroll.specs.declared.error.Error.TheVariants.{TooBig, BadOffset};
ghost use Rattle.examples.specs.declared.own_types.VersionError.TheVariants.{Zero, Scroll};

use crate::results::{check_eq, check_error, check_too_big, check_value};
use scroll::ctx::{StrCtx, TryFromCtx, TryIntoCtx};
use scroll::{BE, Endian, Error, LE, Pread, Pwrite, ReadFrom, check_room};

#[derive(Debug, Drop)]
enum VersionError {
    Zero,
    Scroll(Error),
}

impl From<Error> for VersionError {
    ghost from_gives = { λ error e. e ≡ Scroll error };

    fn from(error: Error) -> VersionError {
        VersionError::Scroll(error)
    }
}

// A version: its major number, which isn't 0, and its minor number.
#[derive(Clone, Copy, Debug, PartialEq, Eq)]
struct Version {
    major: u8,
    minor: u8,
}

impl<'a> TryFromCtx<'a, ()> for Version {
    type Error = VersionError;

    ghost reads = { λ _ source x n. (2 ≤ length source) × (x.major ≡ slice_index source 0) × (x.minor ≡ slice_index source 1) × (n ≡ 2) };

    ghost refuses = { λ _ source e. ((length source < 2) × (e ≡ Scroll (TooBig 2 (length source)))) ⊎ ((2 ≤ length source) × (slice_index source 0 ≡ 0) × (e ≡ Zero)) };

    ghost reads_bounded = { λ _ source x n h. Prim.search rules };

    fn try_from_ctx(from: &'a [u8], _ctx: ()) -> Result<(Version, usize), VersionError> {
        check_room(2, from.len())?;
        if from[0] == 0 {
            return Err(VersionError::Zero);
        }
        let version = Version {
            major: from[0],
            minor: from[1],
        };
        Ok((version, 2))
    }
}

impl TryIntoCtx<()> for Version {
    type Error = VersionError;

    ghost writes = { λ _ x old new n. (2 ≤ length old) × (new ≡ (x.major ∷ x.minor ∷ []) ++ drop 2 old) × (n ≡ 2) };

    ghost refuses = { λ _ x old new e. (length old < 2) × (new ≡ old) × (e ≡ Scroll (TooBig 2 (length old))) };

    ghost writes_bounded = { λ _ x old new n h. Prim.search rules };

    ghost writes_keeps = { λ _ x old new n h. Prim.search (rules, common_steps) };

    fn try_into_ctx(self, dst: &mut [u8], _ctx: ()) -> Result<usize, VersionError> {
        check_room(2, dst.len())?;
        dst[..2].copy_from_slice(&[self.major, self.minor]);
        Ok(2)
    }
}

// Reads a value of any type at one offset, and writes it at another.
fn copy_value<'a, Ctx: Copy, E: From<Error>, N>(
    from: &'a [u8],
    mut to: &mut [u8],
    ctx: Ctx,
) -> Result<usize, E>
where
    N: TryFromCtx<'a, Ctx, Error = E> + TryIntoCtx<Ctx, Error = E> + Drop,
{
    let value: N = from.pread_with(1, ctx)?;
    to.pwrite_with(value, 2, ctx)
}

// Reads a value of any type from the start of any source.
fn at_the_start<Ctx: Copy, E, S: Pread<Ctx, E>, N: ReadFrom<S, Ctx, Error = E>>(
    source: S,
    ctx: Ctx,
) -> Result<N, E> {
    source.pread_with(0, ctx)
}

// Writes a value of any type to the start of any target.
fn to_the_start<Ctx: Copy, E, T: Pwrite<Ctx, E>, N: TryIntoCtx<Ctx, Error = E> + Drop>(
    target: &mut T,
    n: N,
    ctx: Ctx,
) -> Result<usize, E>
    ensures { T.same_target target.old target.new }
{
    target.pwrite_with(n, 0, ctx)
}

// Returns the library's error of a call that failed with one, or `None` where it failed with
// `Zero`.
fn unless_zero<T>(outcome: Result<T, VersionError>) -> Result<Option<T>, Error> {
    match outcome {
        Ok(value) => Ok(Some(value)),
        Err(VersionError::Zero) => Ok(None),
        Err(VersionError::Scroll(error)) => Err(error),
    }
}

const SOURCE: &[u8] = &[0, 3, 14, 0];

// Reads the version at an offset.
fn read_version(offset: usize) -> scroll::Result<Option<Version>> {
    unless_zero(SOURCE.pread_with(offset, ()))
}

const VERSION: Version = Version {
    major: 3,
    minor: 14,
};

#[test]
fn a_type_of_ones_own(rt: HostRuntime) {
    let rt = &rt;
    check_value(rt, read_version(1), Some(VERSION));
    check_value(rt, read_version(0), None);
    check_too_big(rt, read_version(3), 2, 1);
    check_error(rt, read_version(5), ("BadOffset", 5, 0));
    let mut out = [9u8; 4];
    let version = Version { major: 1, minor: 2 };
    let mut target = &mut out[..];
    check_value(rt, target.pwrite_with(version, 1, ()), 2);
    let past = unless_zero(target.pwrite_with(version, 5, ()));
    check_error(rt, past, ("BadOffset", 5, 0));
    check_eq(rt, out, [9, 1, 2, 9]);
}

#[test]
fn through_the_bounds(rt: HostRuntime) {
    let rt = &rt;
    let mut out = [9u8; 4];
    let own = copy_value::<(), VersionError, Version>(SOURCE, &mut out, ());
    check_value(rt, own, 2);
    check_eq(rt, out, [9, 9, 3, 14]);
    let number = copy_value::<Endian, Error, u16>(SOURCE, &mut out, BE);
    check_value(rt, number, 2);
    check_eq(rt, out, [9, 9, 3, 14]);
    let cut = copy_value::<Endian, Error, u32>(SOURCE, &mut out, LE);
    check_too_big(rt, cut, 4, 3);
    check_value::<u8, Error>(rt, at_the_start(&SOURCE[2..], BE), 14);
    check_value(rt, at_the_start(&SOURCE[1..], ()), VERSION);
    let mut target = &mut out[..];
    let version = Version { major: 7, minor: 8 };
    check_value(rt, to_the_start(&mut target, version, ()), 2);
    check_eq(rt, out, [7, 8, 3, 14]);
}

// A byte order.
#[derive(Clone, Copy)]
struct Context(Endian);

#[derive(Clone, Copy)]
struct Data<'a> {
    name: &'a str,
    id: u32,
}

impl<'a> TryFromCtx<'a, Context> for Data<'a> {
    type Error = Error;

    // The number, the length in two bytes, and a name of that length.
    ghost reads = { λ ctx source x n. let len = number ctx.0 2 (drop 4 source) in
        (6 ≤ length source) × (x.id ≡ number ctx.0 4 source) × ReadsText (Length len) (drop 6 source) x.name.now len × (n ≡ 6 + len) };

    // The error of the first of the three that fails.
    ghost refuses = { λ ctx source e. RefusesShort 4 source e
        ⊎ (((4 ≤ length source) × RefusesShort 2 (drop 4 source) e)
        ⊎ ((6 ≤ length source) × RefusesText (Length (number ctx.0 2 (drop 4 source))) (drop 6 source) e)) };

    ghost reads_bounded = { λ ctx source x n h. Prim.search rules };

    fn try_from_ctx(from: &'a [u8], ctx: Context) -> Result<(Data<'a>, usize), Error> {
        let mut offset = 0;
        let id = from.gread_with(&mut offset, ctx.0)?;
        let len: u16 = from.gread_with(&mut offset, ctx.0)?;
        let name = from.gread_with(&mut offset, StrCtx::Length(len as usize))?;
        Ok((Data { name, id }, offset))
    }
}

// A name in the default context, and then a number.
#[derive(Clone, Copy)]
struct Terminated<'a> {
    name: &'a str,
    id: u32,
}

impl<'a> TryFromCtx<'a, Endian> for Terminated<'a> {
    type Error = Error;

    // The name up to a zero, and the number after that.
    ghost reads = { λ order source x n. let behind = index_of 0 source + 1 in
        ReadsText (Delimiter 0) source x.name.now behind × (behind + 4 ≤ length source)
        × (x.id ≡ number order 4 (drop behind source)) × (n ≡ behind + 4) };

    // The error of the name, or else that of the number, which may start past the end.
    ghost refuses = { λ _ source e. RefusesText (Delimiter 0) source e
        ⊎ (IsUtf8 (take (index_of 0 source) source) × RefusesAt (λ s. RefusesShort 4 s) IsBadOffset source (index_of 0 source + 1) e) };

    ghost reads_bounded = { λ order source x n h. Prim.search rules };

    fn try_from_ctx(from: &'a [u8], ctx: Endian) -> Result<(Terminated<'a>, usize), Error> {
        let mut offset = 0;
        let name: &'a str = from.gread(&mut offset)?;
        let id = from.gread_with(&mut offset, ctx)?;
        Ok((Terminated { name, id }, offset))
    }
}

#[test]
fn a_number_and_a_name(rt: HostRuntime) {
    let rt = &rt;
    let source: &[u8] = b"\x01\x02\x03\x04\x00\x08UserName";
    let data: scroll::Result<Data> = source.pread_with(0, Context(BE));
    let data = data.expect(rt, "a number and a name");
    check_eq(rt, (data.name, data.id), ("UserName", 16909060));
    let offset = &mut 0;
    let data: scroll::Result<Data> = source.gread_with(offset, Context(BE));
    let data = data.expect(rt, "a number and a name at the offset");
    check_eq(rt, (data.id, *offset), (16909060, 14));
    check_too_big(rt, source.pread_with::<Data>(0, Context(LE)), 2048, 8);
}

#[test]
fn cut_at_each_length(rt: HostRuntime) {
    let rt = &rt;
    let bytes = b"\x01\x02\x03\x04\x00\x08UserName";
    for cut in 0..14 {
        let (wanted, start) = match cut {
            0..4 => (4, 0),
            4..6 => (2, 4),
            _ => (8, 6),
        };
        let read = bytes[..cut].pread_with::<Data>(0, Context(BE));
        check_too_big(rt, read, wanted, cut - start);
    }
    let no_text: &[u8] = b"\x01\x02\x03\x04\x00\x01\xffe";
    let refused = no_text.pread_with::<Data>(0, Context(BE));
    check_error(rt, refused, ("invalid utf8", 2, 0));
}

#[test]
fn a_name_and_a_number(rt: HostRuntime) {
    let rt = &rt;
    let source: &[u8] = b"UserName\x00\x01\x02\x03\x04";
    let data: scroll::Result<Terminated> = source.pread_with(0, BE);
    let data = data.expect(rt, "a name and a number");
    check_eq(rt, (data.name, data.id), ("UserName", 16909060));
    let past = source[..8].pread_with::<Terminated>(0, BE);
    check_error(rt, past, ("BadOffset", 9, 0));
    check_too_big(rt, source[..12].pread_with::<Terminated>(0, BE), 4, 3);
    let no_text: &[u8] = b"\xff\x00\x01\x02\x03\x04";
    let refused = no_text.pread_with::<Terminated>(0, BE);
    check_error(rt, refused, ("invalid utf8", 6, 0));
}
