// Whole values that are written at an offset or appended, and runs of a fixed size that are read.
ghost use Rattle.std.specs.Prelude.{◌≡◌, ◌≤◌, ◌<◌, ◌+◌, ◌-◌, ◌^◌, ◌++◌, length, min, vec_capacity, IfOk, IfErr, IsOk, OnOk, OnErr};
ghost use Rattle.scroll.specs.Bytes.{ReadsFixed, RefusesShort};
ghost use Rattle.scroll.specs.Errors.{IsBadOffset};
ghost use Rattle.scroll.specs.Reads.{ReadsAt, RefusesAt};
ghost use Rattle.scroll.specs.declared.error.Error.TheVariants.{NoMemory};
ghost use Rattle.scroll_formats.specs.Spans.{Puts};

use crate::encode::{Encode, put_behind};
use scroll::ctx::Fixed;
use scroll::{Endian, Error, Result, check_room};

/// Reads a value of a fixed size at the cursor `offset`, also an array, and advances it past the
/// value.
///
/// Returns [`Error::BadOffset`] for an offset past the end, and [`Error::TooBig`] with the width of
/// the value and the number of bytes there. On an error the cursor is unchanged.
#[inline(always)]
pub fn read_fixed<P: Fixed>(from: &[u8], offset: &mut usize, order: Endian) -> Result<P>
    requires { P.width < 2 ^ 64 }
    ensures read { IfOk result (λ x.
        ReadsAt (ReadsFixed P.width (λ s v. P.makes order s 0 v)) from.now offset.old x P.width) }
    ensures moves { OnOk result (offset.new ≡ offset.old + P.width) }
    ensures refused { IfErr result
        (RefusesAt (RefusesShort P.width) IsBadOffset from.now offset.old) }
    ensures stays { OnErr result (offset.new ≡ offset.old) }
{
    if *offset > from.len() {
        return Err(Error::BadOffset(*offset));
    }
    let rest = &from[*offset..];
    check_room(P::width(), rest.len())?;
    let value = P::read_at(rest, 0, order);
    *offset += P::width();
    Ok(value)
}

/// Writes the bytes of a value at an offset, and returns the offset after them. The caller ensures
/// that the offset is at most the length of `dst`.
///
/// Returns their number as the error if they have no room, and `dst` is then unchanged.
///
/// ```rust
/// let mut file = [0xffu8; 4];
/// assert_eq!(rt; put_at(&mut file, 1, (Value(1u8), "a"), LE), Ok(3));
/// assert_eq!(rt; file, [0xff, 1, b'a', 0xff]);
/// assert_eq!(rt; put_at(&mut file, 3, "ab", LE), Err(2));
/// ```
#[inline(always)]
pub fn put_at<A: Encode>(
    dst: &mut [u8],
    offset: usize,
    value: A,
    order: Endian,
) -> std::result::Result<usize, usize>
    requires { offset ≤ length dst.old }
    ensures wrote { IfOk result (Puts (A.bytes order value) dst.old dst.new offset) }
    ensures unchanged { OnErr result (dst.new ≡ dst.old) }
    ensures refused { IfErr result (λ size. (length dst.old - offset < size)
        × (size ≡ min (length (A.bytes order value)) (2 ^ 64 - 1))) }
{
    let size = value.size(order);
    if size > dst.len() - offset {
        return Err(size);
    }
    put_behind(value, dst, offset, order);
    Ok(offset + size)
}

/// Appends the bytes of a value to a vector. An allocation failure is [`Error::NoMemory`], and the
/// vector is then unchanged.
///
/// ```rust
/// let mut file: Vec<u8> = Vec::new(rt.alloc());
/// append(&mut file, Value(1u16), LE)?;
/// append(&mut file, (Value(2u16), "hi"), LE)?;
/// assert_eq!(rt; file.as_slice(), [1, 0, 2, 0, b'h', b'i'].as_slice());
/// ```
pub fn append<A: Encode>(target: &mut Vec<u8>, value: A, order: Endian) -> Result<()>
    ensures appended { OnOk result
        (target.new.items ≡ target.old.items ++ A.bytes order value) }
    ensures unchanged { OnErr result (target.new.items ≡ target.old.items) }
    ensures refused { IfErr result (λ e. e ≡ NoMemory) }
    ensures succeeds { length target.old.items + length (A.bytes order value)
        ≤ vec_capacity target.old → IsOk result }
{
    let start = target.len();
    let Some(end) = start.checked_add(value.size(order)) else {
        return Err(Error::NoMemory);
    };
    if target.resize(end, 0).is_err() {
        return Err(Error::NoMemory);
    }
    value.put(&mut target.as_mut_slice()[start..], order);
    Ok(())
}
