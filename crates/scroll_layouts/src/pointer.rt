// Offsets in a file, and what stands there.
ghost use Rattle.std.specs.Prelude.{◌≡◌, ◌≤◌, ◌+◌, ◌-◌, ◌^◌, ◌++◌, ⊤, ℕ, length, drop, min, IfOk, IfErr};
ghost use Rattle.std.proofs.Common.{refl, ap};
ghost use Rattle.scroll_layouts.specs.Layouts.{shaped, width, laid_bytes, makes, fits};
ghost use Rattle.scroll.specs.Bytes.{ReadsFixed, RefusesShort};
ghost use Rattle.scroll.specs.Errors.{IsBadOffset};
ghost use Rattle.scroll.specs.Reads.{ReadsSome, RefusesAt};
ghost use Rattle.scroll_layouts.specs.Pointers.{ReadsThere, RefusesThere};

use crate::{FixedLayout, Listed, SameLayout};
use scroll::ctx::{Plain, Record, Written};
use scroll::{Endian, Error, Pread};
use scroll_formats::{At, LocateError};
use std::alloc::AllocError;
use std::marker::PhantomData;
use std::result::Result;

/// An unsigned number that says an offset in a file.
pub trait Offset: Plain + SameLayout {
    // The offset.
    ghost offset: { Self → ℕ };

    /// Returns the offset.
    fn offset(self) -> usize
        ensures { result ≡ offset self };
}

impl Offset for u16 {
    ghost offset = { λ x. x };

    fn offset(self) -> usize {
        usize::from(self)
    }
}

impl Offset for u32 {
    ghost offset = { λ x. x };

    fn offset(self) -> usize {
        self as usize
    }
}

impl Offset for u64 {
    ghost offset = { λ x. x };

    fn offset(self) -> usize {
        self as usize
    }
}

/// An offset in a file, stored as an `O`, and what stands there: a `K` of a fixed size, which
/// [`Pointer::read_fixed`] reads; or a value of the lists that the marker `K` names, which
/// [`Pointer::read`] reads.
///
/// It is a struct of one number, which is read and written as that number is.
///
/// From `crates/scroll_layouts/src/tests/pointers.rt`, to a label, by the marker of its lists:
///
/// ```rust
/// pub struct Labels;
///
///     pub name: Pointer<u16, Labels>,
///
///     let name = header.name.read(file, LE)?;
/// ```
#[derive(Debug)]
pub struct Pointer<O, K> {
    /// The offset, in bytes from the start of the file.
    pub offset: O,
    of: PhantomData<K>,
}

impl<O: Copy, K> Copy for Pointer<O, K> {}

impl<O: Copy, K> Clone for Pointer<O, K> {
    ghost is_clone = { λ old new. new ≡ old };

    ghost is_infallible = { λ _. ⊤ };

    #[inline(always)]
    fn clone(&self) -> Result<Pointer<O, K>, AllocError> {
        Ok(Pointer {
            offset: self.offset,
            of: PhantomData,
        })
    }
}

impl<O: Offset, K> Pointer<O, K> {
    /// Returns a pointer to an offset.
    #[inline(always)]
    pub fn new(offset: O) -> Pointer<O, K>
        ensures { result.offset ≡ offset }
    {
        Pointer {
            offset,
            of: PhantomData,
        }
    }

    /// Reads the value at the offset in the whole file. The error has the offset: an offset past
    /// the end is [`Error::BadOffset`], and every other error is the value's own.
    pub fn read<'a>(self, file: &'a [u8], order: Endian) -> Result<K::Item, At<K::Error>>
    where
        K: Listed<'a>,
        K::Error: From<Error>,
        ensures read { IfOk result (ReadsThere K.item order file.now (O.offset self.offset)) }
        ensures refused { IfErr result (λ located. RefusesThere K.Error.from_gives K.item order
            file.now (O.offset self.offset) located.error) }
        ensures offset { IfErr result (λ located. located.offset ≡ O.offset self.offset) }
    {
        let offset = self.offset.offset();
        if offset > file.len() {
            let error = K::Error::from(Error::BadOffset(offset));
            return Err(At { offset, error });
        }
        match K::read_item(file, offset, order) {
            Ok((value, _end)) => Ok(value),
            Err(error) => Err(At { offset, error }),
        }
    }
}

impl<O: Offset, T: Plain> Pointer<O, T> {
    /// Reads the value of a fixed size at the offset in the whole file. The error has the offset:
    /// one past the end is [`Error::BadOffset`], and where the file has fewer bytes there, it is
    /// [`Error::TooBig`] with the value's size and their number.
    pub fn read_fixed(self, file: &[u8], order: Endian) -> Result<T, At<Error>>
        ensures read { IfOk result (ReadsSome (ReadsFixed T.width (λ s. T.makes order s 0))
            file.now (O.offset self.offset)) }
        ensures refused { IfErr result (λ located. RefusesAt (RefusesShort T.width) IsBadOffset
            file.now (O.offset self.offset) located.error) }
        ensures offset { IfErr result (λ located. located.offset ≡ O.offset self.offset) }
    {
        let offset = self.offset.offset();
        file.pread_with(offset, order).at(offset)
    }
}

impl<O: Offset, K> Record for Pointer<O, K> {
    type Parts = O;

    ghost parts_of = { λ x. x.offset };

    ghost of_parts = { λ o. record { offset = o; of = record {} } };

    ghost fields_in = { λ order s x. O.makes order s 0 x.offset };

    ghost again = { λ x. refl };

    ghost there = { λ o. refl };

    ghost fields_of_parts = { λ order s x h. h };

    ghost parts_of_fields = { λ order s x h. h };

    ghost small = { O.small };

    #[inline(always)]
    fn parts(self) -> O {
        self.offset
    }

    #[inline(always)]
    fn of_parts(offset: O) -> Pointer<O, K> {
        Pointer::new(offset)
    }
}

/// It is its number, as a part of a struct of any size too.
impl<O: Offset, K> FixedLayout for Pointer<O, K> {
    ghost layout = { shaped O.layout (λ x. x.offset)
        (λ x y. ap (λ o. record { offset = o; of = record {} })) };

    fn capped() -> usize {
        O::capped()
    }

    fn fit(&self) {
        self.offset.fit()
    }

    #[inline(always)]
    fn load(from: &[u8], offset: usize, order: Endian) -> Pointer<O, K> {
        Pointer::new(O::load(from, offset, order))
    }

    #[inline(always)]
    fn store(&self, dst: &mut [u8], order: Endian) {
        self.offset.store(dst, order)
    }
}

impl<O: Offset, K> SameLayout for Pointer<O, K> {
    fn same() {
        O::same()
    }
}

impl<'a, O: Offset, K> Written for &'a Pointer<O, K> {
    type Value = Pointer<O, K>;

    ghost value_of = { λ x. x.now };

    #[inline(always)]
    fn value(self) -> Pointer<O, K> {
        Pointer::new(self.offset)
    }
}
