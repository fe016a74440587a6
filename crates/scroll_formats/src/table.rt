// Elements of one size that are read where they lie.
ghost use Rattle.std.specs.Prelude.{◌≡◌, ◌≤◌, ◌<◌, ◌*◌, ◌/◌, ⊤, length, drop, IfSome, IfNone, OnSome};
ghost use Rattle.std.specs.Iterator.{at_most};
ghost use Rattle.scroll_formats.specs.Many.{YieldsElement};

use scroll::Endian;
use scroll::ctx::Plain;
use std::alloc::AllocError;
use std::marker::PhantomData;
use std::result::Result;

/// The elements of a table, each of the same size, in bytes that are borrowed.
///
/// An element is read where it lies, without memory, in the byte order of the table. Bytes after
/// the last whole element are no part of the table.
///
/// ```rust
/// let file: &[u8] = &[3, 1, 0, 2, 0, 3, 0];
/// let mut offset = 1;
/// let table: Table<u16> = Table::new(file.gread_with(&mut offset, 3 * 2)?, LE);
/// assert_eq!(rt; table.len(), 3);
/// assert_eq!(rt; table.get(1), Some(2));
/// assert_eq!(rt; table.get(3), None);
/// assert_eq!(rt; table.get_with(1, BE), Some(0x200));
/// let mut sum = 0;
/// for number in table.elements() {
///     sum += u32::from(number);
/// }
/// assert_eq!(rt; sum, 6);
/// ```
#[derive(Debug)]
pub struct Table<'a, T> {
    /// The bytes of the elements.
    pub bytes: &'a [u8],
    /// The byte order in which the elements are read.
    pub order: Endian,
    of: PhantomData<T>,
}

impl<'a, T> Copy for Table<'a, T> {}

impl<'a, T> Clone for Table<'a, T> {
    ghost is_clone = { λ old new. new ≡ old };

    ghost is_infallible = { λ _. ⊤ };

    #[inline(always)]
    fn clone(&self) -> Result<Table<'a, T>, AllocError> {
        Ok(*self)
    }
}

impl<'a, T: Plain> Table<'a, T> {
    /// Returns the table of the elements in some bytes, which are read in a byte order.
    #[inline(always)]
    pub fn new(bytes: &'a [u8], order: Endian) -> Table<'a, T>
        ensures bytes { result.bytes.now ≡ bytes.now }
        ensures order { result.order ≡ order }
    {
        Table {
            bytes,
            order,
            of: PhantomData,
        }
    }

    /// Returns the number of elements.
    #[inline(always)]
    pub fn len(&self) -> usize
        ensures { result ≡ length self.now.bytes.now / T.width }
    {
        match T::width() {
            0 => 0,
            width => self.bytes.len() / width,
        }
    }

    /// Returns the element with an index, or `None` if there are fewer.
    #[inline(always)]
    pub fn get(&self, index: usize) -> Option<T>
        ensures element { IfSome result
            (T.makes self.now.order (drop (T.width * index) self.now.bytes.now) 0) }
        ensures inside { OnSome result (index < length self.now.bytes.now / T.width) }
        ensures none { IfNone result (length self.now.bytes.now / T.width ≤ index) }
    {
        self.get_with(index, self.order)
    }

    /// Returns the element with an index, read in another byte order, or `None` if there are fewer.
    #[inline(always)]
    pub fn get_with(&self, index: usize, order: Endian) -> Option<T>
        ensures element { IfSome result
            (T.makes order (drop (T.width * index) self.now.bytes.now) 0) }
        ensures inside { OnSome result (index < length self.now.bytes.now / T.width) }
        ensures none { IfNone result (length self.now.bytes.now / T.width ≤ index) }
    {
        if index >= self.len() {
            return None;
        }
        Some(T::read_at(&self.bytes[T::width() * index..], 0, order))
    }

    /// Returns the elements, in order.
    #[inline(always)]
    pub fn elements(&self) -> Elements<'a, T>
        ensures bytes { result.bytes.now ≡ self.now.bytes.now }
        ensures order { result.order ≡ self.now.order }
    {
        Elements {
            bytes: self.bytes,
            order: self.order,
            of: PhantomData,
        }
    }
}

/// The elements that are left of a [`Table`].
#[derive(Debug)]
pub struct Elements<'a, T> {
    /// The bytes that are left.
    pub bytes: &'a [u8],
    /// The byte order.
    pub order: Endian,
    of: PhantomData<T>,
}

impl<'a, T> Copy for Elements<'a, T> {}

impl<'a, T> Clone for Elements<'a, T> {
    ghost is_clone = { λ old new. new ≡ old };

    ghost is_infallible = { λ _. ⊤ };

    #[inline(always)]
    fn clone(&self) -> Result<Elements<'a, T>, AllocError> {
        Ok(*self)
    }
}

impl<'a, T: Plain> Iterator for Elements<'a, T> {
    type Item = T;

    ghost next_gives = { λ old found new. (new.order ≡ old.order)
        × YieldsElement T.width (λ bytes. T.makes old.order bytes 0) old.bytes.now found
        new.bytes.now };

    ghost remaining = { λ it. at_most (length it.bytes.now / T.width) };

    #[inline(always)]
    fn next(&mut self) -> Option<T> {
        let width = T::width();
        if width == 0 || self.bytes.len() < width {
            return None;
        }
        let element = T::read_at(self.bytes, 0, self.order);
        self.bytes = &self.bytes[width..];
        Some(element)
    }
}
