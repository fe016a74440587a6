// C strings as parts.
ghost use Rattle.std.specs.Prelude.{◌≡◌, ◌≤◌, ◌<◌, ◌+◌, ◌-◌, ◌^◌, ◌++◌, length, take, drop, min};
ghost use Rattle.scroll.specs.CStringTexts.{c_str_text};
ghost use Rattle.scroll.specs.declared.error.Error.{Error};
ghost use Rattle.scroll_layouts.specs.Formats.{leaf, last};
ghost use Rattle.scroll_layouts.specs.Leaves.{c_string};
ghost use Rattle.scroll_layouts.specs.Starts.{start};

use crate::{Part, ReadPart};
use scroll::cstr::CStr;
use scroll::ctx::TryFromCtx;
use scroll::{Endian, Error};
use std::result::Result;

/// A C string: a text, and the zero that ends it. The errors are those of a read of [`CStr`].
impl<'a, E: From<Error>> Part<(), E> for CStr<'a> {
    ghost format = { λ _. last (leaf (start (c_string E.from_gives))) c_str_text };

    fn check(&self, _order: Endian, _ctx: &()) -> Result<(), E> {
        let _text = self.to_bytes();
        Ok(())
    }

    fn size(&self, _order: Endian, _ctx: &()) -> usize {
        self.to_bytes().len() + 1
    }

    #[inline(always)]
    fn put(&self, dst: &mut [u8], _order: Endian, _ctx: &()) {
        let text = self.to_bytes_with_nul();
        dst[..text.len()].copy_from_slice(text);
    }
}

impl<'a, E: From<Error> + Drop> ReadPart<'a, (), E> for CStr<'a> {
    ghost format = { λ _. last (leaf (start (c_string E.from_gives))) c_str_text };

    #[inline(always)]
    fn read_at(
        from: &'a [u8],
        offset: usize,
        _order: Endian,
        _ctx: &(),
    ) -> Result<(CStr<'a>, usize), E> {
        let (value, size) = CStr::try_from_ctx(&from[offset..], ())?;
        Ok((value, offset + size))
    }

    #[inline(always)]
    fn end_at(from: &'a [u8], offset: usize, order: Endian, ctx: &()) -> Option<usize> {
        match <CStr<'a> as ReadPart<'a, (), E>>::read_at(from, offset, order, ctx) {
            Ok((_value, end)) => Some(end),
            Err(_error) => None,
        }
    }
}
