// Numbers with their high groups first as parts.
ghost use Rattle.std.specs.Prelude.{◌≡◌, ◌≤◌, ◌<◌, ◌+◌, ◌-◌, ◌^◌, ◌++◌, length, take, drop, min, IfOk, IfErr};
ghost use Rattle.scroll.specs.Encoding.{HasEncoding};
ghost use Rattle.scroll.specs.declared.error.Error.{Error};
ghost use Rattle.scroll_layouts.specs.Formats.{leaf, shape};
ghost use Rattle.scroll_layouts.specs.Starts.{start};
ghost use Rattle.scroll_layouts.specs.lemmas.PromiseLemmas.{vlq-is};
ghost use Rattle.scroll_layouts.specs.VarintLeaves.{vlq, vlq_counted};
ghost use Rattle.scroll_layouts.specs.Varints.{ReadsVlq, RefusesVlq, vlq_bytes};

use crate::{Part, ReadPart, Vlq};
use scroll::{Endian, Error};
use std::result::Result;

/// A number with its high groups first. A source that ends before it does is [`Error::TooBig`] with
/// the size 1 and the length 0. One whose number has more than ten bytes or 64 bits is
/// [`Error::BadInput`] with the number of bytes there and the message `failed to parse`.
impl<E: From<Error>> Part<(), E> for Vlq {
    ghost format = { λ _. shape (leaf (start (vlq E.from_gives))) vlq_counted vlq-is };

    fn check(&self, _order: Endian, _ctx: &()) -> Result<(), E> {
        let _number = *self;
        Ok(())
    }

    #[tactic(auto, using(crate::specs::lemmas::VlqLemmas::vlq_sizes))]
    fn size(&self, _order: Endian, _ctx: &()) -> usize {
        self.count
    }

    #[tactic(auto, using(crate::specs::lemmas::VlqLemmas::vlq_sizes))]
    #[inline(always)]
    fn put(&self, dst: &mut [u8], _order: Endian, _ctx: &()) {
        let number = *self;
        put_vlq(number.value, number.count, dst)
    }
}

impl<'a, E: From<Error> + Drop> ReadPart<'a, (), E> for Vlq {
    ghost format = { λ _. shape (leaf (start (vlq E.from_gives))) vlq_counted vlq-is };

    #[inline(always)]
    fn read_at(
        from: &'a [u8],
        offset: usize,
        _order: Endian,
        _ctx: &(),
    ) -> Result<(Vlq, usize), E> {
        let (value, count) = read_vlq(&from[offset..])?;
        Ok((Vlq { value, count }, offset + count))
    }

    #[inline(always)]
    fn end_at(from: &'a [u8], offset: usize, order: Endian, ctx: &()) -> Option<usize> {
        match <Vlq as ReadPart<'a, (), E>>::read_at(from, offset, order, ctx) {
            Ok((_value, end)) => Some(end),
            Err(_error) => None,
        }
    }
}

// Returns the number at the start of `from`, and its length in bytes.
fn read_vlq(from: &[u8]) -> Result<(u64, usize), Error>
    ensures read { IfOk result (λ r. ReadsVlq from.now (record { value = r.0; count = r.1 }) r.1) }
    ensures has { IfOk result (λ r. HasEncoding r.0 r.1) }
    ensures refused { IfErr result (RefusesVlq from.now) }
{
    let mut value: u64 = 0;
    let mut count = 0;
    while count < 10 {
        let Some(byte) = from.get(count) else {
            return Err(Error::TooBig { size: 1, len: 0 });
        };
        if value >= 1 << 57 {
            return Err(Error::BadInput {
                size: from.len(),
                msg: "failed to parse",
            });
        }
        value = value * 128 + u64::from(*byte % 128);
        count += 1;
        if *byte < 128 {
            return Ok((value, count));
        }
    }
    Err(Error::BadInput {
        size: from.len(),
        msg: "failed to parse",
    })
}

// Writes a number in `count` bytes to the start of `dst`, its last group first. The bytes after
// them are unchanged.
fn put_vlq(value: u64, count: usize, dst: &mut [u8])
    requires some { 1 ≤ count }
    requires room { count ≤ length dst.old }
    ensures { dst.new ≡ vlq_bytes value count ++ drop count dst.old }
{
    let mut at = count - 1;
    dst[at] = (value % 128) as u8;
    let mut left = value / 128;
    while at > 0 {
        at -= 1;
        dst[at] = 128 + (left % 128) as u8;
        left /= 128;
    }
}
