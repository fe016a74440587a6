// Laws of reads.
ghost use Rattle.std.specs.Prelude.{ℕ, List};
ghost use Rattle.scroll.specs.Arrays.{ReadsNested, RefusesNested};
ghost use Rattle.scroll.specs.Bytes.{RefusesShort};
ghost use Rattle.scroll.specs.CStrings.{ReadsCString, RefusesCString};
ghost use Rattle.scroll.specs.Errors.{IsBadOffset};
ghost use Rattle.scroll.specs.Laws.{IsLocal, IsWithin, IsReader, IsReaderWithin};
ghost use Rattle.scroll.specs.Leb128.{ReadsUleb, ReadsSleb, ReadsCountedUleb, ReadsCountedSleb, RefusesUleb, RefusesSleb};
ghost use Rattle.scroll.specs.Reads.{IsBounded};
ghost use Rattle.scroll.specs.Texts.{ReadsText, RefusesText, ReadsSlice};
ghost use Rattle.scroll.specs.declared.ctx.str_ctx.StrCtx.{StrCtx};
ghost use Rattle.scroll.specs.declared.ctx.str_ctx.StrCtx.TheVariants.{Length};

use crate::ctx::TryFromCtx;
use crate::error::Error;

/// A read that ends within its source returns the same value and size for every source that begins
/// with the bytes that were read. Its size is at most the length of its source, or one more for a
/// string whose delimiter is missing. A read at an offset has exactly one result, with a cursor
/// too.
///
/// [`fixed_size_is_kept`](super::fixed_size_is_kept) says this of numbers, floats and structs, and
/// [`arrays_keep_their_laws`] of arrays; values that borrow are compared by their bytes.
pub fn reads_keep_their_laws()
    ensures slice { (n : ℕ) → IsReaderWithin (ReadsSlice n) (RefusesShort n) }
    ensures text { (ctx : StrCtx) → IsReader (ReadsText ctx) (RefusesText ctx) }
    ensures text_of_length { (n : ℕ) → IsWithin (ReadsText (Length n)) }
    ensures c_string { IsReaderWithin ReadsCString RefusesCString }
    ensures uleb { IsReaderWithin ReadsUleb RefusesUleb }
    ensures sleb { IsReaderWithin ReadsSleb RefusesSleb }
    ensures counted_uleb { IsReaderWithin ReadsCountedUleb RefusesUleb }
    ensures counted_sleb { IsReaderWithin ReadsCountedSleb RefusesSleb }
    ensures slices { (n : ℕ) (counts : List ℕ) → IsReader (ReadsNested (ReadsSlice n) counts)
        (RefusesNested (ReadsSlice n) (RefusesShort n) IsBadOffset counts) }
    ensures texts { (ctx : StrCtx) (counts : List ℕ) → IsReader (ReadsNested (ReadsText ctx) counts)
        (RefusesNested (ReadsText ctx) (RefusesText ctx) IsBadOffset counts) }
    ensures c_strings { (counts : List ℕ) → IsReader (ReadsNested ReadsCString counts)
        (RefusesNested ReadsCString RefusesCString IsBadOffset counts) }
{}

/// Arrays of any type whose error is [`Error`] keep the laws that the type keeps, nested to any
/// depth: `counts` has the lengths, from the outermost.
pub fn arrays_keep_their_laws<'a, Ctx: Copy, T: TryFromCtx<'a, Ctx, Error = Error>>()
    ensures { (ctx : Ctx) (counts : List ℕ) → IsReader (T.reads ctx) (T.refuses ctx)
        → IsReader (ReadsNested (T.reads ctx) counts)
        (RefusesNested (T.reads ctx) (T.refuses ctx) IsBadOffset counts) }
{}

/// Arrays of a type with any error depend on their bytes and are bounded as their elements are.
pub fn array_depends_on_its_bytes<'a, Ctx: Copy, T: TryFromCtx<'a, Ctx>>()
    ensures local { (ctx : Ctx) (counts : List ℕ) → IsLocal (T.reads ctx)
        → IsLocal (ReadsNested (T.reads ctx) counts) }
    ensures bounded { (ctx : Ctx) (counts : List ℕ) → IsBounded (T.reads ctx)
        → IsBounded (ReadsNested (T.reads ctx) counts) }
    ensures within { (ctx : Ctx) (counts : List ℕ) → IsWithin (T.reads ctx)
        → IsWithin (ReadsNested (T.reads ctx) counts) }
{}
