// Laws of histories and runs of commands.
ghost use Rattle.std.specs.Prelude.{◌≡◌, ◌≢◌, ◌≤◌, IsUtf8, ◌^◌, ◌<◌, ◌+◌, ◌++◌, ℕ, ℤ, pos, neg_ℤ, ◌≤ℤ◌, ◌<ℤ◌, ◌*ℤ◌, [], ◌∷◌, List, length, take, drop, Result, IfOk, IfErr};
ghost use Rattle.std.specs.Float.{Format};
ghost use Rattle.std.specs.List.{All, flat_map};
ghost use Rattle.scroll.specs.Arrays.{WritesArray, FailsArray};
ghost use Rattle.scroll.specs.Bytes.{WritesPrefix, FailsShort};
ghost use Rattle.scroll.specs.CStrings.{ReadsCString};
ghost use Rattle.scroll.specs.Errors.{IsBadOffset};
ghost use Rattle.scroll.specs.Numbers.{float_width, float_bytes, WritesFloat, number_bytes, signed_bytes, ReadsNumber, ReadsSigned, WritesNumber, WritesSigned};
ghost use Rattle.scroll.specs.History.{Piece, seen, pieces, WritesLeaves, HasLeaves};
ghost use Rattle.scroll.specs.Laws.{Apart, IsHistory, WrittenLast, WritesNested, FailsNested, leaves_nested, RefusesPlainly};
ghost use Rattle.scroll.specs.Encoding.{uleb_text, sleb_text, WritesUleb, WritesSleb};
ghost use Rattle.scroll.specs.Reads.{ReadsAt};
ghost use Rattle.scroll.specs.Texts.{ReadsText, ReadsSlice};
ghost use Rattle.scroll.specs.Writes.{WritesAt, RefusesWriteAt};
ghost use Rattle.scroll.specs.declared.ctx.str_ctx.StrCtx.TheVariants.{Length};
ghost use Rattle.scroll.specs.declared.endian.Endian.{Endian};
ghost use Rattle.scroll.specs.declared.error.Error.{Error};
ghost use Rattle.scroll.specs.declared.runner.Command.{Command};
ghost use Rattle.scroll.specs.Runs.{Run};
ghost use Rattle.scroll.specs.declared.runner.Answer.{Answer};

use crate::ctx::TryIntoCtx;
use crate::error::Error;

/// After any list of commands, what was written reads back at its offset until one of its bytes is
/// written again.
///
/// Each leaf of a write is a piece of the history, even if a later leaf of the same array failed.
/// The leaves of a write don't overlap.
pub fn what_was_written_stands()
    ensures bytes { (first : List ℕ) (commands : List Command) (history : List Piece)
        → IsHistory first commands history → (o : ℕ) (t : List ℕ) → WrittenLast history (o, t)
        → (o + length t ≤ length first) × (take (length t) (drop o (seen first history)) ≡ t) }
    ensures number { (first : List ℕ) (commands : List Command) (history : List Piece)
        → IsHistory first commands history → (o w x : ℕ) (order : Endian) → x < 256 ^ w
        → WrittenLast history (o, number_bytes order w x)
        → ReadsAt (ReadsNumber w order) (seen first history) o x w }
    ensures signed { (first : List ℕ) (commands : List Command) (history : List Piece)
        → IsHistory first commands history
        → (o w : ℕ) (x : ℤ) (order : Endian) → neg_ℤ (pos (256 ^ w)) ≤ℤ (pos 2 *ℤ x)
        → (pos 2 *ℤ x) <ℤ pos (256 ^ w)
        → WrittenLast history (o, signed_bytes order w x)
        → ReadsAt (ReadsSigned w order) (seen first history) o x w }
    ensures slice { (first : List ℕ) (commands : List Command) (history : List Piece)
        → IsHistory first commands history → (o : ℕ) (t : List ℕ) → WrittenLast history (o, t)
        → ReadsAt (ReadsSlice (length t)) (seen first history) o t (length t) }
    ensures text { (first : List ℕ) (commands : List Command) (history : List Piece)
        → IsHistory first commands history
        → (o : ℕ) (t : List ℕ) → IsUtf8 t → WrittenLast history (o, t)
        → ReadsAt (ReadsText (Length (length t))) (seen first history) o t (length t) }
    ensures c_string { (first : List ℕ) (commands : List Command) (history : List Piece)
        → IsHistory first commands history
        → (o : ℕ) (t : List ℕ) → All (λ b. b ≢ 0) t → WrittenLast history (o, t ++ 0 ∷ [])
        → ReadsAt ReadsCString (seen first history) o t (length t + 1) }
    ensures leaves { (len o : ℕ) (leaves : List (List ℕ)) (before after : List Piece) (p : Piece)
        → pieces len o leaves ≡ before ++ p ∷ after → Apart (p ∷ []) after }
{}

/// Two writes whose pieces don't overlap may be exchanged: they leave the same buffer, and both
/// return the same, errors included.
pub fn writes_apart_may_be_exchanged()
    ensures { (old mid new : List ℕ) (offset offset' : ℕ) (leaves leaves' : List (List ℕ))
        (r r' : Result ℕ Error)
        → Apart (pieces (length old) offset leaves) (pieces (length old) offset' leaves')
        → WritesLeaves old offset leaves mid r → WritesLeaves mid offset' leaves' new r'
        → (mid' : List ℕ) × WritesLeaves old offset' leaves' mid' r'
        × WritesLeaves mid' offset leaves new r }
{}

/// What is written is a list of leaves, each of them bytes that are written whole or not at all. A
/// slice or a string, a C string and a number in LEB128 are one leaf; so is each value of a fixed
/// size, by [`fixed_size_is_kept`](super::fixed_size_is_kept).
pub fn writes_have_leaves()
    ensures bytes { HasLeaves (λ t. t ∷ []) (λ t. WritesPrefix (length t) t) (λ t.
        FailsShort (length t)) }
    ensures c_string { HasLeaves (λ t. (t ++ 0 ∷ []) ∷ []) (λ t. WritesPrefix (length (t ++ 0 ∷ []))
        (t ++ 0 ∷ [])) (λ t. FailsShort (length (t ++ 0 ∷ []))) }
    ensures uleb { HasLeaves (λ x. uleb_text x ∷ []) WritesUleb (λ x. FailsShort x.count) }
    ensures sleb { HasLeaves (λ x. sleb_text x ∷ []) WritesSleb (λ x. FailsShort x.count) }
{}

/// Arrays, nested to any depth, have the leaves of the innermost elements in order: `counts` has
/// the lengths, from the outermost.
pub fn array_has_leaves<Ctx: Copy, T: TryIntoCtx<Ctx, Error = Error>>()
    ensures { (ctx : Ctx) (leaves : T → List (List ℕ)) (counts : List ℕ)
        → HasLeaves leaves (T.writes ctx) (T.refuses ctx)
        → HasLeaves (leaves_nested leaves counts) (WritesNested (T.writes ctx) counts)
        (FailsNested (T.writes ctx) (T.refuses ctx) counts) }
{}

/// A write at an offset, by `Pwrite` or `slice`, writes the leaves of the value there:
/// `WritesLeaves` says what it leaves and what it returns, errors included. The two premises are
/// the clauses `wrote` and `refused` of the call.
pub fn write_is_of_its_leaves<Ctx: Copy, T: TryIntoCtx<Ctx, Error = Error>>()
    ensures { (ctx : Ctx) (leaves : T → List (List ℕ))
        → HasLeaves leaves (T.writes ctx) (T.refuses ctx)
        → (x : T) (old new : List ℕ) (offset : ℕ) (r : Result ℕ Error)
        → IfOk r (WritesAt (T.writes ctx x) old offset new)
        → IfErr r (RefusesWriteAt (T.refuses ctx x) IsBadOffset old offset new)
        → WritesLeaves old offset (leaves x) new r }
{}

/// The error of a command in a run is `TooBig`, `BadOffset` or `BadInput`, and never `NoMemory`,
/// `Custom` or `IO`.
pub fn run_refuses_plainly()
    ensures { (first : List ℕ) (from to : ℕ) (commands : List Command) (answers : List Answer)
        (history : List Piece) → Run first [] from commands answers history to
        → All RefusesPlainly answers }
{}
