// Laws of texts and C strings.
ghost use Rattle.std.specs.Prelude.{◌≡◌, ◌≢◌, ◌++◌, [], ◌∷◌, ℕ, List, length, take, ◌≤◌};
ghost use Rattle.std.specs.List.{All};
ghost use Rattle.scroll.specs.Bytes.{WritesPrefix};
ghost use Rattle.scroll.specs.CStrings.{ReadsCString};
ghost use Rattle.scroll.specs.Arrays.{RefusesArray};
ghost use Rattle.scroll.specs.Laws.{IsWithin};
ghost use Rattle.scroll.specs.Errors.{IsBadOffset};
ghost use Rattle.scroll.specs.Texts.{ReadsText, RefusesText};
ghost use Rattle.scroll.specs.declared.ctx.str_ctx.StrCtx.TheVariants.{Required};
ghost use Rattle.scroll.specs.declared.error.Error.TheVariants.{BadOffset};

/// A C string that was read contains no zero before its end. Written where it fits, it gives back
/// the bytes from which it was read.
pub fn c_string_has_one_zero()
    ensures no_zero { (source text : List ℕ) (n : ℕ) → ReadsCString source text n
        → All (λ b. b ≢ 0) text }
    ensures taken { (source text : List ℕ) (n : ℕ) → ReadsCString source text n
        → take n source ≡ text ++ 0 ∷ [] }
    ensures written_back { (source text old new : List ℕ) (n m : ℕ) → ReadsCString source text n
        → WritesPrefix (length (text ++ 0 ∷ [])) (text ++ 0 ∷ []) old new m
        → (m ≡ n) × (take m new ≡ take n source) }
{}

/// The size of a string that was read in the context `Required` is at most the length of its
/// source. So it depends only on its own bytes, and an array of them never returns `BadOffset` from
/// within.
pub fn required_text_is_within_its_source()
    ensures within { (d : ℕ) → IsWithin (ReadsText (Required d)) }
    ensures depends { (d : ℕ) (s t text : List ℕ) (n : ℕ)
        → ReadsText (Required d) s text n → length s ≤ length t → take n t ≡ take n s
        → ReadsText (Required d) t text n }
    ensures arrays { (d count offset : ℕ) (s : List ℕ)
        → RefusesArray (ReadsText (Required d)) (RefusesText (Required d)) IsBadOffset count s
        (BadOffset offset) → ⊥ }
{}
