//! Lists of so many words.

ghost use Rattle.std.specs.Prelude.{◌≡◌, ℕ, List, [], ◌∷◌, IfSome, IfNone, map};

/// The only word.
pub fn one_word<'a>(words: &[&'a [u8]]) -> Option<&'a [u8]>
    ensures some { IfSome result (λ w. map (λ word. word.now) words.now ≡ w.now ∷ []) }
    ensures none { IfNone result ((a : List ℕ) → map (λ word. word.now) words.now ≡ a ∷ [] → ⊥) }
{
    match words {
        [first] => Some(first),
        _ => None,
    }
}

/// The two words.
pub fn two_words<'a>(words: &[&'a [u8]]) -> Option<(&'a [u8], &'a [u8])>
    ensures some { IfSome result (λ w. map (λ word. word.now) words.now ≡ w.0.now ∷ w.1.now ∷ []) }
    ensures none { IfNone result ((a b : List ℕ) → map (λ word. word.now) words.now ≡ a ∷ b ∷ [] → ⊥) }
{
    match words {
        [first, second] => Some((first, second)),
        _ => None,
    }
}

/// The three words.
pub fn three_words<'a>(words: &[&'a [u8]]) -> Option<(&'a [u8], &'a [u8], &'a [u8])>
    ensures some { IfSome result (λ w. map (λ word. word.now) words.now ≡ w.0.now ∷ w.1.now ∷ w.2.now ∷ []) }
    ensures none { IfNone result ((a b c : List ℕ) → map (λ word. word.now) words.now ≡ a ∷ b ∷ c ∷ [] → ⊥) }
{
    match words {
        [first, second, third] => Some((first, second, third)),
        _ => None,
    }
}

/// The four words.
pub fn four_words<'a>(words: &[&'a [u8]]) -> Option<(&'a [u8], &'a [u8], &'a [u8], &'a [u8])>
    ensures some { IfSome result (λ w. map (λ word. word.now) words.now ≡ w.0.now ∷ w.1.now ∷ w.2.now ∷ w.3.now ∷ []) }
    ensures none { IfNone result ((a b c d : List ℕ) → map (λ word. word.now) words.now ≡ a ∷ b ∷ c ∷ d ∷ [] → ⊥) }
{
    match words {
        [first, second, third, fourth] => Some((first, second, third, fourth)),
        _ => None,
    }
}

/// The first word, and those behind it.
pub fn first_word<'w, 'a>(words: &'w [&'a [u8]]) -> Option<(&'a [u8], &'w [&'a [u8]])>
    ensures some { IfSome result (λ w. map (λ word. word.now) words.now ≡ w.0.now ∷ map (λ word. word.now) w.1.now) }
    ensures none { IfNone result (map (λ word. word.now) words.now ≡ []) }
{
    match words {
        [first, rest @ ..] => Some((first, rest)),
        [] => None,
    }
}
