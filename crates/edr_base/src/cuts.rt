//! Texts cut at a mark, and without a front.
ghost use Rattle.std.specs.Prelude.{◌≡◌, ◌++◌, List, ℕ, MatchOption, Contains};
ghost use Rattle.edr_base.specs.Cuts.{IsCut};

/// What stands behind the front, or `None` where the text doesn't begin with it.
pub fn without_front<'a>(text: &'a [u8], front: &[u8]) -> Option<&'a [u8]>
    ensures { MatchOption result ((rest : List ℕ) → ¬ (text.now ≡ front.now ++ rest)) (λ rest. text.now ≡ front.now ++ rest.now) }
{
    text.strip_prefix(front)
}

/// What stands before the first place of a mark, and what stands behind it, or `None` where the text hasn't the mark.
pub fn cut_at(text: &[u8], mark: u8) -> Option<(&[u8], &[u8])>
    ensures { MatchOption result (¬ (Contains text.now mark)) (λ parts. IsCut mark text.now parts.0.now parts.1.now) }
{
    for (place, byte) in text.iter().enumerate() {
        if *byte == mark {
            return Some((&text[..place], &text[place + 1..]));
        }
    }
    None
}
