//! Bytes cut in two at a mark.

ghost use Rattle.std.specs.Prelude.{◌≡◌, ℕ, List, ◌∷◌, ◌++◌, IfSome, IsSomeAnd};
ghost use Rattle.nt_text.specs.Cut.{IsFreeOf};

use memchr::memchr;

/// What stands before the first such byte, and what follows it.
pub fn cut_at(mark: u8, bytes: &[u8]) -> Option<(&[u8], &[u8])>
    ensures found { IfSome result (λ parts. bytes.now ≡ parts.0.now ++ mark ∷ parts.1.now) }
    ensures first { IfSome result (λ parts. IsFreeOf mark parts.0.now) }
    ensures only { (front rest : List ℕ) → IsFreeOf mark front → bytes.now ≡ front ++ mark ∷ rest
        → IsSomeAnd result (λ parts. (parts.0.now ≡ front) × (parts.1.now ≡ rest)) }
{
    let end = memchr(mark, bytes)?;
    Some((&bytes[..end], &bytes[end + 1..]))
}
