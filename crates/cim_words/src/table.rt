//! Tables of what has an IRI of its own.

ghost use Rattle.std.specs.Prelude.{◌≡◌, ℕ, List, find};
ghost use Rattle.std.specs.Str.{bytes_eq};

/// What has an IRI of its own.
pub(crate) trait Named: Copy {
    ghost iri: { Self → List ℕ };

    fn iri(&self) -> &'static str
        ensures { result.now ≡ iri self.now };
}

/// The first of them with this IRI.
pub(crate) fn with_iri<N: Named>(all: &[N], text: &str) -> Option<N>
    ensures { result ≡ find (λ n. bytes_eq (N.iri n) text.now) all.now }
{
    all.iter().copied().find(|n| n.iri() == text)
}
