//! Names by patterns.

ghost use Rattle.std.specs.Prelude.{◌≡◌, ◌∷◌, MatchOption};
ghost use Rattle.place_rules.specs.Patterns.{matches, star};
ghost use Rattle.place_kernels.specs.Stars.{IsAfterFirst, IsSplitAtStar, StandsNowhere, Starless};

use memchr::{memchr, memmem};

/// The bytes of a pattern before its first star, and those after it.
fn split_at_star(pattern: &[u8]) -> Option<(&[u8], &[u8])>
    ensures { MatchOption result (Starless pattern.now) (λ p. IsSplitAtStar pattern.now p.0.now p.1.now) }
{
    let at = memchr(b'*', pattern)?;
    Some((&pattern[..at], &pattern[at + 1..]))
}

/// What is left of a name after the first place of a part.
fn after_first<'n>(name: &'n [u8], part: &[u8]) -> Option<&'n [u8]>
    ensures { MatchOption result (StandsNowhere name.now part.now) (λ rest. IsAfterFirst name.now part.now rest.now) }
{
    let at = memmem::find(name, part)?;
    Some(&name[at + part.len()..])
}

/// Whether a name matches a star that this pattern follows: each part between two stars is looked for after the one
/// before, and the last part stands at the end.
fn matches_after_star(pattern: &[u8], name: &[u8]) -> bool
    ensures { result ≡ matches (star ∷ pattern.now) name.now }
{
    let mut parts = pattern;
    let mut left = name;
    while let Some((part, after)) = split_at_star(parts) {
        let Some(rest) = after_first(left, part) else {
            return false;
        };
        parts = after;
        left = rest;
    }
    left.ends_with(parts)
}

/// A pattern that has a `*`, cut at the first one: a name that begins otherwise is told at once. Each `*` stands for any
/// bytes, also none, and each other byte for itself.
#[derive(Clone, Copy)]
pub struct StarredPattern<'t> {
    front: &'t [u8],
    after: &'t [u8],
    ghost starless: { Starless front.now },
}

impl<'t> StarredPattern<'t> {
    ghost use Rattle.place_kernels.specs.Views.{starred_pattern};

    /// A pattern without a `*` gives `None`: it means itself alone.
    pub fn of(pattern: &'t [u8]) -> Option<StarredPattern<'t>>
        ensures { MatchOption result (Starless pattern.now) (λ p. starred_pattern p ≡ pattern.now) }
    {
        let (front, after) = split_at_star(pattern)?;
        Some(StarredPattern { front, after })
    }

    /// Whether a name matches the pattern.
    pub fn matches(&self, name: &[u8]) -> bool
        ensures { result ≡ matches (starred_pattern self.now) name.now }
    {
        match name.strip_prefix(self.front) {
            Some(rest) => matches_after_star(self.after, rest),
            None => false,
        }
    }
}
