//! How many parts aren't checked.

ghost use Rattle.std.specs.Prelude.{◌≡◌, ◌+◌, ◌<◌, ◌^◌, ℕ, IfSome, MatchOption};

/// Parts that are left of a statement, of which some aren't checked.
pub(crate) trait UncheckedParts: Sized + Drop {
    ghost unchecked: { Self → ℕ };

    ghost left: { Self → ℕ };

    /// How many of the next part aren't checked; at the end `None`.
    fn next_unchecked(&mut self) -> Option<usize>
        requires { unchecked self.old < 2 ^ 63 }
        ensures gives { MatchOption result (unchecked self.old ≡ 0) (λ count. unchecked self.old ≡ count + unchecked self.new) }
        ensures fewer { IfSome result (λ count. left self.new < left self.old) };
}

/// How many of the parts that are left aren't checked.
pub(crate) fn count_unchecked<P: UncheckedParts>(parts: P) -> usize
    requires { P.unchecked parts < 2 ^ 63 }
    ensures { result ≡ P.unchecked parts }
{
    let mut left = parts;
    let mut count = 0;
    while let Some(more) = left.next_unchecked() {
        count += more;
    }
    count
}
