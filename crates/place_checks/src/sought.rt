//! Elements that are looked up in a list that is in their order.

ghost use Rattle.std.specs.Prelude.{◌≡◌, filter};
ghost use Rattle.std.specs.List.Sorted.{IsNonDecreasingBy};
ghost use Rattle.std.specs.Ordering.{is_eq, ordering_index};

use std::cmp::Ordering;

/// What is looked for among elements.
pub(crate) trait Sought<T> {
    ghost use Rattle.std.specs.declared.cmp.Ordering.{Ordering};

    ghost rank: { Self → T → Ordering };

    /// How an element stands to what is looked for.
    fn rank(&self, element: &T) -> Ordering
        ensures { result ≡ rank self.now element.now };
}

/// The elements of a list in order that are equal to what is looked for.
pub(crate) fn all_equal<'b, T, S: Sought<T>>(elements: &'b [T], sought: &S) -> &'b [T]
    requires { IsNonDecreasingBy (λ x. ordering_index (S.rank sought.now x)) elements.now }
    ensures { result.now ≡ filter (λ x. is_eq (S.rank sought.entry.now x)) elements.entry.now }
{
    let start = elements.partition_point(|element| sought.rank(element).is_lt());
    let elements = &elements[start..];
    let count = elements.partition_point(|element| sought.rank(element).is_le());
    &elements[..count]
}
