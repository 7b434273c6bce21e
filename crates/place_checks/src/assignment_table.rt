//! The patterns by which groups assign components to regions, for look-ups by a component's name (LEF/DEF 5.8 Language
//! Reference, "Groups").

ghost use Rattle.std.specs.Prelude.{◌≡◌, ◌++◌, ◌∷◌, [], false, true, map, IsSortedByKey, MatchOption, OnOk};
ghost use Rattle.std.specs.Cmp.Lexicographic.{slice_cmp};
ghost use Rattle.std.specs.List.{list_any};
ghost use Rattle.std.specs.Option.{option_map, option_to_list};
ghost use Rattle.std.specs.Ordering.{is_eq, nat_cmp};
ghost use Rattle.lefdef_tokens.specs.Views.{word_view};
ghost use Rattle.place_kernels.specs.Views.{starred_pattern};
ghost use Rattle.place_checks.specs.Patterns.{assigned_view, by_pattern, has_star, is_starred, pattern_view, regions_for, starred_view, with_star, without_star};
ghost use Rattle.place_checks.specs.PlaceViews.{assignment_view};

use crate::assigned::{Assigned, Starred};
use crate::groups::Assignment;
use crate::placed_box::PlacedBox;
use crate::pushing::put_behind;
use crate::sought::{Sought, all_equal};
use place_kernels::patterns::StarredPattern;
use std::alloc::{AllocError, Allocator, Global};
use std::cmp::Ordering;

/// The patterns of all groups: those without a star in the order of their bytes, and the others.
#[derive(Drop)]
pub struct AssignmentTable<'t, A: Allocator = Global> {
    pub(crate) named: Vec<Assigned<'t>, A>,
    pub(crate) starred: Vec<Starred<'t>, A>,
    ghost sorted: { IsSortedByKey (λ a. a.pattern.now) (slice_cmp nat_cmp) named.items },
    ghost starless: { list_any is_starred named.items ≡ false },
}

/// A pattern that has a star.
pub(crate) fn starred_of<'t>(pattern: &'t [u8]) -> Option<StarredPattern<'t>>
    ensures { MatchOption result (has_star pattern.now ≡ false) (λ p. (starred_pattern p ≡ pattern.now) × (has_star pattern.now ≡ true)) }
{
    StarredPattern::of(pattern)
}

/// Adds a pattern to those with a star or to those without.
fn push_pattern<'t, A: Allocator>(
    pattern: &'t [u8],
    region: &'t [u8],
    named: &mut Vec<Assigned<'t>, A>,
    starred: &mut Vec<Starred<'t>, A>,
) -> Result<(), AllocError>
    ensures named { OnOk result (map assigned_view named.new.items ≡ map assigned_view named.old.items ++ without_star (pattern_view region.entry.now pattern.entry.now ∷ [])) }
    ensures starred { OnOk result (map starred_view starred.new.items ≡ map starred_view starred.old.items ++ with_star (pattern_view region.entry.now pattern.entry.now ∷ [])) }
{
    match starred_of(pattern) {
        Some(cut) => {
            let pattern = Starred {
                pattern: cut,
                bytes: pattern,
                region,
            };
            put_behind(pattern, starred)
        }
        None => put_behind(Assigned { pattern, region }, named),
    }
}

/// Adds the patterns of a group, each to those with a star or to those without.
fn push_patterns<'t, A: Allocator>(
    assignment: &Assignment<'t>,
    named: &mut Vec<Assigned<'t>, A>,
    starred: &mut Vec<Starred<'t>, A>,
) -> Result<(), AllocError>
    ensures named { OnOk result (map assigned_view named.new.items ≡ map assigned_view named.old.items ++ without_star (by_pattern (assignment_view assignment.now))) }
    ensures starred { OnOk result (map starred_view starred.new.items ≡ map starred_view starred.old.items ++ with_star (by_pattern (assignment_view assignment.now))) }
{
    let mut left = assignment.patterns.again();
    while let Some(pattern) = left.next() {
        or_error!(push_pattern(pattern.word.bytes, assignment.region, named, starred));
    }
    Ok(())
}

/// Adds the region that a component names itself.
fn push_own<'t, A: Allocator>(
    regions: &mut Vec<&'t [u8], A>,
    component: &PlacedBox<'t>,
) -> Result<(), AllocError>
    ensures { OnOk result (map word_view regions.new.items ≡ map word_view regions.old.items ++ option_to_list (option_map word_view component.now.region)) }
{
    match component.region {
        Some(region) => put_behind(region, regions),
        None => Ok(()),
    }
}

/// Adds the regions of these.
fn push_regions<'t, A: Allocator>(
    regions: &mut Vec<&'t [u8], A>,
    all: &[Assigned<'t>],
) -> Result<(), AllocError>
    ensures { OnOk result (map word_view regions.new.items ≡ map word_view regions.old.items ++ map (λ a. a.region.now) all.now) }
{
    for assigned in all {
        or_error!(put_behind(assigned.region, regions));
    }
    Ok(())
}

/// Adds the regions of those whose pattern a name matches.
fn push_matching<'t, A: Allocator>(
    regions: &mut Vec<&'t [u8], A>,
    all: &[Starred<'t>],
    name: &[u8],
) -> Result<(), AllocError>
    ensures { OnOk result (map word_view regions.new.items ≡ map word_view regions.old.items ++ regions_for name.now (map starred_view all.now)) }
{
    for starred in all {
        if starred.pattern.matches(name) {
            or_error!(put_behind(starred.region, regions));
        }
    }
    Ok(())
}

/// The order in which patterns without a star are looked up.
fn pattern_cmp(a: &Assigned<'_>, b: &Assigned<'_>) -> Ordering
    ensures { result ≡ slice_cmp nat_cmp a.now.pattern.now b.now.pattern.now }
{
    a.pattern.cmp(b.pattern)
}

/// A name that patterns without a star may be.
#[derive(Clone, Copy)]
struct Name<'n> {
    name: &'n [u8],
}

impl<'t, 'n> Sought<Assigned<'t>> for Name<'n> {
    ghost use Rattle.std.specs.Cmp.Lexicographic.{slice_cmp};
    ghost use Rattle.std.specs.Ordering.{nat_cmp};

    ghost rank = { λ n a. slice_cmp nat_cmp a.pattern.now n.name.now };

    fn rank(&self, assigned: &Assigned<'t>) -> Ordering {
        assigned.pattern.cmp(self.name)
    }
}

impl<'t, A: Allocator + Copy> AssignmentTable<'t, A> {
    ghost use Rattle.std.specs.Prelude.{filter, IfOk, IsPermutation};
    ghost use Rattle.place_checks.specs.IndexViews.{assignments_view};
    ghost use Rattle.place_checks.specs.Patterns.{by_patterns, AreRegionsOf};
    ghost use Rattle.place_checks.specs.Views.{boxed_view};

    /// A table of the patterns of these assignments.
    pub fn new(
        alloc: A,
        assignments: &[Assignment<'t>],
    ) -> Result<AssignmentTable<'t, A>, AllocError>
        ensures { IfOk result (λ table. IsPermutation (by_patterns (map assignment_view assignments.now)) (assignments_view table)) }
    {
        let mut named = Vec::new(alloc);
        let mut starred = Vec::new(alloc);
        for assignment in assignments {
            or_error!(push_patterns(assignment, &mut named, &mut starred));
        }
        named.sort_unstable_by(pattern_cmp);
        Ok(AssignmentTable { named, starred })
    }

    /// A table of these patterns, which are those of one, in its order. It takes no memory.
    pub(crate) fn in_order(
        named: Vec<Assigned<'t>, A>,
        starred: Vec<Starred<'t>, A>,
    ) -> AssignmentTable<'t, A>
        requires sorted { IsSortedByKey (λ a. a.pattern.now) (slice_cmp nat_cmp) named.items }
        requires starless { list_any is_starred named.items ≡ false }
        ensures { assignments_view result ≡ map assigned_view named.entry.items ++ map starred_view starred.entry.items }
    {
        AssignmentTable { named, starred }
    }

    /// The patterns without a star that are this name.
    fn with_name(&self, name: &[u8]) -> &[Assigned<'t>]
        ensures { result.now ≡ filter (λ a. is_eq (slice_cmp nat_cmp a.pattern.now name.now)) self.now.named.items }
    {
        all_equal(&self.named, &Name { name })
    }

    /// Puts the regions that a component is assigned to, by itself and by groups, into an empty list. Some may stand there more than once.
    pub(crate) fn put_regions_of(
        &self,
        component: &PlacedBox<'t>,
        regions: &mut Vec<&'t [u8], A>,
    ) -> Result<(), AllocError>
        requires { regions.now.items ≡ [] }
        ensures { OnOk result (AreRegionsOf (assignments_view self.now) (boxed_view component.now) (map word_view regions.new.items)) }
    {
        or_error!(push_own(regions, component));
        or_error!(push_regions(regions, self.with_name(component.name)));
        push_matching(regions, &self.starred, component.name)
    }
}
