//! Kept lines that are lent, those of several lists in one order.

ghost use Rattle.std.specs.Prelude.{◌≡◌, ◌++◌, ◌∷◌, [], IfOk, MatchOption, map};
ghost use Rattle.design_model.specs.Order.{sorted_by_bytes, texts};
ghost use Rattle.report_lines.specs.Kinds.{HaveTheirKinds};
ghost use Rattle.kept_lines.specs.Kept.{AreInOrder};
ghost use Rattle.kept_lines.specs.Merging.{left_of};

use crate::kept::{KeptLines, copy_of};
use design_model::diagnostic::{DiagLine, DiagLines};
use design_model::sequence::Sequence;
use std::alloc::{AllocError, Allocator};

/// The line that comes first of what is left of two lists in order, and how much of each stands before what is left behind it. Where
/// both begin alike it is that of `first`.
fn lesser<'s, 'k: 's, A: Allocator>(
    first: &'s [&'k DiagLine<A>],
    second: &'s [&'k DiagLine<A>],
    first_at: usize,
    second_at: usize,
) -> Option<(&'k DiagLine<A>, usize, usize)>
    ensures { MatchOption result (left_of first.now second.now first_at second_at ≡ []) (λ x. left_of first.now second.now first_at second_at ≡ x.0 ∷ left_of first.now second.now x.1 x.2) }
{
    let Some(line) = first.get(first_at) else {
        let below = second.get(second_at)?;
        return Some((*below, first_at, second_at + 1));
    };
    let Some(below) = second.get(second_at) else {
        return Some((*line, first_at + 1, second_at));
    };
    if below.text.as_slice().cmp(line.text.as_slice()).is_lt() {
        Some((*below, first_at, second_at + 1))
    } else {
        Some((*line, first_at + 1, second_at))
    }
}

/// The lines of two lists in order, in one order. It takes one allocation.
fn merged<'s, 'k: 's, A: Allocator + Copy>(
    alloc: A,
    first: &'s [&'k DiagLine<A>],
    second: &'s [&'k DiagLine<A>],
) -> Result<Vec<&'k DiagLine<A>, A>, AllocError>
    requires first { AreInOrder (map (λ l. l.now) first.now) }
    requires second { AreInOrder (map (λ l. l.now) second.now) }
    ensures lines { IfOk result (λ v. texts (map (λ l. l.now) v.items) ≡ sorted_by_bytes (texts (map (λ l. l.now) first.now) ++ texts (map (λ l. l.now) second.now))) }
    ensures in_order { IfOk result (λ v. AreInOrder (map (λ l. l.now) v.items)) }
    ensures kinds { IfOk result (λ v. HaveTheirKinds (map (λ l. l.now) v.items)) }
{
    let mut lines = Vec::with_capacity(alloc, first.len().saturating_add(second.len()))?;
    let mut first_at = 0;
    let mut second_at = 0;
    while let Some((line, first_next, second_next)) = lesser(first, second, first_at, second_at) {
        lines.push(line)?;
        first_at = first_next;
        second_at = second_next;
    }
    Ok(lines)
}

/// Lines that are kept, in their order.
fn lent<'k, A: Allocator + Copy>(
    alloc: A,
    kept: &'k KeptLines<A>,
) -> Result<Vec<&'k DiagLine<A>, A>, AllocError>
    ensures lines { IfOk result (λ v. texts (map (λ l. l.now) v.items) ≡ kept.now.lines) }
    ensures in_order { IfOk result (λ v. AreInOrder (map (λ l. l.now) v.items)) }
{
    let mut lines = Vec::with_capacity(alloc, kept.len())?;
    for line in kept.lines() {
        lines.push(line)?;
    }
    Ok(lines)
}

/// The lines of three lists, in one order. It takes five allocations and copies no line.
pub fn all_merged<'k, A: Allocator + Copy>(
    alloc: A,
    first: &'k KeptLines<A>,
    second: &'k KeptLines<A>,
    third: &'k KeptLines<A>,
) -> Result<Vec<&'k DiagLine<A>, A>, AllocError>
    ensures lines { IfOk result (λ v. texts (map (λ l. l.now) v.items) ≡ sorted_by_bytes (first.now.lines ++ (second.now.lines ++ third.now.lines))) }
    ensures kinds { IfOk result (λ v. HaveTheirKinds (map (λ l. l.now) v.items)) }
{
    let second_lent = lent(alloc, second)?;
    let third_lent = lent(alloc, third)?;
    let behind = merged(alloc, &second_lent, &third_lent)?;
    let first_lent = lent(alloc, first)?;
    merged(alloc, &first_lent, &behind)
}

/// Copies of lines that are lent, in their order. It takes one allocation for the list and at most one for each line.
pub fn copies<A: Allocator + Copy>(
    alloc: A,
    lines: &[&DiagLine<A>],
) -> Result<DiagLines<A>, AllocError>
    ensures lines { IfOk result (λ l. texts l ≡ texts (map (λ l. l.now) lines.now)) }
    ensures kinds { HaveTheirKinds (map (λ l. l.now) lines.now) → IfOk result (λ l. HaveTheirKinds l) }
{
    let mut copied = Vec::with_capacity(alloc, lines.len())?;
    for line in lines {
        copied.push(copy_of(line, alloc)?)?;
    }
    Ok(Sequence::from_vec(copied))
}
