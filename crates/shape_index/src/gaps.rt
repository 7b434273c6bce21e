//! Orders of numbers with gaps. A gap is a slot that repeats the number before it, so that an order with gaps is searched like
//! one without. A number is put in by moving those between its place and the nearest gap, and taken out by making gaps of its
//! slots.

ghost use Rattle.std.specs.Prelude.{◌≡◌, ◌≢◌, ◌<◌, ◌≤◌, ◌+◌, ◌-◌, ◌/◌, ◌^◌, ◌++◌, ◌∷◌, [], ◌⊎◌, ◌↔◌, IfNone, IfOk, IfSome, IsTrue, OnOk, ℕ, drop, length, min, replicate, take, vec_capacity};
ghost use Rattle.slab.specs.Slab.{Slab};
ghost use Rattle.shape_index.specs.declared.shape.Shape.{Shape};
ghost use Rattle.shape_index.specs.GapOrder.{IsGap, IsPutIn, IsRun, Moves};
ghost use Rattle.shape_index.specs.TileOrder.{IsOrderOf};

use design_model::identifier::ShapeId;
use std::alloc::{AllocError, Allocator};

/// How many numbers stand between two gaps of an order that was spread.
const BETWEEN: usize = 8;

/// How far a gap is looked for while there is room for a slot more.
const NEAR: usize = 1024;

/// Whether a slot is a gap.
fn is_gap(order: &[ShapeId], slot: usize) -> bool
    ensures { IsTrue result ↔ IsGap order.now slot }
{
    0 < slot && slot < order.len() && order[slot].0 == order[slot - 1].0
}

/// The first place behind one that has another number.
pub(crate) fn past_run(order: &[ShapeId], place: usize) -> usize
    requires { place < length order.now }
    ensures { IsRun order.now place result }
{
    let id = order[place];
    let mut past = place + 1;
    while past < order.len() && order[past].0 == id.0 {
        past += 1;
    }
    past
}

/// How far a gap is looked for: as far as there are slots, where there is no room for one more.
fn reach(slots: usize, capacity: usize) -> usize
    ensures { capacity ≤ slots → result ≡ slots }
{
    if slots < capacity { NEAR } else { slots }
}

/// The gap that is nearest to a place. Where there is room for a slot more, only those near by are looked at.
fn nearest_gap(order: &[ShapeId], place: usize, capacity: usize) -> Option<usize>
    requires { place ≤ length order.now }
    ensures gap { IfSome result (λ gap. IsGap order.now gap) }
    ensures none { IfNone result (capacity ≤ length order.now → (k : ℕ) → ¬ IsGap order.now k) }
{
    let reach = reach(order.len(), capacity);
    let mut distance = 0;
    while distance < reach {
        let behind = place.saturating_add(distance);
        if is_gap(order, behind) {
            return Some(behind);
        }
        let before = place.saturating_sub(distance);
        if is_gap(order, before) {
            return Some(before);
        }
        distance += 1;
    }
    None
}

/// Puts a number in at a place, where a slot becomes free, and moves those between by one.
fn move_to(order: &mut [ShapeId], freed: usize, place: usize, id: ShapeId)
    requires freed { freed < length order.old }
    requires within { place ≤ length order.old }
    ensures moved { Moves order.old freed place id order.new }
    ensures len { length order.new ≡ length order.old }
{
    if freed < place {
        order.copy_within(freed + 1..place, freed);
        order[place - 1] = id;
    } else {
        order.copy_within(place..freed, place + 1);
        order[place] = id;
    }
}

/// Puts a number in at a place. It takes no memory.
pub(crate) fn put_in<A: Allocator>(order: &mut Vec<ShapeId, A>, place: usize, id: ShapeId)
    requires within { place ≤ length order.old.items }
    requires room { ((k : ℕ) → ¬ IsGap order.old.items k) → length order.old.items < vec_capacity order.old }
    ensures put { IsPutIn order.old.items place id order.new.items }
    ensures capacity { vec_capacity order.new ≡ vec_capacity order.old }
{
    match nearest_gap(order, place, order.capacity()) {
        Some(gap) => move_to(order, gap, place, id),
        None => order.insert(place, id).unwrap(),
    }
}

/// Writes a number into each slot from one on and before another.
fn fill(order: &mut [ShapeId], from: usize, to: usize, id: ShapeId)
    requires order { from ≤ to }
    requires within { to ≤ length order.old }
    ensures filled { order.new ≡ take from order.old ++ (replicate (to - from) id ++ drop to order.old) }
    ensures len { length order.new ≡ length order.old }
{
    order[from..to].fill(id);
}

/// Takes the number at a place out: its slots become gaps.
pub(crate) fn take_out<A: Allocator>(order: &mut Vec<ShapeId, A>, place: usize)
    requires { place < length order.old.items }
    ensures taken { (past : ℕ) × IsRun order.old.items place past
        × ((s : Slab Shape) → IsOrderOf s (take place order.old.items ++ drop past order.old.items) → IsOrderOf s order.new.items) }
    ensures capacity { vec_capacity order.new ≡ vec_capacity order.old }
{
    let past = past_run(order, place);
    if 0 < place {
        let before = order[place - 1];
        fill(order, place, past, before);
    } else if past < order.len() {
        let behind = order[past];
        fill(order, 0, past, behind);
    } else {
        order.clear();
    }
}

/// Puts a number behind an order that is being spread, and a gap behind it, where one is due.
fn push_spread<A: Allocator>(order: &mut Vec<ShapeId, A>, id: ShapeId) -> Result<(), AllocError>
    ensures pushed { OnOk result ((order.new.items ≡ order.old.items ++ id ∷ []) ⊎ (order.new.items ≡ order.old.items ++ id ∷ id ∷ [])) }
    ensures capacity { vec_capacity order.old ≤ vec_capacity order.new }
{
    order.push(id)?;
    if order.len() % (BETWEEN + 1) == BETWEEN {
        order.push(id)?;
    }
    Ok(())
}

/// The same order in other slots, with gaps at even distances, and with room for so many slots.
pub(crate) fn spread<A: Allocator + Copy>(
    alloc: A,
    order: &[ShapeId],
    slots: usize,
) -> Result<Vec<ShapeId, A>, AllocError>
    ensures same { IfOk result (λ v. (s : Slab Shape) → IsOrderOf s order.now → IsOrderOf s v.items) }
    ensures room { IfOk result (λ v. slots ≤ vec_capacity v) }
{
    let mut spread = Vec::with_capacity(alloc, slots)?;
    let mut slot = 0;
    while slot < order.len() {
        push_spread(&mut spread, order[slot])?;
        slot = past_run(order, slot);
    }
    Ok(spread)
}

/// How many slots so many numbers take with their gaps.
pub(crate) fn with_gaps(numbers: usize) -> usize
    ensures { result ≡ min (numbers + numbers / 8) (2 ^ 64 - 1) }
{
    numbers.saturating_add(numbers / BETWEEN)
}

/// Makes room for so many numbers in all. Where few gaps would be left, the order is spread anew.
pub(crate) fn make_room<A: Allocator + Copy>(
    order: &mut Vec<ShapeId, A>,
    numbers: usize,
) -> Result<(), AllocError>
    ensures same { (s : Slab Shape) → IsOrderOf s order.old.items → IsOrderOf s order.new.items }
    ensures room { OnOk result (numbers ≤ vec_capacity order.new) }
    ensures capacity { vec_capacity order.old ≤ vec_capacity order.new }
{
    let capacity = order.capacity();
    if capacity < numbers.saturating_add(numbers / (2 * BETWEEN)) {
        *order = spread(*order.allocator(), order, with_gaps(numbers))?;
    }
    Ok(())
}
