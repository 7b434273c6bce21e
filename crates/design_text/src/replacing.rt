//! Why a text made anew with bytes in the place of others doesn't read.

ghost use Rattle.std.specs.Prelude.{◌≡◌, ◌≤◌, ◌++◌, Err, IfOk, drop, false, length, take};
ghost use Rattle.design_model.specs.declared.fault.Fault as fault;
ghost use Rattle.def_grammar.specs.Records.{read_def};
ghost use Rattle.edit_rules.specs.Edits.{is_long};
ghost use Rattle.edit_rules.specs.Runs.{new_text};
ghost use Rattle.design_text.specs.Editing.{IsRefused};

use def_reader::read_def::read_def;
use design_model::fault::ReadError;
use edit_model::edit::EditRefusal;
use std::alloc::{AllocError, Allocator};
use std::hash::RandomState;

/// The text after bytes took the place of those from `a` up to `b`.
fn replaced_text<A: Allocator + Copy>(
    alloc: A,
    text: &[u8],
    a: usize,
    b: usize,
    new: &[u8],
) -> Result<Vec<u8, A>, AllocError>
    requires order { a ≤ b }
    requires within { b ≤ length text.now }
    ensures { IfOk result (λ v. v.items ≡ take a text.now ++ (new.now ++ drop b text.now)) }
{
    let Ok(mut all) = Vec::from_slice(alloc, &text[..a]) else {
        return Err(AllocError);
    };
    if let Err(_) = all.extend_from_slice(new) {
        return Err(AllocError);
    }
    if let Err(_) = all.extend_from_slice(&text[b..]) {
        return Err(AllocError);
    }
    Ok(all)
}

/// Why this text doesn't read, or want of memory.
pub(crate) fn replaced_refusal<A: Allocator + Copy>(
    alloc: A,
    hash_builder: RandomState,
    text: &[u8],
    a: usize,
    b: usize,
    new: &[u8],
) -> EditRefusal
    requires order { a ≤ b }
    requires within { b ≤ length text.now }
    requires short { is_long (new_text text.now a b new.now) ≡ false }
    requires fault { (f : fault.Fault) × (read_def (new_text text.now a b new.now) ≡ Err f) }
    ensures { IsRefused text.now a b new.now result }
{
    let Ok(all) = replaced_text(alloc, text, a, b, new) else {
        return EditRefusal::Memory;
    };
    match read_def(alloc, hash_builder, &all) {
        Ok(_) => unreachable!(),
        Err(ReadError::Fault(fault)) => EditRefusal::Unreadable(fault),
        Err(ReadError::Memory) => EditRefusal::Memory,
    }
}
