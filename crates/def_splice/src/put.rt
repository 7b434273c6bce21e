//! The bytes that a splice puts.

ghost use Rattle.std.specs.Prelude.{◌≡◌, ◌≤◌, [], drop, length, map, IfOk};
ghost use Rattle.statement_model.specs.Cuts.{space_before};
ghost use Rattle.edit_rules.specs.ComponentEdits.{placed_text};
ghost use Rattle.edit_rules.specs.Plans.{ends_open, put_apart, space_between};
ghost use Rattle.def_splice.specs.SpliceViews.{cut_view, joined};

use design_model::geometry::Orient;
use design_model::sequence::Sequence;
use edit_model::edit::Splice;
use itoa::Buffer;
use lefdef_tokens::is_white;
use std::alloc::{AllocError, Allocator};
use unit_numbers::print;

/// These bytes, one after the other.
pub fn joined<A: Allocator>(alloc: A, parts: &[&[u8]]) -> Result<Vec<u8, A>, AllocError>
    ensures { IfOk result (λ v. v.items ≡ joined [] (map (λ p. p.now) parts.now)) }
{
    let mut all = Vec::new(alloc);
    for part in parts {
        all.extend_from_slice(part)?;
    }
    Ok(all)
}

/// `PLACED ( x y ) orient`.
pub fn placed_text<A: Allocator>(
    alloc: A,
    x: i64,
    y: i64,
    orient: Orient,
) -> Result<Vec<u8, A>, AllocError>
    ensures { IfOk result (λ v. v.items ≡ placed_text x y orient) }
{
    let mut first = Buffer::new();
    let mut second = Buffer::new();
    joined(
        alloc,
        &[
            b"PLACED ( ",
            print(x, &mut first).as_bytes(),
            b" ",
            print(y, &mut second).as_bytes(),
            b" ) ",
            orient.word(),
        ],
    )
}

/// Whether a byte behind these would be glued to them.
fn ends_open(put: &[u8]) -> bool
    ensures { result ≡ ends_open put.now }
{
    match put.last() {
        Some(&byte) => !is_white(byte),
        None => false,
    }
}

/// A space, where what stands at a place would be glued to what comes before it.
fn space_before(text: &[u8], at: usize) -> &'static [u8]
    requires { at ≤ length text.now }
    ensures { result.now ≡ space_before (drop at text.now) }
{
    if at == text.len() || is_white(text[at]) {
        b""
    } else {
        b" "
    }
}

/// A space, where what stands at a place would be glued to these bytes.
fn space_between(put: &[u8], text: &[u8], at: usize) -> &'static [u8]
    requires { at ≤ length text.now }
    ensures { result.now ≡ space_between put.now (drop at text.now) }
{
    if ends_open(put) {
        space_before(text, at)
    } else {
        b""
    }
}

/// The splice that puts bytes in the place of those from `lo` up to `hi`, and a space after them where what follows would be
/// glued to them.
pub fn put_apart<A: Allocator>(
    alloc: A,
    text: &[u8],
    lo: usize,
    hi: usize,
    parts: &[&[u8]],
) -> Result<Splice<A>, AllocError>
    requires { hi ≤ length text.now }
    ensures { IfOk result (λ s. cut_view s ≡ put_apart text.now lo hi (joined [] (map (λ p. p.now) parts.now))) }
{
    let mut all = joined(alloc, parts)?;
    let space = space_between(&all, text, hi);
    all.extend_from_slice(space)?;
    Ok(Splice {
        lo,
        hi,
        put: Sequence::from_vec(all),
    })
}
