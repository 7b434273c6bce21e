//! The bytes that edits of a section put.

ghost use Rattle.std.specs.Prelude.{◌≡◌, ◌++◌, IfOk};
ghost use Rattle.edit_rules.specs.Edits.{lent};
ghost use Rattle.edit_rules.specs.SectionEdits.{blockage_text, component_text, kind_text};

use crate::put::joined;
use itoa::Buffer;
use std::alloc::{AllocError, Allocator};
use unit_numbers::print;

/// `- component cell ;`
pub fn component_text<A: Allocator>(
    alloc: A,
    component: &[u8],
    cell: &[u8],
) -> Result<Vec<u8, A>, AllocError>
    ensures { IfOk result (λ v. v.items ≡ component_text component.now cell.now) }
{
    joined(alloc, &[b"- ", component, b" ", cell, b" ;\n"])
}

/// `LAYER` and a layer's name, or `PLACEMENT` where there is none.
fn kind_words<'a>(layer: Option<&'a [u8]>) -> (&'a [u8], &'a [u8])
    ensures { result.0.now ++ result.1.now ≡ kind_text (lent (λ l. l.now) layer.entry) }
{
    match layer {
        Some(layer) => (b"LAYER ", layer),
        None => (b"PLACEMENT", b""),
    }
}

/// `- LAYER layer RECT ( x1 y1 ) ( x2 y2 ) ;`, or with `PLACEMENT` where there is no layer.
pub fn blockage_text<A: Allocator>(
    alloc: A,
    layer: Option<&[u8]>,
    x1: i64,
    y1: i64,
    x2: i64,
    y2: i64,
) -> Result<Vec<u8, A>, AllocError>
    ensures { IfOk result (λ v. v.items ≡ blockage_text (lent (λ l. l.now) layer.entry) x1 y1 x2 y2) }
{
    let mut first = Buffer::new();
    let mut second = Buffer::new();
    let mut third = Buffer::new();
    let mut fourth = Buffer::new();
    let x1 = print(x1, &mut first).as_bytes();
    let y1 = print(y1, &mut second).as_bytes();
    let x2 = print(x2, &mut third).as_bytes();
    let y2 = print(y2, &mut fourth).as_bytes();
    let (kind, name) = kind_words(layer);
    joined(
        alloc,
        &[
            b"- ", kind, name, b" RECT", b" ( ", x1, b" ", y1, b" )", b" ( ", x2, b" ", y2, b" )",
            b" ;\n",
        ],
    )
}
