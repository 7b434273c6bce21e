//! The answers to what a line asks of nets and cells.

ghost use Rattle.std.specs.Prelude.{◌≡◌, ◌++◌, ◌∷◌, [], IfOk, Ok, OnOk, Some, decimal};
ghost use Rattle.std.specs.Fmt.{signed_decimal};
ghost use Rattle.std.specs.Option.{option_map};
ghost use Rattle.design_model.specs.Views.{rectangle_of};
ghost use Rattle.report_rules.specs.Output.{box_line, cell_line, length_line, place_cell_line, total_line, with_box, with_corners};

use crate::answer::push_number;
use design_model::geometry::Rect;
use itoa::Buffer;
use std::alloc::{AllocError, Allocator};
use unit_numbers::print;

/// Puts a number with its sign after some bytes.
fn push_signed<A: Allocator>(text: &mut Vec<u8, A>, number: i64) -> Result<(), AllocError>
    ensures { OnOk result (text.new.items ≡ text.old.items ++ signed_decimal number) }
{
    let mut buffer = Buffer::new();
    text.extend_from_slice(print(number, &mut buffer).as_bytes())
}

/// Puts an area after some bytes.
fn push_area<A: Allocator>(text: &mut Vec<u8, A>, area: u128) -> Result<(), AllocError>
    ensures { OnOk result (text.new.items ≡ text.old.items ++ decimal area) }
{
    let mut buffer = Buffer::new();
    text.extend_from_slice(print(area, &mut buffer).as_bytes())
}

/// The answer to `length`: the lengths of all nets together, in database units.
pub fn total_text<A: Allocator>(alloc: A, total: u64) -> Result<Vec<u8, A>, AllocError>
    ensures { IfOk result (λ v. v.items ≡ total_line total) }
{
    let mut text = Vec::from_slice(alloc, b"total ")?;
    push_number(&mut text, total)?;
    text.push(b'\n')?;
    Ok(text)
}

/// The answer to `length n`, in database units.
pub fn length_text<A: Allocator>(
    alloc: A,
    net: &[u8],
    length: u64,
) -> Result<Vec<u8, A>, AllocError>
    ensures { IfOk result (λ v. length_line net.now (Some length) ≡ Ok v.items) }
{
    let mut text = Vec::from_slice(alloc, b"length ")?;
    text.extend_from_slice(net)?;
    text.push(b' ')?;
    push_number(&mut text, length)?;
    text.push(b'\n')?;
    Ok(text)
}

/// Puts the corners of a rectangle after some bytes.
fn push_corners<A: Allocator>(text: &mut Vec<u8, A>, rect: Rect) -> Result<(), AllocError>
    ensures { OnOk result (text.new.items ≡ with_corners text.old.items (rectangle_of rect)) }
{
    push_signed(text, rect.x1)?;
    text.push(b' ')?;
    push_signed(text, rect.y1)?;
    text.push(b' ')?;
    push_signed(text, rect.x2)?;
    text.push(b' ')?;
    push_signed(text, rect.y2)
}

/// Puts a box after some bytes, or `none`.
fn push_box<A: Allocator>(text: &mut Vec<u8, A>, bounds: Option<Rect>) -> Result<(), AllocError>
    ensures { OnOk result (text.new.items ≡ with_box text.old.items (option_map rectangle_of bounds)) }
{
    match bounds {
        Some(rect) => push_corners(text, rect),
        None => text.extend_from_slice(b"none"),
    }
}

/// The answer to `box n`: the box's corners, or that the net has no shape.
pub fn box_text<A: Allocator>(
    alloc: A,
    net: &[u8],
    bounds: Option<Rect>,
) -> Result<Vec<u8, A>, AllocError>
    ensures { IfOk result (λ v. box_line net.now (Some (option_map rectangle_of bounds)) ≡ Ok v.items) }
{
    let mut text = Vec::from_slice(alloc, b"box ")?;
    text.extend_from_slice(net)?;
    text.push(b' ')?;
    push_box(&mut text, bounds)?;
    text.push(b'\n')?;
    Ok(text)
}

/// Puts the numbers of a column and a row, with a space between them, after some bytes.
fn push_place<A: Allocator>(text: &mut Vec<u8, A>, column: u64, row: u64) -> Result<(), AllocError>
    ensures { OnOk result (text.new.items ≡ ((text.old.items ++ decimal column) ++ 32 ∷ []) ++ decimal row) }
{
    push_number(text, column)?;
    text.push(b' ')?;
    push_number(text, row)
}

/// The answer to `cell i j l`, in squares of database units.
pub fn cell_text<A: Allocator>(
    alloc: A,
    column: u64,
    row: u64,
    layer: &[u8],
    area: u128,
) -> Result<Vec<u8, A>, AllocError>
    ensures { IfOk result (λ v. cell_line column row layer.now (Some area) ≡ Ok v.items) }
{
    let mut text = Vec::from_slice(alloc, b"cell ")?;
    push_place(&mut text, column, row)?;
    text.push(b' ')?;
    text.extend_from_slice(layer)?;
    text.push(b' ')?;
    push_area(&mut text, area)?;
    text.push(b'\n')?;
    Ok(text)
}

/// The answer to `pcell i j`, in squares of database units.
pub fn place_cell_text<A: Allocator>(
    alloc: A,
    column: u64,
    row: u64,
    area: u128,
) -> Result<Vec<u8, A>, AllocError>
    ensures { IfOk result (λ v. place_cell_line column row (Some area) ≡ Ok v.items) }
{
    let mut text = Vec::from_slice(alloc, b"pcell ")?;
    push_place(&mut text, column, row)?;
    text.push(b' ')?;
    push_area(&mut text, area)?;
    text.push(b'\n')?;
    Ok(text)
}
