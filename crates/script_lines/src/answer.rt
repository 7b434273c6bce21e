//! The answers to the lines of a script.

ghost use Rattle.std.specs.Prelude.{◌≡◌, ◌++◌, ◌∷◌, [], IfOk, OnOk, decimal, map};
ghost use Rattle.design_model.specs.Order.{texts};
ghost use Rattle.report_rules.specs.Output.{bad_line, refusal_line, reply_line, report_lines};

use design_model::diagnostic::DiagLine;
use edit_model::edit::{Done, EditRefusal};
use itoa::Buffer;
use std::alloc::{AllocError, Allocator};
use unit_numbers::print;

/// Puts a number after some bytes.
pub(crate) fn push_number<A: Allocator>(
    text: &mut Vec<u8, A>,
    number: u64,
) -> Result<(), AllocError>
    ensures { OnOk result (text.new.items ≡ text.old.items ++ decimal number) }
{
    let mut buffer = Buffer::new();
    text.extend_from_slice(print(number, &mut buffer).as_bytes())
}

/// Some bytes and the number of a line, and a line end.
fn numbered<A: Allocator>(alloc: A, word: &[u8], line: u64) -> Result<Vec<u8, A>, AllocError>
    ensures { IfOk result (λ v. v.items ≡ (word.now ++ decimal line) ++ 10 ∷ []) }
{
    let mut text = Vec::from_slice(alloc, word)?;
    push_number(&mut text, line)?;
    text.push(b'\n')?;
    Ok(text)
}

/// The answer to an edit that was refused: its number, and for a text that would not read the fault.
fn refusal_text<A: Allocator>(
    alloc: A,
    line: u64,
    refusal: EditRefusal,
) -> Result<Vec<u8, A>, AllocError>
    ensures { IfOk result (λ v. v.items ≡ refusal_line line refusal) }
{
    let mut text = Vec::from_slice(alloc, b"refused ")?;
    push_number(&mut text, line)?;
    text.extend_from_slice(b" E")?;
    push_number(&mut text, refusal.number() as u64)?;
    if let EditRefusal::Unreadable(fault) = refusal {
        text.extend_from_slice(b" F")?;
        push_number(&mut text, fault.code.number() as u64)?;
        text.push(b' ')?;
        push_number(&mut text, fault.pos as u64)?;
    }
    text.push(b'\n')?;
    Ok(text)
}

/// The answer to an edit.
pub fn reply_text<A: Allocator>(
    alloc: A,
    line: u64,
    reply: Result<Done, EditRefusal>,
) -> Result<Vec<u8, A>, AllocError>
    ensures { IfOk result (λ v. v.items ≡ reply_line line reply) }
{
    match reply {
        Ok(_) => numbered(alloc, b"ok ", line),
        Err(refusal) => refusal_text(alloc, line, refusal),
    }
}

/// The answer to an invalid line.
pub fn bad_text<A: Allocator>(alloc: A, line: u64) -> Result<Vec<u8, A>, AllocError>
    ensures { IfOk result (λ v. v.items ≡ bad_line line) }
{
    numbered(alloc, b"bad ", line)
}

/// The answer to `check`: each line of the report, and their number.
pub fn check_text<A: Allocator + Copy>(
    alloc: A,
    lines: &[&DiagLine<A>],
) -> Result<Vec<u8, A>, AllocError>
    ensures { IfOk result (λ v. v.items ≡ report_lines (texts (map (λ l. l.now) lines.now))) }
{
    let mut text = Vec::new(alloc);
    for line in lines {
        text.extend_from_slice(line.text.as_slice())?;
        text.push(b'\n')?;
    }
    text.extend_from_slice(b"diagnostics ")?;
    push_number(&mut text, lines.len() as u64)?;
    text.push(b'\n')?;
    Ok(text)
}

/// The answer to `show`: the bytes of the entry, and a line end.
pub fn entry_text<A: Allocator>(alloc: A, bytes: &[u8]) -> Result<Vec<u8, A>, AllocError>
    ensures { IfOk result (λ v. v.items ≡ bytes.now ++ 10 ∷ []) }
{
    let mut text = Vec::from_slice(alloc, bytes)?;
    text.push(b'\n')?;
    Ok(text)
}
