//! The bytes that a `text` command puts, which it writes with escapes.

ghost use Rattle.std.specs.Prelude.{◌≡◌, IfOk, Some, length};
ghost use Rattle.edit_rules.specs.Script.{escaped, unescaped};
ghost use Rattle.script_lines.specs.Escapes.{Checks, IsNextByte, SpellsSome};

use std::alloc::{AllocError, Allocator};

/// Bytes with good escapes, and how many bytes they are written for.
#[derive(Clone, Copy)]
pub struct EscapedBytes<'a> {
    pub raw: &'a [u8],
    pub len: usize,
    ghost good: { SpellsSome raw.now len },
}

/// The byte that is written with a backslash and this one.
fn escaped(byte: u8) -> Option<u8>
    ensures { result ≡ escaped byte }
{
    match byte {
        b'n' => Some(b'\n'),
        b'r' => Some(b'\r'),
        b't' => Some(b'\t'),
        b'\\' => Some(b'\\'),
        _ => None,
    }
}

/// The first byte that is written, and what stands behind it: none at the end, and where an escape is none.
fn next_byte(raw: &[u8]) -> Option<(u8, &[u8])>
    ensures { IsNextByte raw.now result }
{
    let len = raw.len();
    if len == 0 {
        return None;
    }
    if raw[0] != b'\\' {
        return Some((raw[0], &raw[1..]));
    }
    if len == 1 {
        return None;
    }
    match escaped(raw[1]) {
        Some(byte) => Some((byte, &raw[2..])),
        None => None,
    }
}

/// Checks the escapes.
pub fn checked(raw: &[u8]) -> Option<EscapedBytes<'_>>
    ensures { Checks (λ e. e.raw.now) raw.now result }
{
    let mut len = 0;
    let mut rest = raw;
    while let Some((_, later)) = next_byte(rest) {
        len += 1;
        rest = later;
    }
    if rest.is_empty() {
        Some(EscapedBytes { raw, len })
    } else {
        None
    }
}

/// The bytes that are written.
pub fn unescaped<A: Allocator>(
    alloc: A,
    escaped: EscapedBytes<'_>,
) -> Result<Vec<u8, A>, AllocError>
    ensures { IfOk result (λ v. unescaped escaped.entry.raw.now ≡ Some v.items) }
{
    let mut put = Vec::new(alloc);
    let mut rest = escaped.raw;
    while let Some((byte, later)) = next_byte(rest) {
        put.push(byte)?;
        rest = later;
    }
    Ok(put)
}
