//! Rereading from an edit on, up to where the old statements go on as they did.

ghost use Rattle.std.specs.Prelude.{◌≡◌, ◌≢◌, ◌≤◌, ℕ, List, Some, length, true, false, OnOk};
ghost use Rattle.rereading.specs.Rereading.{Rereads};
ghost use Rattle.rereading.specs.Segments.{AreFull, BeginApart, mode_at};
ghost use Rattle.rereading.specs.Steps.{Counts, NextNew, TriesAgain};
ghost use Rattle.rereading.specs.Windows.{Holds, IsTight};

use crate::pieces::{Reread, push_piece};
use crate::segments::Segments;
use crate::whole::next_whole;
use crate::window::Window;
use design_model::fault::ReadError;
use design_model::mode::Mode;
use piece_laws::chains::{apart_joins, chains_join, chains_lead, modes_join};
use piece_laws::pieces::{pieces_are_read, tails_are_found};
use std::alloc::Allocator;

/// Whether a position is a window's end, and an old statement comes next that stands in a mode.
fn lands<S: Segments, A: Allocator>(
    window: &Window<A>,
    segments: &S,
    mode: Mode,
    pos: usize,
) -> bool
    ensures there { result ≡ true → (pos ≡ length window.now.bytes.items) × (mode_at (S.listed segments.now) window.now.used ≡ Some mode) }
    ensures not_there { result ≡ false → pos ≡ length window.now.bytes.items → mode_at (S.listed segments.now) window.now.used ≢ Some mode }
{
    if pos != window.bytes.len() {
        return false;
    }
    match segments.segment(window.used) {
        Some(segment) => segment.mode == Some(mode),
        None => false,
    }
}

/// The next statement from a position on, or `None` where an old one comes next that stands in this mode, or all is read.
fn next_new<S: Segments, A: Allocator>(
    window: &mut Window<A>,
    segments: &S,
    mode: Mode,
    pos: usize,
    reads: &mut u64,
    again: &mut u64,
) -> Result<Option<(usize, Mode)>, ReadError>
    requires pos { pos ≤ length window.old.bytes.items }
    requires apart { BeginApart (S.listed segments.now) }
    requires full { AreFull (S.listed segments.now) }
    requires few { reads.old ≤ pos }
    requires again { again.old ≤ window.old.used }
    ensures new { (raw : List ℕ) → Holds raw (S.listed segments.now) window.old.used window.old.bytes.items → IsTight raw (S.listed segments.now) window.old.used pos → NextNew raw (S.listed segments.now) mode pos window.new.used window.new.bytes.items result }
    ensures pos { OnOk result (pos ≤ length window.new.bytes.items) }
    ensures counts { Counts reads.old result reads.new }
    ensures again { (raw : List ℕ) → Holds raw (S.listed segments.now) window.old.used window.old.bytes.items → TriesAgain raw (S.listed segments.now) window.old.used window.new.used again.old again.new result }
{
    if lands(window, segments, mode, pos) {
        return Ok(None);
    }
    next_whole(window, segments, mode, pos, reads, again)
}

/// Reads the statements of raw bytes and then of segments, from a mode on, until they end where an old statement begins that
/// stands in the mode that they lead to, or all is read. Each segment begins with a blank; only the last may be empty. Its
/// fault is that of all bytes.
pub fn reread<S: Segments, A: Allocator + Copy>(
    alloc: A,
    first: Mode,
    raw: &[u8],
    segments: &S,
) -> Result<Reread<A>, ReadError>
    requires apart { BeginApart (S.listed segments.now) }
    requires full { AreFull (S.listed segments.now) }
    ensures { Rereads first raw.now (S.listed segments.now) result }
{
    pieces_are_read();
    tails_are_found();
    chains_join();
    chains_lead();
    modes_join();
    apart_joins();
    let mut window = Window {
        bytes: Vec::from_slice(alloc, raw)?,
        used: 0,
    };
    let mut pieces = Vec::new(alloc);
    let mut mode = first;
    let mut pos = 0;
    let mut reads = 0;
    let mut again = 0;
    'statements: loop {
        match next_new(&mut window, segments, mode, pos, &mut reads, &mut again) {
            Ok(Some((end, after))) => {
                push_piece(alloc, &mut pieces, &window.bytes[pos..end], mode)?;
                mode = after;
                pos = end;
                window.give_back(segments, pos);
            }
            Ok(None) => break,
            Err(error) => return Err(error),
        }
    }
    Ok(Reread {
        pieces,
        rest: Vec::from_slice(alloc, &window.bytes[pos..])?,
        mode,
        used: window.used,
        reads,
        again,
    })
}
