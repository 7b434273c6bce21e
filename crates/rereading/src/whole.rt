//! The next statement, with as many segments as it needs.

ghost use Rattle.std.specs.Prelude.{◌≡◌, ◌≢◌, ◌≤◌, ◌<◌, ◌+◌, ℕ, List, true, length, OnOk, IfSome, IfNone, MatchOption};
ghost use Rattle.design_model.specs.declared.fault.FaultCode.TheVariants.{OpenString, Unfinished};
ghost use Rattle.rereading.specs.Segments.{BeginApart};
ghost use Rattle.rereading.specs.Steps.{Counts, IsShort, NextWhole, TriesAgain};
ghost use Rattle.rereading.specs.Windows.{Holds};

use crate::next::next_piece;
use crate::segments::Segments;
use crate::window::{Window, is_end};
use design_model::fault::{FaultCode, ReadError};
use design_model::mode::Mode;
use piece_laws::pieces::{faults_stand, pieces_are_found};
use std::alloc::Allocator;

/// How many segments are appended at a time at most.
const MOST: usize = 1048576;

/// Whether a fault stays whatever follows.
fn is_final(code: FaultCode) -> bool
    ensures { result ≡ true → (code ≢ Unfinished) × (code ≢ OpenString) }
{
    !matches!(code, FaultCode::Unfinished | FaultCode::OpenString)
}

/// Twice as many segments, but no more than that.
fn twice(more: usize) -> usize
    ensures { 0 < more → 0 < result }
{
    if more < MOST { more * 2 } else { more }
}

/// The next statement from a position on, or `None` where more segments have to tell, so that it is tried again.
fn next_in<S: Segments, A: Allocator>(
    window: &Window<A>,
    segments: &S,
    mode: Mode,
    pos: usize,
    reads: &mut u64,
    again: &mut u64,
) -> Option<Result<Option<(usize, Mode)>, ReadError>>
    requires pos { pos ≤ length window.now.bytes.items }
    requires apart { BeginApart (S.listed segments.now) }
    requires few { reads.old ≤ pos }
    requires again { again.old ≤ window.now.used }
    ensures whole { (raw : List ℕ) → Holds raw (S.listed segments.now) window.now.used window.now.bytes.items → IfSome result (λ r. NextWhole raw (S.listed segments.now) mode pos window.now.used window.now.bytes.items r) }
    ensures short { IfNone result ((window.now.used < length (S.listed segments.now)) × IsShort mode pos window.now.bytes.items) }
    ensures counts { MatchOption result (reads.new ≡ reads.old) (λ r. Counts reads.old r reads.new) }
    ensures again { MatchOption result (again.new ≡ again.old + 1) (λ r. again.new ≡ again.old) }
{
    faults_stand();
    match next_piece(mode, &window.bytes, pos, reads) {
        Ok(Some(found)) => Some(Ok(Some(found))),
        Ok(None) => {
            if is_end(segments, window.used) {
                Some(Ok(None))
            } else {
                *again += 1;
                None
            }
        }
        Err(fault) => {
            if is_end(segments, window.used) {
                Some(Err(ReadError::Fault(fault)))
            } else if is_final(fault.code) {
                Some(Err(ReadError::Fault(fault)))
            } else {
                *again += 1;
                None
            }
        }
    }
}

/// The next statement from a position on. Each time that it isn't whole, twice as many segments as before are appended, and it
/// is tried again.
pub(crate) fn next_whole<S: Segments, A: Allocator>(
    window: &mut Window<A>,
    segments: &S,
    mode: Mode,
    pos: usize,
    reads: &mut u64,
    again: &mut u64,
) -> Result<Option<(usize, Mode)>, ReadError>
    requires pos { pos ≤ length window.old.bytes.items }
    requires apart { BeginApart (S.listed segments.now) }
    requires few { reads.old ≤ pos }
    requires again { again.old ≤ window.old.used }
    ensures whole { (raw : List ℕ) → Holds raw (S.listed segments.now) window.old.used window.old.bytes.items → NextWhole raw (S.listed segments.now) mode pos window.new.used window.new.bytes.items result }
    ensures pos { OnOk result (pos ≤ length window.new.bytes.items) }
    ensures counts { Counts reads.old result reads.new }
    ensures again { (raw : List ℕ) → Holds raw (S.listed segments.now) window.old.used window.old.bytes.items → TriesAgain raw (S.listed segments.now) window.old.used window.new.used again.old again.new result }
{
    pieces_are_found();
    let mut more = 1;
    'grow: loop {
        if let Some(answer) = next_in(window, segments, mode, pos, reads, again) {
            return answer;
        }
        window.append(segments, more)?;
        more = twice(more);
    }
}
