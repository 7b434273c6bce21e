//! A window on a text: bytes with an edit in them, and as many segments behind them as were needed.

ghost use Rattle.std.specs.Prelude.{◌≡◌, ◌≤◌, ◌<◌, ◌+◌, ◌^◌, ◌++◌, ℕ, List, length, take, Some, OnOk, slice_get, true, false};
ghost use Rattle.rereading.specs.Segments.{bytes_of};
ghost use Rattle.rereading.specs.Windows.{Holds, IsTight};

use crate::segments::Segments;
use std::alloc::{AllocError, Allocator};

/// The bytes that are read, and how many segments are in them.
#[derive(Drop)]
pub(crate) struct Window<A: Allocator> {
    pub bytes: Vec<u8, A>,
    pub used: usize,
}

/// Whether no segment stands behind so many.
pub(crate) fn is_end<S: Segments>(segments: &S, k: usize) -> bool
    ensures end { result ≡ true → length (S.listed segments.now) ≤ k }
    ensures more { result ≡ false → k < length (S.listed segments.now) }
    ensures few { result ≡ false → k < 2 ^ 63 }
{
    segments.segment(k).is_none()
}

/// How many bytes a segment has.
fn size_at<S: Segments>(segments: &S, k: usize) -> usize
    ensures { (s : _) → slice_get (S.listed segments.now) k ≡ Some s → result ≡ length s.bytes }
{
    match segments.segment(k) {
        Some(segment) => segment.bytes.len(),
        None => 0,
    }
}

impl<A: Allocator> Window<A> {
    /// Appends so many more segments, or those that there are.
    pub(crate) fn append<S: Segments>(
        &mut self,
        segments: &S,
        more: usize,
    ) -> Result<(), AllocError>
        ensures holds { OnOk result ((raw : List ℕ) → Holds raw (S.listed segments.now) self.old.used self.old.bytes.items → Holds raw (S.listed segments.now) self.new.used self.new.bytes.items) }
        ensures longer { OnOk result ((more : List ℕ) × (self.new.bytes.items ≡ self.old.bytes.items ++ more)) }
        ensures further { OnOk result (0 < more → self.old.used < length (S.listed segments.now) → self.old.used < self.new.used) }
    {
        for _ in 0..more {
            let Some(segment) = segments.segment(self.used) else {
                return Ok(());
            };
            self.bytes.extend_from_slice(segment.bytes)?;
            self.used += 1;
        }
        Ok(())
    }

    /// Takes the last segments out again that begin at or after a position.
    pub(crate) fn give_back<S: Segments>(&mut self, segments: &S, pos: usize)
        requires within { self.old.used ≤ length (S.listed segments.now) }
        requires pos { pos ≤ length self.old.bytes.items }
        ensures holds { (raw : List ℕ) → Holds raw (S.listed segments.now) self.old.used self.old.bytes.items → Holds raw (S.listed segments.now) self.new.used self.new.bytes.items }
        ensures pos { pos ≤ length self.new.bytes.items }
        ensures kept { (raw : List ℕ) → Holds raw (S.listed segments.now) self.old.used self.old.bytes.items → (k : ℕ) → k < self.old.used → length raw + length (bytes_of (take k (S.listed segments.now))) < pos → k < self.new.used }
        ensures tight { (raw : List ℕ) → Holds raw (S.listed segments.now) self.old.used self.old.bytes.items → IsTight raw (S.listed segments.now) self.new.used pos }
    {
        'back: loop {
            if self.used == 0 {
                return;
            }
            let size = size_at(segments, self.used - 1);
            if size > self.bytes.len() - pos {
                return;
            }
            self.used -= 1;
            self.bytes.truncate(self.bytes.len() - size);
        }
    }
}
