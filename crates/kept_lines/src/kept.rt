//! Lines in the order of their bytes, which others take the place of.

ghost use Rattle.std.specs.Prelude.{◌≡◌, ◌+◌, ◌++◌, ◌∷◌, [], ◌≤◌, ◌<◌, IfOk, IfSome, List, OnErr, OnOk, false, length, true, ℕ};
ghost use Rattle.std.specs.List.{prefix_len};
ghost use Rattle.design_model.specs.Lines.{IsOfItsKind};
ghost use Rattle.design_model.specs.Order.{put_in_order, sorted_by_bytes, texts};
ghost use Rattle.report_lines.specs.Kinds.{HaveTheirKinds};
ghost use Rattle.line_laws.specs.Lines.{SameLines, times};
ghost use Rattle.following_laws.specs.Following.{LinesFollow};
ghost use Rattle.kept_lines.specs.Kept.{AreInOrder, is_below};

use design_model::diagnostic::{DiagLine, DiagLines};
use design_model::sequence::{Bytes, Sequence};
use following_laws::kept_lines_follow;
use line_laws::sorting::{same_lines_sort_alike, sorting_is_by_lines};
use report_lines::Lines;
use std::alloc::{AllocError, Allocator, Global};
use std::marker::Model;

/// Lines of a report in the order of their bytes, repeats kept.
#[derive(Drop)]
pub struct KeptLines<A: Allocator = Global> {
    lines: Vec<DiagLine<A>, A>,
}

impl<A: Allocator> Model for KeptLines<A> {
    ghost use Rattle.std.specs.Prelude.{vec_capacity};
    ghost use Rattle.design_model.specs.Order.{texts};
    ghost use Rattle.kept_lines.specs.Kept.{AreInOrder, Kept};

    ghost Value = { Kept };

    ghost view = { λ k. record { lines = texts k.lines.items; room = vec_capacity k.lines } };

    ghost invariant = { λ k. AreInOrder k.lines.items };
}

/// A copy of a line.
pub(crate) fn copy_of<A: Allocator + Copy>(
    line: &DiagLine<A>,
    alloc: A,
) -> Result<DiagLine<A>, AllocError>
    ensures { IfOk result (λ l. l ≡ line.now) }
{
    Ok(DiagLine {
        kind: line.kind,
        text: Bytes::from_slice(alloc, line.text.as_slice())?,
    })
}

impl<A: Allocator + Copy> KeptLines<A> {
    /// Keeps the lines of a report. It takes no memory.
    pub fn of(lines: Lines<A>) -> KeptLines<A>
        ensures { result.lines ≡ sorted_by_bytes lines }
    {
        KeptLines {
            lines: lines.into_sorted().into_vec(),
        }
    }

    /// How many lines there are.
    pub fn len(&self) -> usize
        ensures { result ≡ length self.now.lines }
    {
        self.lines.len()
    }

    /// The lines, in their order.
    pub fn lines(&self) -> &[DiagLine<A>]
        ensures lines { texts result.now ≡ self.now.lines }
        ensures in_order { AreInOrder result.now }
    {
        self.lines.as_slice()
    }

    /// Puts copies of the lines behind others, in their order. It takes at most one allocation for each line, and those of the list.
    pub fn copy_to(&self, alloc: A, lines: &mut Vec<DiagLine<A>, A>) -> Result<(), AllocError>
        requires { HaveTheirKinds lines.old.items }
        ensures lines { OnOk result (texts lines.new.items ≡ texts lines.old.items ++ self.now.lines) }
        ensures kinds { OnOk result (HaveTheirKinds lines.new.items) }
    {
        for line in &self.lines {
            lines.push(copy_of(line, alloc)?)?;
        }
        Ok(())
    }

    /// A copy of the lines, in their order. It takes one allocation for the list and at most one for each line.
    pub fn copied(&self, alloc: A) -> Result<DiagLines<A>, AllocError>
        ensures lines { IfOk result (λ l. texts l ≡ self.now.lines) }
        ensures kinds { IfOk result (λ l. HaveTheirKinds l) }
        ensures in_order { sorted_by_bytes self.now.lines ≡ self.now.lines }
    {
        let mut copies = Vec::with_capacity(alloc, self.lines.len())?;
        self.copy_to(alloc, &mut copies)?;
        Ok(Sequence::from_vec(copies))
    }

    /// Makes room for so many more lines.
    pub fn reserve(&mut self, count: usize) -> Result<(), AllocError>
        ensures room { OnOk result (length self.new.lines + count ≤ self.new.room) }
        ensures lines { self.new.lines ≡ self.old.lines }
        ensures kept { self.old.room ≤ self.new.room }
    {
        self.lines.reserve(count)
    }

    /// How many lines are below these bytes, which is where a line of them stands or would stand.
    fn place(&self, line: &[u8]) -> usize
        ensures { result ≡ prefix_len (is_below line.now) self.now.lines }
    {
        self.lines
            .partition_point(|l| l.text.as_slice().cmp(line).is_lt())
    }

    /// Puts a line in its place.
    fn put(&mut self, line: DiagLine<A>)
        requires room { length self.old.lines < self.old.room }
        requires kind { IsOfItsKind line }
        ensures lines { self.new.lines ≡ put_in_order line.text self.old.lines }
        ensures room { self.new.room ≡ self.old.room }
    {
        let place = self.place(line.text.as_slice());
        self.lines.insert(place, line).unwrap();
    }

    /// Takes out one line of these bytes.
    fn take(&mut self, line: &[u8])
        requires { 0 < times line.now self.old.lines }
        ensures taken { SameLines self.old.lines (line.now ∷ self.new.lines) }
        ensures len { length self.new.lines + 1 ≡ length self.old.lines }
        ensures room { self.new.room ≡ self.old.room }
    {
        let place = self.place(line);
        drop(self.lines.remove(place));
    }

    /// Takes lines out, each as often as it stands in `out`. It takes no memory. Each line that goes moves those above it.
    pub fn take_all(&mut self, out: &[DiagLine<A>])
        requires { (q : List ℕ) → times q (texts out.now) ≤ times q self.old.lines }
        ensures taken { SameLines self.old.lines (texts out.now ++ self.new.lines) }
        ensures len { length self.new.lines + length out.now ≡ length self.old.lines }
        ensures room { self.new.room ≡ self.old.room }
    {
        for line in out {
            self.take(line.text.as_slice());
        }
    }

    /// Puts lines in, each in its place, and leaves `put` empty. It takes no memory. Each line that comes moves those above it, so
    /// that for many lines among many a merge would be quicker.
    pub fn put_all(&mut self, put: &mut Vec<DiagLine<A>, A>)
        requires room { length self.old.lines + length put.old.items ≤ self.old.room }
        requires kinds { HaveTheirKinds put.old.items }
        ensures lines { SameLines self.new.lines (texts put.old.items ++ self.old.lines) }
        ensures room { self.new.room ≡ self.old.room }
        ensures none_left { put.new.items ≡ [] }
    {
        while let Some(line) = put.pop() {
            self.put(line);
        }
    }

    /// Takes lines out, each as often as it stands in `out`, and puts others in, each in its place, and says so; or leaves all lines as
    /// they are where that would move more than so many. Where there is neither room for those that come nor memory to make some, no
    /// line changes either.
    pub fn exchange(
        &mut self,
        out: Lines<A>,
        put: Lines<A>,
        most_moved: usize,
    ) -> Result<bool, AllocError>
        requires { (q : List ℕ) → times q out ≤ times q self.old.lines }
        ensures follow { IfOk result (λ made. made ≡ true → LinesFollow self.old.lines self.new.lines out put) }
        ensures in_order { IfOk result (λ made. made ≡ true → sorted_by_bytes self.new.lines ≡ self.new.lines) }
        ensures same { IfOk result (λ made. made ≡ false → self.new.lines ≡ self.old.lines) }
        ensures refused { OnErr result (self.new.lines ≡ self.old.lines) }
    {
        let out = out.into_sorted();
        let mut put = put.into_sorted().into_vec();
        let changed = out.len().saturating_add(put.len());
        if changed.saturating_mul(self.lines.len().max(changed)) > most_moved {
            let _ = &self.lines;
            return Ok(false);
        }
        self.reserve(put.len())?;
        self.take_all(out.as_slice());
        self.put_all(&mut put);
        let _ = &self.lines;
        Ok(true)
    }

    /// The lines after a change by which these go and those come, unless that would move more than so many lines.
    pub fn followed(
        self,
        out: Lines<A>,
        put: Lines<A>,
        most_moved: usize,
    ) -> Result<Option<KeptLines<A>>, AllocError>
        requires { (before : List (List ℕ)) × (after : List (List ℕ)) × (self.lines ≡ sorted_by_bytes before) × LinesFollow before after out put }
        ensures { (before after : List (List ℕ)) → self.lines ≡ sorted_by_bytes before → LinesFollow before after out put → IfOk result (λ found. IfSome found (λ k. k.lines ≡ sorted_by_bytes after)) }
    {
        sorting_is_by_lines();
        same_lines_sort_alike();
        kept_lines_follow();
        let mut kept = self;
        if kept.exchange(out, put, most_moved)? {
            Ok(Some(kept))
        } else {
            Ok(None)
        }
    }
}
