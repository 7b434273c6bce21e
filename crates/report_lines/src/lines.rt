//! Lines that reports are put into.

ghost use Rattle.std.specs.Prelude.{◌≡◌, ◌++◌, ◌∷◌, [], IfOk, OnErr, OnOk, map};
ghost use Rattle.design_model.specs.Lines.{IsOfItsKind, line_text};
ghost use Rattle.design_model.specs.Order.{sorted_by_bytes, texts};
ghost use Rattle.report_lines.specs.Kinds.{HaveTheirKinds};

use design_model::diagnostic::{DiagKind, DiagLine, DiagLines, sort_lines};
use design_model::sequence::Sequence;
use itoa::Buffer;
use std::alloc::{AllocError, Allocator, Global};
use std::marker::Model;
use unit_numbers::print;

/// The most bytes that a number takes, with the space before it.
const NUMBER_SPACE: usize = 21;

/// Lines of a report.
#[derive(Drop)]
pub struct Lines<A: Allocator = Global> {
    lines: Vec<DiagLine<A>, A>,
}

impl<A: Allocator> Model for Lines<A> {
    ghost use Rattle.std.specs.Prelude.{ℕ, List};
    ghost use Rattle.report_lines.specs.Kinds.{HaveTheirKinds};
    ghost use Rattle.design_model.specs.Order.{texts};

    ghost Value = { List (List ℕ) };

    ghost view = { λ l. texts l.lines.items };

    ghost invariant = { λ l. HaveTheirKinds l.lines.items };
}

/// How many bytes the line of these has at most.
fn line_space(kind: DiagKind, words: &[&[u8]], nums: &[i64]) -> usize {
    let mut space = kind.word().len();
    for word in words {
        space = space.saturating_add(word.len()).saturating_add(1);
    }
    space.saturating_add(nums.len().saturating_mul(NUMBER_SPACE))
}

/// A line: its kind, its words and its numbers, parted by spaces.
fn line_of<A: Allocator + Copy>(
    alloc: A,
    kind: DiagKind,
    words: &[&[u8]],
    nums: &[i64],
) -> Result<DiagLine<A>, AllocError>
    ensures text { IfOk result (λ l. l.text ≡ line_text kind (map (λ w. w.now) words.now) nums.now) }
    ensures kind { IfOk result (λ l. IsOfItsKind l) }
{
    let mut text = Vec::with_capacity(alloc, line_space(kind, words, nums))?;
    text.extend_from_slice(kind.word())?;
    for word in words {
        text.push(b' ')?;
        text.extend_from_slice(word)?;
    }
    let mut buffer = Buffer::new();
    for number in nums {
        text.push(b' ')?;
        text.extend_from_slice(print(*number, &mut buffer).as_bytes())?;
    }
    Ok(DiagLine {
        kind,
        text: Sequence::from_vec(text),
    })
}

impl<A: Allocator + Copy> Lines<A> {
    /// No lines. It takes no memory.
    pub fn new(alloc: A) -> Lines<A>
        ensures { result ≡ [] }
    {
        Lines {
            lines: Vec::new(alloc),
        }
    }

    /// Puts a line of these words and numbers behind the others.
    pub fn put(&mut self, kind: DiagKind, words: &[&[u8]], nums: &[i64]) -> Result<(), AllocError>
        ensures ok { OnOk result (self.new ≡ self.old ++ line_text kind (map (λ w. w.now) words.now) nums.now ∷ []) }
        ensures err { OnErr result (self.new ≡ self.old) }
    {
        let line = line_of(*self.lines.allocator(), kind, words, nums)?;
        self.lines.push(line)?;
        Ok(())
    }

    /// The lines in the order of their bytes, repeats kept. It takes no memory.
    pub fn into_sorted(self) -> DiagLines<A>
        ensures texts { texts result ≡ sorted_by_bytes self }
        ensures kinds { HaveTheirKinds result }
    {
        let mut lines = self.lines;
        sort_lines(&mut lines);
        Sequence::from_vec(lines)
    }
}
