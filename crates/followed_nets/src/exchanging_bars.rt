//! Rectangles that are taken out of those where routing is blocked, and others that are put in, and lines that are kept.

ghost use Rattle.std.specs.Prelude.{◌≡◌, ◌++◌, [], ℕ, IfOk, IfSome, IsTrue, List, map};
ghost use Rattle.design_model.specs.Order.{sorted_by_bytes};
ghost use Rattle.following_laws.specs.Following.{LinesFollow};
ghost use Rattle.line_laws.specs.Lines.{SameThings};
ghost use Rattle.net_touches.specs.Barriers.{barrier_view};

use crate::blocked::{BarredLines, ChangedBars};
use crate::exchanging::MOST_MOVED;
use crate::taking_bars::take_bars;
use kept_lines::KeptLines;
use net_touches::Barrier;
use report_lines::Lines;
use std::alloc::{AllocError, Allocator};

/// Puts the rectangles that came in, and then takes those that went out, and says whether all of these were there.
pub(crate) fn exchange_bars<A: Allocator + Copy>(
    bars: &mut Vec<Barrier, A>,
    changed: ChangedBars<A>,
) -> Result<bool, AllocError>
    ensures { IfOk result (λ there. IsTrue there
        → SameThings (map barrier_view bars.old.items ++ map barrier_view changed.come.items) (map barrier_view changed.gone.items ++ map barrier_view bars.new.items)) }
{
    let ChangedBars { gone, come } = changed;
    let mut come = come;
    bars.append(&mut come)?;
    Ok(take_bars(bars, &gone))
}

/// The lines that are kept once others come, unless that would move too many.
fn with_lines<A: Allocator + Copy>(
    alloc: A,
    kept: KeptLines<A>,
    put: Lines<A>,
) -> Result<Option<KeptLines<A>>, AllocError>
    requires { (before : List (List ℕ)) × (after : List (List ℕ)) × (kept.lines ≡ sorted_by_bytes before) × LinesFollow before after [] put }
    ensures { (before after : List (List ℕ)) → kept.lines ≡ sorted_by_bytes before → LinesFollow before after [] put → IfOk result (λ found. IfSome found (λ k. k.lines ≡ sorted_by_bytes after)) }
{
    let none = Lines::new(alloc);
    kept.followed(none, put, MOST_MOVED)
}

/// The same once some go.
fn without_lines<A: Allocator + Copy>(
    alloc: A,
    kept: KeptLines<A>,
    out: Lines<A>,
) -> Result<Option<KeptLines<A>>, AllocError>
    requires { (before : List (List ℕ)) × (after : List (List ℕ)) × (kept.lines ≡ sorted_by_bytes before) × LinesFollow before after out [] }
    ensures { (before after : List (List ℕ)) → kept.lines ≡ sorted_by_bytes before → LinesFollow before after out [] → IfOk result (λ found. IfSome found (λ k. k.lines ≡ sorted_by_bytes after)) }
{
    let none = Lines::new(alloc);
    kept.followed(out, none, MOST_MOVED)
}

/// The lines that are kept, once the lines with rectangles that came are put in, and then those with rectangles that went are taken out;
/// `None` where they are sooner made anew.
pub(crate) fn exchange_lines<A: Allocator + Copy>(
    alloc: A,
    kept: KeptLines<A>,
    lines: BarredLines<A>,
) -> Result<Option<KeptLines<A>>, AllocError>
    requires { (before : List (List ℕ)) × (between : List (List ℕ)) × (after : List (List ℕ)) × (kept.lines ≡ sorted_by_bytes before) × LinesFollow before between [] lines.put × LinesFollow between after lines.out [] }
    ensures { (before between after : List (List ℕ)) → kept.lines ≡ sorted_by_bytes before → LinesFollow before between [] lines.put → LinesFollow between after lines.out []
        → IfOk result (λ found. IfSome found (λ k. k.lines ≡ sorted_by_bytes after)) }
{
    let BarredLines { out, put } = lines;
    let Some(more) = with_lines(alloc, kept, put)? else {
        return Ok(None);
    };
    let Some(left) = without_lines(alloc, more, out)? else {
        return Ok(None);
    };
    Ok(Some(left))
}
