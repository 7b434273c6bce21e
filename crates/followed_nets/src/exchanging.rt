//! Nets that are taken out of those whose shapes and lines are kept, and others that are put in.

ghost use Rattle.std.specs.Prelude.{◌≡◌, ◌∷◌, ◌++◌, ◌+◌, ◌≤◌, IfOk, IfSome, List, OnOk, map};
ghost use Rattle.connection_rules.specs.NetLines.{Barrier, short_of};
ghost use Rattle.design_model.specs.Families.{cross_lines};
ghost use Rattle.line_laws.specs.Lines.{SameLines, SameThings};
ghost use Rattle.named_shapes.specs.Named.{named};
ghost use Rattle.net_touches.specs.Barriers.{name_at};
ghost use Rattle.followed_nets.specs.Pieces.{AreAmong, AreOnPieces, ArePieces, IsPiece, Piece};
ghost use Rattle.followed_nets.specs.Tests.{near_each, near_told};
ghost use Rattle.followed_nets.specs.ToldViews.{told_view};

use crate::changed_shapes::without_same;
use crate::star_exchange::ToldExchange;
use crate::told::ToldNet;
use kept_lines::KeptLines;
use line_laws::sorting::same_lines_sort_alike;
use named_shapes::NamedShapes;
use net_queries::short_is_symmetric;
use report_lines::{Checked, Lines};
use std::alloc::{AllocError, Allocator, Global};

/// How many lines the exchange of a net may move: beyond that, making them anew is sooner done.
pub(crate) const MOST_MOVED: usize = 268435456;

/// The lines on nets after an edit, and how many pairs of shapes were compared for them.
#[derive(Drop)]
pub struct FollowedOnNets<A: Allocator = Global> {
    pub lines: KeptLines<A>,
    pub tests: u64,
}

/// Takes the shapes of a net out, and gives the lines on it by itself and those of its shapes with the others; `None` where they weren't
/// all there.
fn take_out<A: Allocator + Copy>(
    layers: &[&[u8]],
    shapes: &mut NamedShapes<A>,
    net: ToldNet<A>,
) -> Result<Option<Checked<A>>, AllocError>
    ensures shapes { let told = told_view net in IfOk result (λ found. IfSome found (λ _. SameThings shapes.old (map (named told.name) told.shapes ++ shapes.new))) }
    ensures lines { let told = told_view net in IfOk result (λ found. IfSome found (λ c. SameLines c.lines (told.lines ++ cross_lines (short_of (name_at (map (λ w. w.now) layers.now))) (map (named told.name) told.shapes) shapes.new))) }
    ensures tests { IfOk result (λ found. IfSome found (λ c. c.tests ≤ near_each (told_view net).shapes shapes.new)) }
{
    let ToldNet {
        name,
        lines,
        shapes: own,
        tests: _,
    } = net;
    if !shapes.remove(name.as_slice(), own.as_slice()) {
        return Ok(None);
    }
    let checked = shapes.put_shorts(layers, name.as_slice(), own.as_slice(), lines)?;
    Ok(Some(checked))
}

/// Puts the shapes of a net in, and gives the lines on it by itself and those of its shapes with the others.
fn put_in<A: Allocator + Copy>(
    alloc: A,
    layers: &[&[u8]],
    shapes: &mut NamedShapes<A>,
    net: ToldNet<A>,
) -> Result<Checked<A>, AllocError>
    ensures shapes { let told = told_view net in OnOk result (SameThings shapes.new (map (named told.name) told.shapes ++ shapes.old)) }
    ensures lines { let told = told_view net in IfOk result (λ c. SameLines c.lines (told.lines ++ cross_lines (short_of (name_at (map (λ w. w.now) layers.now))) (map (named told.name) told.shapes) shapes.old)) }
    ensures tests { IfOk result (λ c. c.tests ≤ near_each (told_view net).shapes shapes.old) }
{
    let ToldNet {
        name,
        lines,
        shapes: own,
        tests: _,
    } = net;
    let checked = shapes.put_shorts(layers, name.as_slice(), own.as_slice(), lines)?;
    shapes.insert(alloc, name.as_slice(), own.as_slice())?;
    Ok(checked)
}

/// The lines on what is left where a net is taken out, unless they are sooner made anew. The shapes follow, too. `layers` are the names of
/// all layers, from the bottom up.
fn take_out_net<A: Allocator + Copy>(
    alloc: A,
    layers: &[&[u8]],
    shapes: &mut NamedShapes<A>,
    net: ToldNet<A>,
    followed: FollowedOnNets<A>,
) -> Result<Option<FollowedOnNets<A>>, AllocError>
    requires { (bars : List Barrier) × (piece : Piece) × (rest : List Piece) × IsPiece (name_at (map (λ w. w.now) layers.now)) bars piece (told_view net) × AreOnPieces (name_at (map (λ w. w.now) layers.now)) bars (piece ∷ rest) shapes.old followed.lines.lines }
    ensures follows { (bars : List Barrier) (piece : Piece) (rest : List Piece) → IsPiece (name_at (map (λ w. w.now) layers.now)) bars piece (told_view net) → AreOnPieces (name_at (map (λ w. w.now) layers.now)) bars (piece ∷ rest) shapes.old followed.lines.lines
        → IfOk result (λ found. IfSome found (λ f. AreOnPieces (name_at (map (λ w. w.now) layers.now)) bars rest shapes.new f.lines.lines)) }
    ensures shapes { IfOk result (λ found. IfSome found (λ _. AreAmong shapes.new shapes.old)) }
    ensures tests { IfOk result (λ found. IfSome found (λ f. f.tests ≤ followed.tests + near_each (told_view net).shapes shapes.new)) }
{
    let Some(out) = take_out(layers, shapes, net)? else {
        return Ok(None);
    };
    let tests = followed.tests.saturating_add(out.tests);
    let none = Lines::new(alloc);
    let Some(lines) = followed.lines.followed(out.lines, none, MOST_MOVED)? else {
        return Ok(None);
    };
    Ok(Some(FollowedOnNets { lines, tests }))
}

/// The lines once a net is put in, unless they are sooner made anew. The shapes follow, too. `layers` are the names of all layers, from the
/// bottom up.
fn put_in_net<A: Allocator + Copy>(
    alloc: A,
    layers: &[&[u8]],
    shapes: &mut NamedShapes<A>,
    net: ToldNet<A>,
    followed: FollowedOnNets<A>,
) -> Result<Option<FollowedOnNets<A>>, AllocError>
    requires { (bars : List Barrier) × (piece : Piece) × (rest : List Piece) × IsPiece (name_at (map (λ w. w.now) layers.now)) bars piece (told_view net) × AreOnPieces (name_at (map (λ w. w.now) layers.now)) bars rest shapes.old followed.lines.lines }
    ensures follows { (bars : List Barrier) (piece : Piece) (rest : List Piece) → IsPiece (name_at (map (λ w. w.now) layers.now)) bars piece (told_view net) → AreOnPieces (name_at (map (λ w. w.now) layers.now)) bars rest shapes.old followed.lines.lines
        → IfOk result (λ found. IfSome found (λ f. AreOnPieces (name_at (map (λ w. w.now) layers.now)) bars (piece ∷ rest) shapes.new f.lines.lines)) }
    ensures shapes { IfOk result (λ found. IfSome found (λ _. AreAmong shapes.old shapes.new)) }
    ensures tests { IfOk result (λ found. IfSome found (λ f. f.tests ≤ followed.tests + near_each (told_view net).shapes shapes.old)) }
{
    let put = put_in(alloc, layers, shapes, net)?;
    let tests = followed.tests.saturating_add(put.tests);
    let none = Lines::new(alloc);
    let Some(lines) = followed.lines.followed(none, put.lines, MOST_MOVED)? else {
        return Ok(None);
    };
    Ok(Some(FollowedOnNets { lines, tests }))
}

/// The lines on what is left where several nets are taken out.
fn take_out_nets<A: Allocator + Copy>(
    alloc: A,
    layers: &[&[u8]],
    shapes: &mut NamedShapes<A>,
    nets: Vec<ToldNet<A>, A>,
    followed: FollowedOnNets<A>,
) -> Result<Option<FollowedOnNets<A>>, AllocError>
    requires { (bars : List Barrier) × (pieces : List Piece) × (rest : List Piece) × ArePieces (name_at (map (λ w. w.now) layers.now)) bars pieces (map told_view nets.items) × AreOnPieces (name_at (map (λ w. w.now) layers.now)) bars (pieces ++ rest) shapes.old followed.lines.lines }
    ensures follows { (bars : List Barrier) (pieces rest : List Piece) → ArePieces (name_at (map (λ w. w.now) layers.now)) bars pieces (map told_view nets.items) → AreOnPieces (name_at (map (λ w. w.now) layers.now)) bars (pieces ++ rest) shapes.old followed.lines.lines
        → IfOk result (λ found. IfSome found (λ f. AreOnPieces (name_at (map (λ w. w.now) layers.now)) bars rest shapes.new f.lines.lines)) }
    ensures tests { IfOk result (λ found. IfSome found (λ f. f.tests ≤ followed.tests + near_told (map told_view nets.items) shapes.old)) }
{
    short_is_symmetric();
    same_lines_sort_alike();
    let mut nets = nets;
    let mut followed = followed;
    while let Some(net) = nets.pop() {
        match take_out_net(alloc, layers, shapes, net, followed)? {
            Some(left) => followed = left,
            None => return Ok(None),
        }
    }
    Ok(Some(followed))
}

/// The lines once several nets are put in.
fn put_in_nets<A: Allocator + Copy>(
    alloc: A,
    layers: &[&[u8]],
    shapes: &mut NamedShapes<A>,
    nets: Vec<ToldNet<A>, A>,
    followed: FollowedOnNets<A>,
) -> Result<Option<FollowedOnNets<A>>, AllocError>
    requires { (bars : List Barrier) × (pieces : List Piece) × (rest : List Piece) × ArePieces (name_at (map (λ w. w.now) layers.now)) bars pieces (map told_view nets.items) × AreOnPieces (name_at (map (λ w. w.now) layers.now)) bars rest shapes.old followed.lines.lines }
    ensures follows { (bars : List Barrier) (pieces rest : List Piece) → ArePieces (name_at (map (λ w. w.now) layers.now)) bars pieces (map told_view nets.items) → AreOnPieces (name_at (map (λ w. w.now) layers.now)) bars rest shapes.old followed.lines.lines
        → IfOk result (λ found. IfSome found (λ f. AreOnPieces (name_at (map (λ w. w.now) layers.now)) bars (pieces ++ rest) shapes.new f.lines.lines)) }
    ensures tests { IfOk result (λ found. IfSome found (λ f. f.tests ≤ followed.tests + near_told (map told_view nets.items) shapes.new)) }
{
    let mut nets = nets;
    let mut followed = followed;
    while let Some(net) = nets.pop() {
        match put_in_net(alloc, layers, shapes, net, followed)? {
            Some(more) => followed = more,
            None => return Ok(None),
        }
    }
    Ok(Some(followed))
}

/// The lines on nets once all that goes is taken out and then all that comes is put in, so that nothing of what went is compared with what
/// came. Shapes that both have aren't touched, and the others follow. `layers` are the names of all layers, from the bottom up, and `start` has
/// the lines before it, with how many pairs of shapes were compared to tell the nets.
pub(crate) fn exchange_nets<A: Allocator + Copy>(
    alloc: A,
    layers: &[&[u8]],
    shapes: &mut NamedShapes<A>,
    told: ToldExchange<A>,
    start: FollowedOnNets<A>,
) -> Result<Option<FollowedOnNets<A>>, AllocError>
    requires { (bars : List Barrier) × (out : List Piece) × (put : List Piece) × (rest : List Piece) × ArePieces (name_at (map (λ w. w.now) layers.now)) bars out (map told_view told.gone.items) × ArePieces (name_at (map (λ w. w.now) layers.now)) bars put (map told_view told.come.items) × AreOnPieces (name_at (map (λ w. w.now) layers.now)) bars (out ++ rest) shapes.old start.lines.lines }
    ensures lines { (bars : List Barrier) (out put rest : List Piece) → ArePieces (name_at (map (λ w. w.now) layers.now)) bars out (map told_view told.gone.items) → ArePieces (name_at (map (λ w. w.now) layers.now)) bars put (map told_view told.come.items) → AreOnPieces (name_at (map (λ w. w.now) layers.now)) bars (out ++ rest) shapes.old start.lines.lines
        → IfOk result (λ found. IfSome found (λ f. AreOnPieces (name_at (map (λ w. w.now) layers.now)) bars (put ++ rest) shapes.new f.lines.lines)) }
    ensures tests { IfOk result (λ found. IfSome found (λ f. f.tests ≤ start.tests + (near_told (map told_view told.gone.items) shapes.old + near_told (map told_view told.come.items) shapes.new))) }
{
    short_is_symmetric();
    same_lines_sort_alike();
    let ToldExchange {
        gone,
        come,
        tests: _,
    } = without_same(alloc, told)?;
    let Some(left) = take_out_nets(alloc, layers, shapes, gone, start)? else {
        return Ok(None);
    };
    let Some(followed) = put_in_nets(alloc, layers, shapes, come, left)? else {
        return Ok(None);
    };
    Ok(Some(followed))
}
