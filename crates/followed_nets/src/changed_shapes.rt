//! What goes and what comes of nets, without the shapes that are in both: most edits of a net or of a component leave most shapes of the
//! nets that they touch.

ghost use Rattle.std.specs.Prelude.{◌≡◌, ◌++◌, ◌∷◌, [], IfOk, List, OnOk, map};
ghost use Rattle.lef_grammar.specs.Measures.{Shape};
ghost use Rattle.line_laws.specs.Lines.{SameThings};
ghost use Rattle.net_lists.specs.PartCuts.{shape_view};
ghost use Rattle.followed_nets.specs.Lacking.{LackTheSame};
ghost use Rattle.followed_nets.specs.ToldViews.{told_view};

use crate::star_exchange::ToldExchange;
use crate::told::ToldNet;
use kept_nets::is_same_shape;
use net_lists::NetShape;
use std::alloc::{AllocError, Allocator};

/// Takes off the shapes that two lists have alike at their ends.
fn take_off_ends<A: Allocator + Copy>(
    a: &mut Vec<NetShape, A>,
    b: &mut Vec<NetShape, A>,
) -> Result<(), AllocError>
    ensures { OnOk result ((ends : List Shape) × (map shape_view a.old.items ≡ map shape_view a.new.items ++ ends) × (map shape_view b.old.items ≡ map shape_view b.new.items ++ ends)) }
{
    while let Some(x) = a.pop() {
        let Some(y) = b.pop() else {
            a.push(x)?;
            return Ok(());
        };
        if !is_same_shape(&x, &y) {
            a.push(x)?;
            b.push(y)?;
            return Ok(());
        }
    }
    Ok(())
}

/// Turns a list of shapes round.
fn turn_round<A: Allocator + Copy>(shapes: &mut Vec<NetShape, A>)
    ensures { SameThings (map shape_view shapes.old.items) (map shape_view shapes.new.items) }
{
    shapes.as_mut_slice().reverse();
}

/// Takes off the shapes that two lists have alike at their ends and at their beginnings, and turns the lists round.
fn take_off_same<A: Allocator + Copy>(
    a: &mut Vec<NetShape, A>,
    b: &mut Vec<NetShape, A>,
) -> Result<(), AllocError>
    ensures { OnOk result ((same : List Shape) × SameThings (map shape_view a.old.items) (map shape_view a.new.items ++ same) × SameThings (map shape_view b.old.items) (map shape_view b.new.items ++ same)) }
{
    take_off_ends(a, b)?;
    turn_round(a);
    turn_round(b);
    take_off_ends(a, b)?;
    Ok(())
}

/// Puts what goes and what comes of a net behind others, without the shapes that both have.
fn push_changed<A: Allocator + Copy>(
    out: ToldNet<A>,
    put: ToldNet<A>,
    changed: &mut ToldExchange<A>,
) -> Result<(), AllocError>
    ensures { OnOk result (LackTheSame (map told_view changed.new.gone.items) (map told_view changed.new.come.items) (told_view out ∷ map told_view changed.old.gone.items) (told_view put ∷ map told_view changed.old.come.items)) }
{
    let mut out = out;
    let mut put = put;
    if out.name.as_slice() == put.name.as_slice() {
        take_off_same(&mut out.shapes, &mut put.shapes)?;
    }
    changed.gone.push(out)?;
    changed.come.push(put)?;
    Ok(())
}

/// What goes and what comes, net by net without the shapes that both have.
pub(crate) fn without_same<A: Allocator + Copy>(
    alloc: A,
    told: ToldExchange<A>,
) -> Result<ToldExchange<A>, AllocError>
    ensures { IfOk result (λ e. LackTheSame (map told_view e.gone.items) (map told_view e.come.items) (map told_view told.gone.items) (map told_view told.come.items)) }
{
    let ToldExchange { gone, come, tests } = told;
    let mut gone = gone;
    let mut come = come;
    let mut changed = ToldExchange {
        gone: Vec::new(alloc),
        come: Vec::new(alloc),
        tests,
    };
    while let Some(out) = gone.pop() {
        match come.pop() {
            Some(put) => push_changed(out, put, &mut changed)?,
            None => changed.gone.push(out)?,
        }
    }
    changed.come.append(&mut come)?;
    Ok(changed)
}
