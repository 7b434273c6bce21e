//! Nets that are kept with their parts, in which the pins of one component are exchanged.

ghost use Rattle.std.specs.Prelude.{◌≡◌, ◌≤◌, ◌+◌, ◌++◌, ◌⊎◌, ℕ, IfOk, IfSome, List, map};
ghost use Rattle.def_grammar.specs.Records.{Record};
ghost use Rattle.lef_grammar.specs.Library.{Library as TheLibrary};
ghost use Rattle.connection_rules.specs.NetLines.{class_lines};
ghost use Rattle.connection_rules.specs.NetParts.{Part};
ghost use Rattle.kept_nets.specs.NearParts.{GrewBy, met_between, met_in_parts, near_in_parts};
ghost use Rattle.kept_nets.specs.Parts.{part_view, shapes_in};
ghost use Rattle.line_laws.specs.Lines.{SameThings};
ghost use Rattle.net_lists.specs.PartCuts.{shape_view};
ghost use Rattle.followed_nets.specs.StarExchanges.{AreStarsThen, ArePinsOfNet, AwaitsStars};
ghost use Rattle.followed_nets.specs.Stars.{names_of};
ghost use Rattle.followed_nets.specs.StarTests.{near_in_nets};
ghost use Rattle.followed_nets.specs.ToldViews.{star_view, told_view};

use crate::told::ToldNet;
use crate::touched::ToldStar;
use kept_nets::{KeptNet, shapes_of};
use net_laws::one_component_exchanged;
use net_lists::NetShape;
use net_queries::parts_in_any_order;
use report_lines::Lines;
use std::alloc::{AllocError, Allocator};

/// What goes and what comes where some pins of a net are exchanged, and how many pairs of its shapes were compared to find how it hangs
/// together then.
#[derive(Drop)]
struct ExchangedPins<A: Allocator> {
    gone: ToldNet<A>,
    come: ToldNet<A>,
    tests: u64,
}

/// What goes and what comes where nets are exchanged, and how many pairs of shapes were compared to find how each of these hangs together.
#[derive(Drop)]
pub(crate) struct ToldExchange<A: Allocator> {
    pub(crate) gone: Vec<ToldNet<A>, A>,
    pub(crate) come: Vec<ToldNet<A>, A>,
    pub(crate) tests: u64,
}

/// Nets that are kept with their parts, what went and what came in each, in one order, and how many pairs of shapes were compared for that.
#[derive(Drop)]
pub(crate) struct ExchangedStars<A: Allocator> {
    pub(crate) stars: Vec<KeptNet<A>, A>,
    pub(crate) gone: Vec<ToldNet<A>, A>,
    pub(crate) come: Vec<ToldNet<A>, A>,
    pub(crate) tests: u64,
}

/// What goes and what comes, with more behind both, for which so many pairs of shapes were compared.
pub(crate) fn with_more<A: Allocator + Copy>(
    told: ToldExchange<A>,
    gone: Vec<ToldNet<A>, A>,
    come: Vec<ToldNet<A>, A>,
    more_tests: u64,
) -> Result<ToldExchange<A>, AllocError>
    ensures gone { IfOk result (λ e. e.gone.items ≡ told.gone.items ++ gone.items) }
    ensures come { IfOk result (λ e. e.come.items ≡ told.come.items ++ come.items) }
    ensures tests { IfOk result (λ e. e.tests ≤ told.tests + more_tests) }
{
    let mut more_gone = gone;
    let mut more_come = come;
    let ToldExchange { gone, come, tests } = told;
    let mut gone = gone;
    let mut come = come;
    gone.append(&mut more_gone)?;
    come.append(&mut more_come)?;
    let tests = tests.saturating_add(more_tests);
    Ok(ToldExchange { gone, come, tests })
}

/// These shapes of a net with the lines on how it hangs together, if that is known. Nothing is compared for it.
fn told_with<A: Allocator + Copy>(
    alloc: A,
    star: &KeptNet<A>,
    shapes: Vec<NetShape, A>,
) -> Result<Option<ToldNet<A>>, AllocError>
    ensures name { IfOk result (λ found. IfSome found (λ t. t.name.items ≡ star.now.name)) }
    ensures lines { IfOk result (λ found. IfSome found (λ t. t.lines ≡ class_lines star.now)) }
    ensures shapes { IfOk result (λ found. IfSome found (λ t. t.shapes.items ≡ shapes.items)) }
{
    let name = Vec::from_slice(alloc, star.name())?;
    let mut lines = Lines::new(alloc);
    if !star.put_class_lines(&mut lines)? {
        return Ok(None);
    }
    Ok(Some(ToldNet {
        name,
        lines,
        shapes,
        tests: 0,
    }))
}

/// Takes pins out of a net and puts others in, and tells both, each with how the net hangs together with them; `None` where those that go
/// weren't all there, or too much is compared.
fn exchange_pins<A: Allocator + Copy>(
    alloc: A,
    star: &mut KeptNet<A>,
    before: ToldStar<A>,
    after: ToldStar<A>,
) -> Result<Option<ExchangedPins<A>>, AllocError>
    ensures name { star.new.name ≡ star.old.name }
    ensures power { star.new.is_power ≡ star.old.is_power }
    ensures gone { IfOk result (λ found. IfSome found (λ e. ArePinsOfNet star.old (star_view before).pins (told_view e.gone))) }
    ensures come { IfOk result (λ found. IfSome found (λ e. ArePinsOfNet star.new (star_view after).pins (told_view e.come))) }
    ensures parts { IfOk result (λ found. IfSome found (λ _. (stay : List Part) × SameThings star.old.parts ((star_view before).pins ++ stay) × SameThings star.new.parts ((star_view after).pins ++ stay))) }
    ensures tests { IfOk result (λ found. IfSome found (λ e. e.tests ≤ near_in_parts star.old.parts + near_in_parts star.new.parts)) }
    ensures least { IfOk result (λ found. IfSome found (λ e. (stay : List Part) → SameThings star.old.parts ((star_view before).pins ++ stay)
        → GrewBy (met_between ((star_view before).pins ++ (star_view after).pins) stay) 0 e.tests ⊎ GrewBy (met_in_parts star.new.parts) 0 e.tests)) }
{
    let out = shapes_of(alloc, &before.pins)?;
    let put = shapes_of(alloc, &after.pins)?;
    let Some(gone) = told_with(alloc, star, out)? else {
        return Ok(None);
    };
    let Some(compared) = star.exchange(&before.pins, after.pins)? else {
        return Ok(None);
    };
    let Some(come) = told_with(alloc, star, put)? else {
        return Ok(None);
    };
    let tests = compared.before.saturating_add(compared.after);
    Ok(Some(ExchangedPins { gone, come, tests }))
}

/// The same of several nets, one after the other.
pub(crate) fn exchange_stars<A: Allocator + Copy>(
    alloc: A,
    stars: Vec<KeptNet<A>, A>,
    before: Vec<ToldStar<A>, A>,
    after: Vec<ToldStar<A>, A>,
) -> Result<Option<ExchangedStars<A>>, AllocError>
    ensures stars { (library : TheLibrary) (old new : List Record) (component : List ℕ) → AwaitsStars library old new component stars.items (map star_view before.items) (map star_view after.items)
        → IfOk result (λ found. IfSome found (λ e. AreStarsThen library old new component (names_of stars.items) e.stars.items (map told_view e.gone.items) (map told_view e.come.items))) }
    ensures tests { IfOk result (λ found. IfSome found (λ e. e.tests ≤ near_in_nets stars.items + near_in_nets e.stars.items)) }
{
    one_component_exchanged();
    parts_in_any_order();
    let mut stars = stars;
    let mut before = before;
    let mut after = after;
    let mut done = Vec::new(alloc);
    let mut gone = Vec::new(alloc);
    let mut come = Vec::new(alloc);
    let mut tests: u64 = 0;
    while let Some(star) = stars.pop() {
        let mut star = star;
        let Some(went) = before.pop() else {
            return Ok(None);
        };
        let Some(came) = after.pop() else {
            return Ok(None);
        };
        let Some(pins) = exchange_pins(alloc, &mut star, went, came)? else {
            return Ok(None);
        };
        done.push(star)?;
        gone.push(pins.gone)?;
        come.push(pins.come)?;
        tests = tests.saturating_add(pins.tests);
    }
    done.as_mut_slice().reverse();
    Ok(Some(ExchangedStars {
        stars: done,
        gone,
        come,
        tests,
    }))
}
