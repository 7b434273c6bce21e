//! What is told of one net of a text.

ghost use Rattle.std.specs.Prelude.{◌≡◌, ◌<◌, ◌≤◌, ◌++◌, [], IfOk, IfSome, List, flat_map, map};
ghost use Rattle.def_grammar.specs.Records.{Record};
ghost use Rattle.def_reader.specs.StatementViews.{record_view};
ghost use Rattle.lef_grammar.specs.Library.{Library as TheLibrary};
ghost use Rattle.connection_rules.specs.NetLines.{Barrier as TheBarrier, layer_name, shapes_of_net};
ghost use Rattle.connection_rules.specs.NetParts.{all_nets, net_named};
ghost use Rattle.design_rules.specs.Boxes.{scale};
ghost use Rattle.following_laws.specs.DesignLaws.{lines_on_nets};
ghost use Rattle.line_laws.specs.Lines.{SameLines};
ghost use Rattle.net_laws.specs.OneNet.{TellNet};
ghost use Rattle.net_lists.specs.PartCuts.{shape_view};
ghost use Rattle.net_touches.specs.Barriers.{barrier_view};
ghost use Rattle.net_checks.specs.Drawings.{IsBarredDrawing};
ghost use Rattle.net_checks.specs.NearWithin.{near_themselves};
ghost use Rattle.design_text.specs.DesignTexts.{design_of};
ghost use Rattle.design_text.specs.Exchanges.{records_in};
ghost use Rattle.followed_nets.specs.Noted.{AreCommon};
ghost use Rattle.followed_nets.specs.Told.{IsTold, IsToldIn};
ghost use Rattle.followed_nets.specs.ToldViews.{tests_of, told_view};

use crate::told_statements::told_statements;
use cell_library::library::Library;
use def_reader::statement::Statement;
use design_model::identifier::StmtId;
use design_names::names::names_of;
use design_text::text::DesignText;
use line_laws::scales::scales_are_good;
use net_checks::NetDrawing;
use net_laws::one_net_is_told;
use net_lists::NetShape;
use net_touches::Barrier;
use report_lines::{Checked, Lines};
use std::alloc::{AllocError, Allocator, Global};

/// A net's name, the lines on it by itself, its shapes, and how many pairs of these were compared to find how its parts hang together.
#[derive(Drop)]
pub(crate) struct ToldNet<A: Allocator = Global> {
    pub(crate) name: Vec<u8, A>,
    pub(crate) lines: Lines<A>,
    pub(crate) shapes: Vec<NetShape, A>,
    pub(crate) tests: u64,
}

/// How many pairs of shapes were compared to tell nets.
pub(crate) fn tests_told<A: Allocator + Copy>(nets: &[ToldNet<A>]) -> u64
    ensures { result ≤ tests_of nets.now }
{
    let mut tests: u64 = 0;
    for net in nets {
        tests = tests.saturating_add(net.tests);
    }
    tests
}

/// The lines on the nets that are drawn, and their shapes, under a name.
fn told_by<A: Allocator + Copy>(
    alloc: A,
    drawing: &NetDrawing<'_, '_, A>,
    net: &[u8],
) -> Result<ToldNet<A>, AllocError>
    ensures name { IfOk result (λ t. t.name.items ≡ net.now) }
    ensures lines { (library : TheLibrary) (design : List Record) (bars : List TheBarrier) → IsBarredDrawing library design bars drawing.now
        → IfOk result (λ t. SameLines t.lines ([] ++ lines_on_nets (layer_name library.layers) (all_nets library design (scale design)) bars)) }
    ensures shapes { IfOk result (λ t. map shape_view t.shapes.items ≡ map (λ s. s.shape) (flat_map shapes_of_net drawing.now.nets)) }
    ensures tests { IfOk result (λ t. t.tests ≤ near_themselves (told_view t).shapes) }
{
    let name = Vec::from_slice(alloc, net)?;
    let Checked { lines, tests } = drawing.put_counted_lines(alloc, Lines::new(alloc))?;
    let shapes = Vec::from_slice(alloc, drawing.nets().shapes())?;
    Ok(ToldNet {
        name,
        lines,
        shapes,
        tests,
    })
}

/// What statements tell of the net that they have an entry of, where these rectangles block routing.
fn told_of<A: Allocator + Copy>(
    alloc: A,
    library: &Library<'_, A>,
    bars: &[Barrier],
    statements: &[Statement<'_>],
    net: &[u8],
) -> Result<ToldNet<A>, AllocError>
    requires some { 0 < scale (map record_view statements.now) }
    requires few { scale (map record_view statements.now) ≤ 100000 }
    ensures told { (design : List Record) → TellNet (map record_view statements.now) design net.now
        → IfOk result (λ t. IsTold library.now (map barrier_view bars.now) (net_named library.now design (scale design) net.now) (told_view t)) }
    ensures tests { IfOk result (λ t. t.tests ≤ near_themselves (told_view t).shapes) }
{
    one_net_is_told();
    let names = names_of(alloc, library.hash_builder(), statements)?;
    let drawing = NetDrawing::barred(alloc, library, &names, bars)?;
    told_by(alloc, &drawing, net)
}

/// What is told of a net of a text, by its statements alone (`told_statements`), where these rectangles block routing.
pub(crate) fn told_net<A: Allocator + Copy>(
    alloc: A,
    library: &Library<'_, A>,
    text: &DesignText<A>,
    common: &[StmtId],
    bars: &[Barrier],
    net: &[u8],
) -> Result<Option<ToldNet<A>>, AllocError>
    requires { AreCommon (records_in text.now) common.now }
    ensures told { IfOk result (λ found. IfSome found (λ t. IsToldIn library.now (map barrier_view bars.now) (design_of text.now) net.now (told_view t))) }
    ensures tests { IfOk result (λ found. IfSome found (λ t. t.tests ≤ near_themselves (told_view t).shapes)) }
{
    one_net_is_told();
    scales_are_good();
    text.design_is_read();
    let Some(statements) = told_statements(alloc, text, common, net)? else {
        return Ok(None);
    };
    let told = told_of(alloc, library, bars, &statements, net)?;
    Ok(Some(told))
}
