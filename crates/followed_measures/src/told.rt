//! What is measured of one net of a text.

ghost use Rattle.std.specs.Prelude.{◌≡◌, ◌<◌, ◌≤◌, ◌^◌, IfOk, IfSome, List, map};
ghost use Rattle.def_grammar.specs.Records.{Record};
ghost use Rattle.def_reader.specs.StatementViews.{record_view};
ghost use Rattle.design_rules.specs.Boxes.{scale};
ghost use Rattle.measure_rules.specs.Lengths.{total_length};
ghost use Rattle.net_laws.specs.OneNet.{TellNet};
ghost use Rattle.design_text.specs.DesignTexts.{design_of};
ghost use Rattle.design_text.specs.Exchanges.{records_in};
ghost use Rattle.followed_nets.specs.Noted.{AreCommon};
ghost use Rattle.followed_measures.specs.Told.{IsNetIn};
ghost use Rattle.followed_measures.specs.ToldViews.{net_view};

use cell_library::library::Library;
use def_reader::statement::Statement;
use design_model::geometry::Rect;
use design_model::identifier::StmtId;
use design_names::names::names_of;
use design_text::text::DesignText;
use followed_nets::told_statements::told_statements;
use line_laws::scales::scales_are_good;
use measure_laws::lengths::{lengths_fit, none_is_longer};
use measuring_laws::lengths_are_told;
use name_keys::OwnName;
use net_laws::one_net_is_told;
use net_lists::NetShape;
use reports::net_measures::{NetMeasures, net_measures};
use std::alloc::{AllocError, Allocator, Global};

/// A net's name, its length, its shapes, and the least rectangle round these, if it has some; in database units.
#[derive(Drop)]
pub(crate) struct ToldNet<A: Allocator = Global> {
    pub(crate) name: OwnName<A>,
    pub(crate) length: u64,
    pub(crate) shapes: Vec<NetShape, A>,
    pub(crate) bounds: Option<Rect>,
}

/// What is measured of a net of a design that statements tell, whose nets aren't too long together.
fn told_by<A: Allocator + Copy>(
    alloc: A,
    library: &Library<'_, A>,
    statements: &[Statement<'_>],
    net: &[u8],
) -> Result<Option<ToldNet<A>>, AllocError>
    requires some { 0 < scale (map record_view statements.now) }
    requires few { scale (map record_view statements.now) ≤ 100000 }
    ensures name { IfOk result (λ found. IfSome found (λ t. t.name ≡ net.now)) }
    ensures told { (design : List Record) → TellNet (map record_view statements.now) design net.now → total_length library.now design (scale design) < 2 ^ 64
        → IfOk result (λ found. IfSome found (λ t. IsNetIn library.now design (net_view t))) }
{
    one_net_is_told();
    lengths_are_told();
    none_is_longer();
    let names = names_of(alloc, library.hash_builder(), statements)?;
    let Some(measures) = net_measures(alloc, library, &names)? else {
        return Ok(None);
    };
    let NetMeasures {
        length,
        shapes,
        bounds,
    } = measures;
    let name = OwnName::copy_of(alloc, net)?;
    Ok(Some(ToldNet {
        name,
        length,
        shapes,
        bounds,
    }))
}

/// What is measured of a net of a text, by the statements that tell it (`told_statements`).
pub(crate) fn told_net<A: Allocator + Copy>(
    alloc: A,
    library: &Library<'_, A>,
    text: &DesignText<A>,
    common: &[StmtId],
    net: &[u8],
) -> Result<Option<ToldNet<A>>, AllocError>
    requires { AreCommon (records_in text.now) common.now }
    ensures name { IfOk result (λ found. IfSome found (λ t. t.name ≡ net.now)) }
    ensures told { IfOk result (λ found. IfSome found (λ t. IsNetIn library.now (design_of text.now) (net_view t))) }
{
    one_net_is_told();
    scales_are_good();
    lengths_fit();
    text.design_is_read();
    let Some(statements) = told_statements(alloc, text, common, net)? else {
        return Ok(None);
    };
    let Some(told) = told_by(alloc, library, &statements, net)? else {
        return Ok(None);
    };
    Ok(Some(told))
}
