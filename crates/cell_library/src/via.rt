//! Vias.

ghost use Rattle.std.specs.Prelude.{◌≡◌, ◌∷◌, Bool, IfOk, List, refl};
ghost use Rattle.std.specs.List.{filter_map};
ghost use Rattle.lef_grammar.specs.Definitions.{GeneratedVia as TheGenerated, Via as TheVia, metals_read, opened_via, via_record, via_with};
ghost use Rattle.lef_grammar.specs.ViaBlock.{ViaRecord, cuts_in_via, metals_in_via};
ghost use Rattle.lef_reader.specs.ViaViews.{cuts_view, four_view, metals_view as said_metals};
ghost use Rattle.cell_library.specs.Records.{AreIn, records_view};
ghost use Rattle.cell_library.specs.ViaViews.{body_said, body_view, generated_said, generation_view, metals_view, via_name, via_view};

use crate::definition::Definition;
use crate::noted::{Noted, note_all};
use crate::numbers::{MicronPoint, read_both, read_whole};
use crate::shapes::{LayerShapes, count_unchecked, shapes_among};
use crate::via_definition::Via;
use design_model::sequence::Sequence;
use lef_reader::outermost::{NamedHeader, OutermostStatement};
use lef_reader::rule_block::RuleStatement;
use lef_reader::statement::LefStatement;
use lef_reader::via_block::{MetalDistances, ViaCuts, ViaMetals, ViaStatement};
use std::alloc::{AllocError, Allocator, Global};
use std::hash::RandomState;

/// Numbers of rows and columns.
#[derive(Clone, Copy)]
pub struct CutArray {
    pub rows: i32,
    pub columns: i32,
}

/// Names of a bottom metal, a cut and a top metal.
#[derive(Clone, Copy)]
pub struct LayerNames<'l> {
    pub bottom: &'l [u8],
    pub cut: &'l [u8],
    pub top: &'l [u8],
}

/// Distances in x and y of a bottom metal and of a top one.
#[derive(Clone, Copy)]
pub struct MetalPoints {
    pub bottom: MicronPoint,
    pub top: MicronPoint,
}

/// What a `VIARULE` generates a via from: the first statement of each kind.
#[derive(Clone, Copy, Drop)]
pub struct GeneratedVia<'l> {
    pub rule: &'l [u8],
    pub cut_size: Option<MicronPoint>,
    pub cut_spacing: Option<MicronPoint>,
    pub row_col: Option<CutArray>,
    pub layers: Option<LayerNames<'l>>,
    pub enclosure: Option<MetalPoints>,
    pub origin: Option<MicronPoint>,
    pub offset: Option<MetalPoints>,
}

/// A via by its rectangles, or one that a rule generates.
#[derive(Drop)]
pub enum ViaBody<'l, A: Allocator = Global> {
    Listed(Sequence<LayerShapes<'l, A>, A>),
    Generated(GeneratedVia<'l>),
}

/// What the statements of a via say of how it is generated, and whether a `VIARULE` is among them.
#[derive(Clone, Copy, Drop)]
struct Generation<'l> {
    has_rule: bool,
    via: GeneratedVia<'l>,
}

/// Distances of metals in a text.
fn read_metals(distances: &MetalDistances<'_>) -> MetalPoints
    ensures { metals_view result ≡ metals_read (four_view distances.now) }
{
    MetalPoints {
        bottom: read_both(distances.bottom_x, distances.bottom_y),
        top: read_both(distances.top_x, distances.top_y),
    }
}

impl<'l> Generation<'l> {
    /// Notes a statement on cuts before those that were noted.
    fn note_cuts(&mut self, cuts: &ViaCuts<'l>)
        ensures { (later : List ViaRecord) → generation_view self.old ≡ generated_said later → generation_view self.new ≡ generated_said (cuts_in_via (cuts_view cuts.now) ∷ later) }
    {
        match cuts {
            ViaCuts::Rule(name) => {
                self.has_rule = true;
                self.via.rule = name.bytes
            }
            ViaCuts::Size(x, y) => self.via.cut_size = Some(read_both(*x, *y)),
            ViaCuts::Spacing(x, y) => self.via.cut_spacing = Some(read_both(*x, *y)),
            ViaCuts::RowCol(rows, columns) => {
                self.via.row_col = Some(CutArray {
                    rows: read_whole(rows.bytes),
                    columns: read_whole(columns.bytes),
                })
            }
        }
    }

    /// Notes a statement on metals before those that were noted.
    fn note_metals(&mut self, metals: &ViaMetals<'l>)
        ensures { (later : List ViaRecord) → generation_view self.old ≡ generated_said later → generation_view self.new ≡ generated_said (metals_in_via (said_metals metals.now) ∷ later) }
    {
        match metals {
            ViaMetals::Layers(names) => {
                self.via.layers = Some(LayerNames {
                    bottom: names.bottom.bytes,
                    cut: names.cut.bytes,
                    top: names.top.bytes,
                })
            }
            ViaMetals::Enclosure(distances) => self.via.enclosure = Some(read_metals(distances)),
            ViaMetals::Origin(x, y) => self.via.origin = Some(read_both(*x, *y)),
            ViaMetals::Offset(distances) => self.via.offset = Some(read_metals(distances)),
        }
    }
}

impl<'l> Noted<'l> for Generation<'l> {
    ghost Part = { ViaRecord };

    ghost Said = { Bool × TheGenerated };

    ghost part = { via_record };

    ghost view = { λ x. generation_view x.1 };

    ghost says = { λ x. generated_said x.1 };

    fn nothing() -> Generation<'l> {
        Generation {
            has_rule: false,
            via: GeneratedVia {
                rule: b"",
                cut_size: None,
                cut_spacing: None,
                row_col: None,
                layers: None,
                enclosure: None,
                origin: None,
                offset: None,
            },
        }
    }

    fn note(&mut self, statement: &LefStatement<'l>) {
        if let LefStatement::InVia(statement) = statement {
            match statement {
                ViaStatement::Cuts(cuts) => self.note_cuts(cuts),
                ViaStatement::Metals(metals) => self.note_metals(metals),
                _ => {}
            }
        }
    }
}

/// The body of the via of these statements.
fn read_body<'l, A: Allocator + Copy>(
    alloc: A,
    inner: &[LefStatement<'l>],
) -> Result<ViaBody<'l, A>, AllocError>
    requires { AreIn via_record (records_view inner.now) }
    ensures { IfOk result (λ body. body_view body ≡ body_said (filter_map via_record (records_view inner.now))) }
{
    let generation: Generation<'l> = note_all(inner);
    if generation.has_rule {
        return Ok(ViaBody::Generated(generation.via));
    }
    Ok(ViaBody::Listed(shapes_among(alloc, inner)?))
}

impl<'n: 'l, 'l, A: Allocator + Copy> Definition<'n, A> for Via<'l, A> {
    ghost Seen = { TheVia };

    ghost Part = { ViaRecord };

    ghost view = { via_view };

    ghost name_in = { via_name };

    ghost header = { opened_via };

    ghost part = { via_record };

    ghost define = { via_with };

    /// Outside of all blocks or in a rule.
    fn opened(statement: &LefStatement<'n>) -> Option<&'n [u8]> {
        match statement {
            LefStatement::Outside(OutermostStatement::Named(NamedHeader::Via(name)))
            | LefStatement::InRule(RuleStatement::OpensVia(name)) => Some(name.bytes),
            _ => None,
        }
    }

    fn holds(statement: &LefStatement<'n>) -> bool {
        matches!(statement, LefStatement::InVia(_))
    }

    fn read(
        alloc: A,
        _: RandomState,
        inner: &[LefStatement<'n>],
    ) -> Result<Via<'l, A>, AllocError> {
        let unchecked = count_unchecked(inner);
        Ok(Via {
            body: read_body(alloc, inner)?,
            unchecked,
        })
    }

    ghost named_so = { λ e. refl };
}
