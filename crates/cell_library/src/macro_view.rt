//! Macros.

ghost use Rattle.std.specs.Prelude.{◌≡◌, ◌<◌, ◌≤◌, IfOk, List, Option, map, nat_abs, refl, ℕ};
ghost use Rattle.std.specs.List.{filter_map};
ghost use Rattle.std.specs.Option.{option_map};
ghost use Rattle.lef_grammar.specs.Definitions.{Distances, Macro as TheMacro, inner_record, macro_record, macro_with, opened_macro};
ghost use Rattle.lef_grammar.specs.LefRecords.{LefRecord};
ghost use Rattle.lef_grammar.specs.Library.{macro_named, pin_named};
ghost use Rattle.lef_grammar.specs.MacroShapes.{in_library, macro_shapes};
ghost use Rattle.lef_grammar.specs.Measures.{point_or_0};
ghost use Rattle.lef_grammar.specs.MacroBlock.{MacroRecord, site_of};
ghost use Rattle.cell_library.specs.CellViews.{cell_view};
ghost use Rattle.cell_library.specs.MacroViews.{header_said, header_view, macro_name, macro_view};
ghost use Rattle.cell_library.specs.Naming.{seen_by};
ghost use Rattle.cell_library.specs.Numbers.{point_view};
ghost use Rattle.cell_library.specs.PinViews.{pin_view, pins_view};
ghost use Rattle.lefdef_tokens.specs.Views.{word_view};
ghost use Rattle.cell_library.specs.Records.{AreIn, records_view};

use crate::definition::{Definition, read_all};
use crate::library::Library;
use crate::macro_definition::Macro;
use crate::macro_shapes::MacroShapes;
use crate::named::Named;
use crate::noted::{Noted, note_all};
use crate::numbers::{MicronPoint, read_both, read_point};
use crate::pin::Pin;
use crate::placing::Placing;
use design_model::geometry::Point;
use design_model::sequence::Sequence;
use lef_reader::macro_block::MacroStatement;
use lef_reader::outermost::{NamedHeader, OutermostStatement};
use lef_reader::statement::LefStatement;
use std::alloc::{AllocError, Allocator, Global};
use std::hash::RandomState;

/// A macro of a library, with its name.
#[derive(Copy)]
pub struct MacroView<'a, 'l, A: Allocator = Global> {
    library: &'a Library<'l, A>,
    name: &'l [u8],
    cell: &'a Macro<'l, A>,
}

// (written out: a derived one copies each field by a call that can fail)
impl<'a, 'l, A: Allocator + Copy> Clone for MacroView<'a, 'l, A> {
    fn clone(&self) -> Result<MacroView<'a, 'l, A>, AllocError> {
        Ok(*self)
    }
}

impl<'l, A: Allocator + Copy> Library<'l, A> {
    /// The macro of a name.
    pub fn macro_of(&self, name: &[u8]) -> Option<MacroView<'_, 'l, A>>
        ensures { option_map cell_view result ≡ option_map (in_library self.now) (macro_named self.now name.now) }
    {
        let (name, cell) = self.find_macro(name)?;
        Some(MacroView {
            library: self,
            name,
            cell,
        })
    }
}

impl<'a, 'l, A: Allocator + Copy> MacroView<'a, 'l, A> {
    pub fn name(self) -> &'l [u8]
        ensures { result.now ≡ (cell_view self.entry).cell.name }
    {
        self.name
    }

    /// The first word of its `CLASS`.
    pub fn cell_class(self) -> Option<&'l [u8]>
        ensures { option_map word_view result ≡ (cell_view self.entry).cell.class }
    {
        self.cell.class
    }

    /// Width and height in database units, and 0 without a `SIZE`.
    pub fn size(self, per_micron: u32) -> Point
        requires some { 0 < per_micron }
        requires few { per_micron ≤ 100000 }
        ensures units { result ≡ point_or_0 per_micron (cell_view self.entry).cell.size }
        ensures narrow { nat_abs result.x ≤ 100000000000 }
        ensures low { nat_abs result.y ≤ 100000000000 }
    {
        point_or_origin(self.cell.size, per_micron)
    }

    /// Where geometry is moved to in database units, and (0, 0) without an `ORIGIN`.
    pub fn origin(self, per_micron: u32) -> Point
        requires some { 0 < per_micron }
        requires few { per_micron ≤ 100000 }
        ensures units { result ≡ point_or_0 per_micron (cell_view self.entry).cell.origin }
        ensures near { nat_abs result.x ≤ 100000000000 }
        ensures low { nat_abs result.y ≤ 100000000000 }
    {
        point_or_origin(self.cell.origin, per_micron)
    }

    /// The names of all its sites.
    pub fn sites(self) -> &'a [&'l [u8]]
        ensures { map word_view result.now ≡ (cell_view self.entry).cell.sites }
    {
        self.cell.sites.as_slice()
    }

    /// Its pins, in the order of the text.
    pub fn pins(self) -> &'a Named<'l, Pin<'l, A>, A>
        ensures { pins_view result.now ≡ (cell_view self.entry).cell.pins }
    {
        &self.cell.pins
    }

    /// The pin of a name.
    pub fn pin(self, name: &[u8]) -> Option<&'a Pin<'l, A>>
        ensures { option_map (seen_by pin_view name.now) result ≡ pin_named (cell_view self.entry).cell name.now }
    {
        self.cell.pins.get(name)
    }

    /// The shapes of its pins in database units, moved by `ORIGIN`.
    pub fn shapes(self, per_micron: u32) -> MacroShapes<'a, 'l, A>
        requires some { 0 < per_micron }
        requires few { per_micron ≤ 100000 }
        ensures { result ≡ macro_shapes per_micron (cell_view self.entry) }
    {
        let origin = self.origin(per_micron);
        MacroShapes::new(self.library, self.pins(), Placing { per_micron, origin })
    }
}

/// A point in database units, and (0, 0) where there is none.
fn point_or_origin(point: Option<MicronPoint>, per_micron: u32) -> Point
    requires some { 0 < per_micron }
    requires few { per_micron ≤ 100000 }
    ensures units { result ≡ point_or_0 per_micron (option_map point_view point) }
    ensures near { nat_abs result.x ≤ 100000000000 }
    ensures low { nat_abs result.y ≤ 100000000000 }
{
    match point {
        Some(point) => point.in_units(per_micron),
        None => Point { x: 0, y: 0 },
    }
}

/// What the statements of a macro say of itself.
#[derive(Clone, Copy, Drop)]
struct Header<'l> {
    class: Option<&'l [u8]>,
    size: Option<MicronPoint>,
    origin: Option<MicronPoint>,
}

impl<'l> Noted<'l> for Header<'l> {
    ghost Part = { MacroRecord };

    ghost Said = { Option (List ℕ) × (Option Distances × Option Distances) };

    ghost part = { macro_record };

    ghost view = { λ x. header_view x.1 };

    ghost says = { λ x. header_said x.1 };

    fn nothing() -> Header<'l> {
        Header {
            class: None,
            size: None,
            origin: None,
        }
    }

    fn note(&mut self, statement: &LefStatement<'l>) {
        if let LefStatement::InMacro(statement) = statement {
            match statement {
                MacroStatement::Class(word, _) => self.class = Some(word.bytes),
                MacroStatement::Size(width, height) => self.size = Some(read_both(*width, *height)),
                MacroStatement::Origin(point) => self.origin = Some(read_point(*point)),
                _ => {}
            }
        }
    }
}

/// The names of the sites in a macro.
fn sites_of<'l, A: Allocator + Copy>(
    alloc: A,
    inner: &[LefStatement<'l>],
) -> Result<Sequence<&'l [u8], A>, AllocError>
    ensures { IfOk result (λ names. map word_view names ≡ filter_map site_of (filter_map macro_record (records_view inner.now))) }
{
    let mut names = Sequence::new(alloc);
    for statement in inner {
        if let LefStatement::InMacro(MacroStatement::Site(name, _)) = statement {
            names.push(name.bytes)?;
        }
    }
    Ok(names)
}

/// The macro of the statements in it.
fn read_macro<'l, A: Allocator + Copy>(
    alloc: A,
    hash_builder: RandomState,
    inner: &[LefStatement<'l>],
) -> Result<Macro<'l, A>, AllocError>
    requires { AreIn inner_record (records_view inner.now) }
    ensures { IfOk result (λ cell. (name : List ℕ) → macro_view (name, cell) ≡ macro_with (name, filter_map inner_record (records_view inner.now))) }
{
    let header: Header<'l> = note_all(inner);
    Ok(Macro {
        class: header.class,
        size: header.size,
        origin: header.origin,
        sites: sites_of(alloc, inner)?,
        pins: read_all(alloc, hash_builder, inner)?,
    })
}

impl<'n: 'l, 'l, A: Allocator + Copy> Definition<'n, A> for Macro<'l, A> {
    ghost Seen = { TheMacro };

    ghost Part = { LefRecord };

    ghost view = { macro_view };

    ghost name_in = { macro_name };

    ghost header = { opened_macro };

    ghost part = { inner_record };

    ghost define = { macro_with };

    fn opened(statement: &LefStatement<'n>) -> Option<&'n [u8]> {
        match statement {
            LefStatement::Outside(OutermostStatement::Named(NamedHeader::Macro(name))) => Some(
                name.bytes,
            ),
            _ => None,
        }
    }

    fn holds(statement: &LefStatement<'n>) -> bool {
        !matches!(statement, LefStatement::Outside(_))
    }

    fn read(
        alloc: A,
        hash_builder: RandomState,
        inner: &[LefStatement<'n>],
    ) -> Result<Macro<'l, A>, AllocError> {
        read_macro(alloc, hash_builder, inner)
    }

    ghost named_so = { λ e. refl };
}
