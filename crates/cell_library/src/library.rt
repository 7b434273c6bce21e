//! The library that LEF texts define.

ghost use Rattle.std.specs.Prelude.{◌≡◌, IfErr, OnOk, length, slice_get};
ghost use Rattle.std.specs.Option.{option_map};
ghost use Rattle.lef_grammar.specs.Library.{layer_named, macro_named, rule_named, site_named, via_named, with_text};
ghost use Rattle.lef_grammar.specs.Measures.{place_among};
ghost use Rattle.lef_reader.specs.StatementViews.{lef_view};
ghost use Rattle.cell_library.specs.LayerViews.{layer_name, layer_view};
ghost use Rattle.cell_library.specs.LibraryViews.{AddsText, ReadsLibrary, noted};
ghost use Rattle.cell_library.specs.MacroViews.{macro_view, macros_view};
ghost use Rattle.cell_library.specs.Naming.{entry_seen, seen_by};
ghost use Rattle.lefdef_tokens.specs.Views.{word_view};
ghost use Rattle.cell_library.specs.Records.{records_view};
ghost use Rattle.cell_library.specs.RuleViews.{rule_view};
ghost use Rattle.cell_library.specs.SiteViews.{site_view};
ghost use Rattle.cell_library.specs.ViaViews.{via_view, vias_view};

use crate::definition::add_all;
use crate::layer::Layer;
use crate::lef_texts::LefTexts;
use crate::macro_definition::Macro;
use crate::named::Named;
use crate::rule::Rule;
use crate::site::Site;
use crate::via_definition::Via;
use design_model::MAX_TEXT;
use design_model::fault::{Fault, FaultCode, ReadError};
use design_model::identifier::LayerId;
use lef_reader::block::Block;
use lef_reader::read_lef::read_lef_statement;
use lef_reader::statement::LefStatement;
use std::alloc::{AllocError, Allocator, Global};
use std::hash::RandomState;
use std::marker::Model;

/// Why a library is not read: the fault of a text, with the text's number from 1, or memory that was refused.
#[derive(Clone, Copy, Debug)]
pub enum LibraryError {
    Fault { file: usize, fault: Fault },
    Memory,
}

/// The first definition of each name, with names borrowed from the texts.
pub struct Library<'l, A: Allocator = Global> {
    layers: Named<'l, Layer, A>,
    sites: Named<'l, Site, A>,
    vias: Named<'l, Via<'l, A>, A>,
    rules: Named<'l, Rule<'l, A>, A>,
    macros: Named<'l, Macro<'l, A>, A>,
}

impl<'l, A: Allocator> Model for Library<'l, A> {
    ghost use Rattle.lef_grammar.specs.Library.{Library as TheLibrary};
    ghost use Rattle.cell_library.specs.LibraryViews.{library_view};

    ghost Value = { TheLibrary };

    ghost view = { λ t. library_view t.layers t.sites t.vias t.rules t.macros };
}

// (written out, so that who owns a library is proved over one call in the place of five tables)
impl<A: Allocator> Drop for Library<'_, A> {
    fn drop(self) {
        let Library {
            layers: _,
            sites: _,
            vias: _,
            rules: _,
            macros: _,
        } = self;
    }
}

impl<'l, A: Allocator + Copy> Library<'l, A> {
    /// Reads the texts in their order.
    pub fn read<B: Allocator + Copy>(
        alloc: A,
        hash_builder: RandomState,
        texts: &'l LefTexts<B>,
    ) -> Result<Library<'l, A>, LibraryError>
        ensures { ReadsLibrary texts.now result }
    {
        let mut library = Library {
            layers: Named::new(alloc, hash_builder),
            sites: Named::new(alloc, hash_builder),
            vias: Named::new(alloc, hash_builder),
            rules: Named::new(alloc, hash_builder),
            macros: Named::new(alloc, hash_builder),
        };
        for (number, text) in texts.as_slice().iter().enumerate() {
            match library.add_text(alloc, text.as_slice()) {
                Ok(()) => {}
                Err(ReadError::Fault(fault)) => return Err(LibraryError::Fault {
                    file: number + 1,
                    fault,
                }),
                Err(ReadError::Memory) => return Err(LibraryError::Memory),
            }
        }
        Ok(library)
    }

    /// What its names are hashed with.
    pub fn hash_builder(&self) -> RandomState {
        self.layers.hash_builder()
    }

    /// The place of a layer among the others, from the bottom up.
    #[tactic(auto, using(crate::proofs::LayerLemmas::placed_among))]
    pub fn layer(&self, name: &[u8]) -> Option<LayerId>
        ensures { option_map (λ l. l.0) result ≡ place_among self.now.layers name.now }
    {
        self.layers.place_of(name).map(LayerId)
    }

    /// How many layers there are.
    pub fn layer_count(&self) -> usize
        ensures { result ≡ length self.now.layers }
    {
        self.layers.len()
    }

    /// The name of a layer by its place.
    pub fn layer_name(&self, layer: LayerId) -> Option<&'l [u8]>
        ensures { option_map word_view result ≡ option_map layer_name (slice_get self.now.layers layer.0) }
    {
        self.layers.name_at(layer.0)
    }

    /// The layer of a name.
    pub fn layer_named(&self, name: &[u8]) -> Option<&Layer>
        ensures { option_map (seen_by layer_view name.now) result ≡ layer_named self.now name.now }
    {
        self.layers.get(name)
    }

    /// The site of a name.
    pub fn site(&self, name: &[u8]) -> Option<&Site>
        ensures { option_map (seen_by site_view name.now) result ≡ site_named self.now name.now }
    {
        self.sites.get(name)
    }

    /// The via of a name.
    pub fn via(&self, name: &[u8]) -> Option<&Via<'l, A>>
        ensures { option_map (seen_by via_view name.now) result ≡ via_named self.now name.now }
    {
        self.vias.get(name)
    }

    /// All vias, in the order of the texts.
    pub fn vias(&self) -> &Named<'l, Via<'l, A>, A>
        ensures { vias_view result.now ≡ self.now.vias }
    {
        &self.vias
    }

    /// The rule of a name.
    pub fn rule(&self, name: &[u8]) -> Option<&Rule<'l, A>>
        ensures { option_map (seen_by rule_view name.now) result ≡ rule_named self.now name.now }
    {
        self.rules.get(name)
    }

    /// All macros, in the order of the texts.
    pub fn macros(&self) -> &Named<'l, Macro<'l, A>, A>
        ensures { macros_view result.now ≡ self.now.macros }
    {
        &self.macros
    }

    /// The macro of a name, with that name.
    pub(crate) fn find_macro(&self, name: &[u8]) -> Option<(&'l [u8], &Macro<'l, A>)>
        ensures { option_map (λ e. macro_view (entry_seen e)) result ≡ macro_named self.now name.now }
    {
        self.macros.find(name)
    }

    /// Adds what the statements of a text define from one outside of all blocks up to the next.
    fn add_group(&mut self, alloc: A, group: &[LefStatement<'l>]) -> Result<(), AllocError>
        ensures { OnOk result (self.new ≡ with_text self.old (records_view group.now)) }
    {
        add_all(alloc, &mut self.layers, group)?;
        add_all(alloc, &mut self.sites, group)?;
        add_all(alloc, &mut self.vias, group)?;
        add_all(alloc, &mut self.rules, group)?;
        add_all(alloc, &mut self.macros, group)
    }

    /// Notes a statement. One outside of all blocks completes the statements before it.
    fn note(
        &mut self,
        alloc: A,
        group: &mut Vec<LefStatement<'l>, A>,
        statement: LefStatement<'l>,
    ) -> Result<(), AllocError>
        ensures { OnOk result ((self.new, records_view group.new.items) ≡ noted (lef_view statement.entry) (self.old, records_view group.old.items)) }
    {
        if let LefStatement::Outside(_) = statement {
            self.add_group(alloc, group.as_slice())?;
            group.clear();
        }
        group.push(statement)?;
        Ok(())
    }

    /// Adds what a text defines to what others before it do.
    fn add_text(&mut self, alloc: A, text: &'l [u8]) -> Result<(), ReadError>
        ensures { AddsText text.now self.old self.new result }
    {
        if text.len() > MAX_TEXT {
            return Err(ReadError::Fault(Fault {
                code: FaultCode::TooLong,
                pos: 0,
            }));
        }
        let mut group = Vec::new(alloc);
        let mut block = Block::Outermost;
        let mut pos = 0;
        while let Some(read) = read_lef_statement(block, text, pos)? {
            self.note(alloc, &mut group, read.statement)?;
            block = read.place;
            pos = read.end;
        }
        self.add_group(alloc, group.as_slice())?;
        Ok(())
    }
}
