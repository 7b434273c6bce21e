//! Look-ups of the text of a design, by its tables.

ghost use Rattle.std.specs.Prelude.{◌≡◌, ◌≤◌, length, List, Ok, IfSome, IsOk};
ghost use Rattle.std.specs.List.{filter_map, list_any};
ghost use Rattle.std.specs.Option.{option_map};
ghost use Rattle.statement_model.specs.Form.{spell};
ghost use Rattle.def_grammar.specs.Components.{Component, component_form};
ghost use Rattle.def_grammar.specs.Located.{component_at, entry_at, located};
ghost use Rattle.def_grammar.specs.Records.{component, entry, entry_of, read_def, Record};
ghost use Rattle.edit_rules.specs.NetEdits.{lists};
ghost use Rattle.edit_rules.specs.SectionEdits.{entries_in, is_end, is_header, lists_of, tokens_where};
ghost use Rattle.lefdef_tokens.specs.Views.{pieces_of, words_of};
ghost use Rattle.place_parts.specs.ComponentViews.{component_view};
ghost use Rattle.def_reader.specs.Lent.{StatementAt};
ghost use Rattle.def_reader.specs.StatementViews.{record_view};
ghost use Rattle.def_splice.specs.Lying.{lying_component, lying_statement, lying_tokens, LiesIn};
ghost use Rattle.design_text.specs.DesignTexts.{is_listing, says_one, statement_under, text_of};

use crate::text::DesignText;
use def_reader::statement::Statement;
use def_splice::lookups::{LookUps, lists_terminal};
use def_splice::lying::Lying;
use design_model::identifier::StmtId;
use design_model::mode::Section;
use design_tables::Numbers;
use lefdef_tokens::is_word;
use place_parts::component_parts::ComponentParts;
use std::alloc::Allocator;

impl<A: Allocator + Copy> DesignText<A> {
    /// The entry of this name in a section, with its tokens where they lie in the text. It alone is read.
    fn entry_found(&self, section: Section, name: &[u8]) -> Option<(Statement<'_>, Lying<'_>)>
        ensures gives { (design : List Record) → read_def (text_of self.now) ≡ Ok design → option_map lying_statement result ≡ entry_at section name.now (located (text_of self.now) design) }
        ensures lent { IfSome result (λ x. StatementAt (pieces_of x.1.tokens) x.0) }
        ensures spelled { IfSome result (λ x. (c : Component) → record_view x.0 ≡ entry (component c) → words_of x.1.tokens ≡ spell component_form c) }
        ensures lies { IfSome result (λ x. LiesIn (text_of self.now) x.1) }
    {
        self.statements_are_known();
        let Some(id) = self.tables.find(section, name) else {
            return None;
        };
        self.found(id)
    }

    /// The tokens of the statement of a number.
    fn tokens_of(&self, id: StmtId) -> Option<Lying<'_>>
        ensures gives { option_map lying_tokens result ≡ option_map (λ x. x.0) (statement_under self.now id) }
        ensures lies { IfSome result (λ x. LiesIn (text_of self.now) x) }
    {
        let Some((_, tokens)) = self.found(id) else {
            return None;
        };
        Some(tokens)
    }

    /// Whether the statement of a number is an entry that lists a terminal.
    fn lists(&self, id: StmtId, owner: &[u8], pin: &[u8]) -> bool
        ensures { result ≡ says_one (is_listing owner.now pin.now) (statement_under self.now id) }
    {
        match self.found(id) {
            Some((statement, _)) => lists_terminal(&statement, owner, pin),
            None => false,
        }
    }

    /// Whether that of one of some numbers is.
    fn one_lists(&self, numbers: Numbers<'_>, owner: &[u8], pin: &[u8]) -> bool
        ensures { result ≡ list_any (λ id. says_one (is_listing owner.now pin.now) (statement_under self.now id)) numbers.entry }
    {
        let mut left = numbers;
        while let Some(id) = left.next() {
            if self.lists(id, owner, pin) {
                return true;
            }
        }
        false
    }
}

impl<A: Allocator + Copy> LookUps for DesignText<A> {
    ghost text = { text_of };

    fn len(&self) -> usize
        ensures { result ≡ length (text_of self.now) }
    {
        self.pieces.len()
    }

    fn component(&self, name: &[u8]) -> Option<(ComponentParts<'_>, Lying<'_>)>
        requires { IsOk (read_def (text_of self.now)) }
        ensures gives { (design : List Record) → read_def (text_of self.now) ≡ Ok design → option_map lying_component result ≡ component_at name.now (located (text_of self.now) design) }
        ensures spelled { IfSome result (λ x. words_of x.1.tokens ≡ spell component_form (component_view x.0)) }
        ensures lies { IfSome result (λ x. LiesIn (text_of self.now) x.1) }
    {
        let Some((statement, tokens)) = self.entry_found(Section::Components, name) else {
            return None;
        };
        let Some(parts) = statement.component() else {
            return None;
        };
        Some((parts, tokens))
    }

    fn entry(&self, section: Section, name: &[u8]) -> Option<(Statement<'_>, Lying<'_>)>
        requires { IsOk (read_def (text_of self.now)) }
        ensures gives { (design : List Record) → read_def (text_of self.now) ≡ Ok design → option_map lying_statement result ≡ entry_at section name.now (located (text_of self.now) design) }
        ensures lent { IfSome result (λ x. StatementAt (pieces_of x.1.tokens) x.0) }
        ensures lies { IfSome result (λ x. LiesIn (text_of self.now) x.1) }
    {
        self.entry_found(section, name)
    }

    fn header(&self, section: Section) -> Option<Lying<'_>>
        requires { IsOk (read_def (text_of self.now)) }
        ensures gives { (design : List Record) → read_def (text_of self.now) ≡ Ok design → option_map lying_tokens result ≡ tokens_where (is_header section) (located (text_of self.now) design) }
        ensures lies { IfSome result (λ x. LiesIn (text_of self.now) x) }
    {
        self.statements_are_known();
        let Some(id) = self.tables.header(section) else {
            return None;
        };
        self.tokens_of(id)
    }

    fn end(&self, section: Section) -> Option<Lying<'_>>
        requires { IsOk (read_def (text_of self.now)) }
        ensures gives { (design : List Record) → read_def (text_of self.now) ≡ Ok design → option_map lying_tokens result ≡ tokens_where (is_end section) (located (text_of self.now) design) }
        ensures lies { IfSome result (λ x. LiesIn (text_of self.now) x) }
    {
        self.statements_are_known();
        let Some(id) = self.tables.end(section) else {
            return None;
        };
        self.tokens_of(id)
    }

    fn entries_in(&self, section: Section) -> usize
        requires { IsOk (read_def (text_of self.now)) }
        ensures gives { (design : List Record) → read_def (text_of self.now) ≡ Ok design → result ≡ length (entries_in section design) }
        ensures few { result ≤ length (text_of self.now) }
    {
        self.statements_are_known();
        self.tables.entries_in(section)
    }

    fn is_listed(&self, component: &[u8]) -> bool
        requires { IsOk (read_def (text_of self.now)) }
        ensures { (design : List Record) → read_def (text_of self.now) ≡ Ok design → result ≡ list_any (lists_of component.now) (filter_map entry_of design) }
    {
        self.statements_are_known();
        let mut nets = self.tables.nets_of(component);
        nets.next().is_some()
    }

    fn is_connected(&self, owner: &[u8], pin: &[u8]) -> bool
        requires { IsOk (read_def (text_of self.now)) }
        ensures { (design : List Record) → read_def (text_of self.now) ≡ Ok design → result ≡ list_any (lists owner.now pin.now) (filter_map entry_of design) }
    {
        self.statements_are_known();
        if is_word(owner, b"PIN") {
            let mut nets = self.tables.nets_of_design_pin(pin);
            return nets.next().is_some();
        }
        self.one_lists(self.tables.nets_of(owner), owner, pin)
    }
}
