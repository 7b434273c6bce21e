//! The statements of a DEF text, and what they are to the one who reads a whole text.

ghost use Rattle.std.specs.Prelude.{◌≡◌, List, IfSome};
ghost use Rattle.statement_model.specs.Tokens as definitions;
ghost use Rattle.std.specs.Option.{option_map};
ghost use Rattle.form_meanings.specs.Words.{Gives};
ghost use Rattle.statement_model.specs.Form.{left, read, right, whole};
ghost use Rattle.design_model.specs.declared.mode.Section.TheVariants.{Components, Nets};
ghost use Rattle.def_grammar.specs.Properties.{property_statement};
ghost use Rattle.def_grammar.specs.Records.{component_of, def, def_ending, end_form, entries_form, entry_of, in_section, is_after, key_of, mode_after, statement};
ghost use Rattle.lefdef_tokens.specs.Views.{IsLater, pieces_of, rest_of, words_of};
ghost use Rattle.statement_reader.specs.Endings.{ending_view};
ghost use Rattle.place_parts.specs.ComponentViews.{component_view, ComponentAt};
ghost use Rattle.def_reader.specs.EntryViews.{EntryAt, entry_view};
ghost use Rattle.def_reader.specs.Lent.{StatementAt};
ghost use Rattle.def_parts.specs.PointViews.{with_rest};
ghost use Rattle.def_reader.specs.SeenViews.{key_view};
ghost use Rattle.def_reader.specs.StatementViews.{mode_view, record_view};

use crate::entry::{Entry, entry_at};
use crate::floor::Floor;
use crate::properties::{Property, property_at};
use crate::seen::Key;
use crate::top::top_at;
use design_model::mode::{Mode, Section};
use lefdef_tokens::{Cursor, Token, TokenRun, is_semicolon, is_word};
use place_parts::component_parts::ComponentParts;
use statement_reader::boundary::Ending;
use statement_reader::grammar;
use wire_parts::nets::net_entry_at;

/// A statement, with parts that borrow the text.
#[derive(Clone, Copy, Drop)]
pub enum Statement<'t> {
    /// `UNITS DISTANCE MICRONS`, with its number of database units per micron.
    Units(Token<'t>),
    EndDesign,
    /// `PROPERTYDEFINITIONS`
    Properties,
    /// `BEGINEXT` and its tokens before `ENDEXT`.
    Extension(TokenRun<'t>),
    Floor(Floor<'t>),
    /// A section's header, with its number of entries.
    Header(Section, Token<'t>),
    /// A statement without meaning, by its first token and the others.
    Kept(Token<'t>, TokenRun<'t>),
    EndSection(Section),
    /// A statement among property definitions.
    Property(Property<'t>),
    Entry(Entry<'t>),
}

impl<'t> Statement<'t> {
    /// What of it a text has once.
    pub fn key(&self) -> Key<'t>
        ensures { key_view result ≡ key_of (record_view self.now) }
    {
        if let Statement::Entry(entry) = self {
            return entry.key();
        }
        match self {
            Statement::Units(_) => Key::Statement(b"UNITS"),
            Statement::Header(section, _) => Key::Statement(section.word()),
            Statement::Properties => Key::Statement(b"PROPERTYDEFINITIONS"),
            Statement::Floor(Floor::DieArea(_)) => Key::Statement(b"DIEAREA"),
            _ => Key::Nothing,
        }
    }

    /// The component of an entry.
    pub fn component(self) -> Option<ComponentParts<'t>>
        ensures gives { option_map component_view result ≡ component_of (record_view self.entry) }
        ensures lent { (ps : List definitions.Token) → StatementAt ps self.entry → IfSome result (λ c. ComponentAt ps c) }
    {
        match self {
            Statement::Entry(Entry::Component(parts)) => Some(parts),
            _ => None,
        }
    }

    /// The entry that it is.
    pub fn entry(self) -> Option<Entry<'t>>
        ensures gives { option_map entry_view result ≡ entry_of (record_view self.entry) }
        ensures lent { (ps : List definitions.Token) → StatementAt ps self.entry → IfSome result (λ e. EntryAt ps e) }
    {
        match self {
            Statement::Entry(entry) => Some(entry),
            _ => None,
        }
    }
}

/// `END section`
#[inline(never)]
fn end_at<'t>(section: Section, cursor: Cursor<'t>) -> Option<(Statement<'t>, Cursor<'t>)>
    ensures gives { Gives (with_rest record_view) result (read (right (right (left (end_form section)))) (rest_of cursor.entry)) }
    ensures later { IfSome result (λ x. IsLater cursor.entry x.1) }
    ensures lent { IfSome result (λ x. StatementAt (pieces_of cursor.entry.tokens) x.0) }
{
    let (word, cursor) = cursor.key(b"END")?.next()?;
    if is_word(word.bytes, section.word()) {
        Some((Statement::EndSection(section), cursor))
    } else {
        None
    }
}

// A statement is moved from function to function, and a function pays at its entry for those that it holds. So entries of
// the largest sections become statements at once.

/// An entry of COMPONENTS
#[tactic(auto, unfolding(def_grammar::specs::Records::entries_form))]
#[inline(never)]
fn component_statement_at<'t>(cursor: Cursor<'t>) -> Option<(Statement<'t>, Cursor<'t>)>
    ensures gives { Gives (with_rest record_view) result (read (right (right (right (entries_form Components)))) (rest_of cursor.entry)) }
    ensures later { IfSome result (λ x. IsLater cursor.entry x.1) }
    ensures lent { IfSome result (λ x. StatementAt (pieces_of cursor.entry.tokens) x.0) }
{
    let (parts, cursor) = ComponentParts::read(cursor)?;
    Some((Statement::Entry(Entry::Component(parts)), cursor))
}

/// An entry of NETS
#[tactic(auto, unfolding(def_grammar::specs::Records::entries_form))]
#[inline(never)]
fn net_statement_at<'t>(cursor: Cursor<'t>) -> Option<(Statement<'t>, Cursor<'t>)>
    ensures gives { Gives (with_rest record_view) result (read (right (right (right (entries_form Nets)))) (rest_of cursor.entry)) }
    ensures later { IfSome result (λ x. IsLater cursor.entry x.1) }
    ensures lent { IfSome result (λ x. StatementAt (pieces_of cursor.entry.tokens) x.0) }
{
    let (net, cursor) = net_entry_at(cursor)?;
    Some((Statement::Entry(Entry::Net(net)), cursor))
}

/// An entry of a section
#[inline(never)]
fn entry_statement_at<'t>(
    section: Section,
    cursor: Cursor<'t>,
) -> Option<(Statement<'t>, Cursor<'t>)>
    ensures gives { Gives (with_rest record_view) result (read (right (right (right (entries_form section)))) (rest_of cursor.entry)) }
    ensures later { IfSome result (λ x. IsLater cursor.entry x.1) }
    ensures lent { IfSome result (λ x. StatementAt (pieces_of cursor.entry.tokens) x.0) }
{
    let (entry, cursor) = entry_at(section, cursor)?;
    Some((Statement::Entry(entry), cursor))
}

/// A statement among property definitions
#[inline(never)]
fn property_statement_at<'t>(cursor: Cursor<'t>) -> Option<(Statement<'t>, Cursor<'t>)>
    ensures gives { Gives (with_rest record_view) result (read (right (left property_statement)) (rest_of cursor.entry)) }
    ensures later { IfSome result (λ x. IsLater cursor.entry x.1) }
    ensures lent { IfSome result (λ x. StatementAt (pieces_of cursor.entry.tokens) x.0) }
{
    let (property, cursor) = property_at(cursor)?;
    Some((Statement::Property(property), cursor))
}

/// A statement by its mode.
#[tactic(auto, unfolding(def_grammar::specs::Records::statement))]
#[inline(never)]
fn statement_at<'t>(mode: Mode, cursor: Cursor<'t>) -> Option<(Statement<'t>, Cursor<'t>)>
    ensures gives { Gives (with_rest record_view) result (read (statement mode) (rest_of cursor.entry)) }
    ensures later { IfSome result (λ x. IsLater cursor.entry x.1) }
    ensures lent { IfSome result (λ x. StatementAt (pieces_of cursor.entry.tokens) x.0) }
{
    let ends = cursor.next_is(b"END");
    match mode {
        Mode::Top => top_at(cursor),
        Mode::In(section) if ends => end_at(section, cursor),
        Mode::In(Section::Components) => component_statement_at(cursor),
        Mode::In(Section::Nets) => net_statement_at(cursor),
        Mode::In(section) => entry_statement_at(section, cursor),
        Mode::Props => property_statement_at(cursor),
        Mode::After => None,
    }
}

impl<'t> grammar::Statement<'t> for Statement<'t> {
    ghost use Rattle.def_grammar.specs.Records.{Record};
    ghost use Rattle.design_model.specs.declared.mode.Mode.{Mode as TheMode};

    type Place = Mode;

    ghost Where = { TheMode };

    ghost Says = { Record };

    ghost grammar = { def };

    ghost place_view = { mode_view };

    ghost view = { record_view };

    ghost lent = { StatementAt };

    fn ending(_mode: Mode, first: &[u8]) -> Ending
        ensures { ending_view result ≡ def_ending first.now }
    {
        if is_word(first, b"PROPERTYDEFINITIONS") || is_semicolon(first) {
            Ending::Alone
        } else if is_word(first, b"END") {
            Ending::WithNext
        } else if is_word(first, b"BEGINEXT") {
            Ending::UpTo(b"ENDEXT")
        } else {
            Ending::UpTo(b";")
        }
    }

    fn read(mode: Mode, tokens: TokenRun<'t>) -> Option<(Statement<'t>, Option<usize>)>
        ensures gives { Gives (λ x. (record_view x.0, x.1)) result (whole (statement mode) (words_of tokens.entry)) }
        ensures lent { IfSome result (λ x. StatementAt (pieces_of tokens.entry) x.0) }
    {
        let (statement, cursor) = statement_at(mode, Cursor::start(tokens))?;
        if cursor.is_done() {
            Some((statement, cursor.bad))
        } else {
            None
        }
    }

    fn after(mode: Mode, statement: &Statement<'t>) -> Mode
        ensures { result ≡ mode_after mode (record_view statement.now) }
    {
        match statement {
            Statement::Header(section, _) => Mode::In(*section),
            Statement::EndSection(_) | Statement::Property(Property::End) => Mode::Top,
            Statement::Properties => Mode::Props,
            Statement::EndDesign => Mode::After,
            _ => mode,
        }
    }

    fn may_end(mode: Mode) -> bool
        ensures { result ≡ is_after mode }
    {
        matches!(mode, Mode::After)
    }
}
