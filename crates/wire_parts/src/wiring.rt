//! Wiring clauses of nets and of special nets (LEF/DEF 5.8 Language Reference, "Regular Wiring Statement" and "Special
//! Wiring Statement").

ghost use Rattle.std.specs.Prelude.{◌≡◌, codes, not, true, IfSome};
ghost use Rattle.std.specs.Option.{option_map};
ghost use Rattle.form_meanings.specs.Words.{Gives, is_plus, is_stop, next_passes};
ghost use Rattle.form_meanings.specs.Meaning.{find};
ghost use Rattle.statement_model.specs.Form.{◌⨟◌, empty, many, on, opt_on, read, spell};
ghost use Rattle.def_grammar.specs.Parts.{int, name};
ghost use Rattle.def_grammar.specs.Wiring.{is_new, new_special_wire, new_wire, special_wire, special_wires, special_wiring, taper, wire, wire_mark, wiring, wiring_status, wiring_statuses, wiring_word};
ghost use Rattle.lefdef_tokens.specs.Unseens.{Finds};
ghost use Rattle.lefdef_tokens.specs.Places.{behind, past};
ghost use Rattle.lefdef_tokens.specs.Views.{IsLater, pieces_of, rest_of};
ghost use Rattle.def_parts.specs.ClauseViews.{MaskAt, mask_view};
ghost use Rattle.def_parts.specs.PointViews.{with_rest};
ghost use Rattle.statement_reader.specs.PartViews.{left_after, tokens_after};
ghost use Rattle.wire_parts.specs.WiringViews.{MarkAt, SpecialKindAt, SpecialWireAt, SpecialWiresAt, SpecialWiringAt, TaperAt, WireAt, WiringAt, first_and_others, kind_view, mark_view, special_kind_view, special_wire_view, special_wiring_view, status_view, taper_view, wire_view, wires_view, wiring_view};

use crate::keyword::past_keyword;
use crate::paths::{Path, SpecialVia, WireVia, net_path_at, special_path_at, usual_net_path_past};
use def_parts::number::{int_at, size_at};
use lefdef_tokens::{Cursor, Token, is_plus, is_stop, is_word};
use statement_reader::parts::{Part, Parts, UsualPart, read_parts, read_usual_parts};

/// How wiring was made.
#[derive(Clone, Copy)]
pub enum WiringStatus {
    /// An edit may take its place.
    Routed,
    /// No edit takes its place.
    Fixed,
    /// No edit takes its place.
    Cover,
}

/// Whose width a wire has.
#[derive(Clone, Copy)]
pub enum Taper<'t> {
    /// That of its layer.
    Layer,
    /// That of a rule, by its name.
    Rule(Token<'t>),
    /// That of its net.
    Net,
}

/// A wire of NETS, from its layer on.
#[derive(Clone, Copy, Drop)]
pub struct Wire<'t> {
    pub layer: Token<'t>,
    pub taper: Taper<'t>,
    pub style: Option<Token<'t>>,
    pub path: Path<'t, WireVia<'t>>,
}

/// What stands between the width of a special wire and its path.
#[derive(Clone, Copy, Drop)]
pub enum WireMark<'t> {
    Shape(Token<'t>),
    Style(Token<'t>),
    Mask(Token<'t>),
}

/// A wire of SPECIALNETS, from its layer on.
#[derive(Clone, Copy, Drop)]
pub struct SpecialWire<'t> {
    pub layer: Token<'t>,
    /// In database units, 0 or more.
    pub width: Token<'t>,
    pub marks: Parts<'t, WireMark<'t>>,
    pub path: Path<'t, SpecialVia<'t>>,
}

/// What a wiring clause of NETS begins with.
#[derive(Clone, Copy)]
pub enum WiringKind {
    NoShield,
    Wired(WiringStatus),
}

/// A wiring clause of NETS: its wires, one or more.
#[derive(Clone, Copy)]
pub struct Wiring<'t> {
    pub kind: WiringKind,
    pub first: Wire<'t>,
    pub others: Parts<'t, Wire<'t>>,
}

/// What a wiring clause of SPECIALNETS begins with.
#[derive(Clone, Copy)]
pub enum SpecialWiringKind<'t> {
    /// The net that it shields.
    Shield(Token<'t>),
    Wired(WiringStatus),
}

/// The wires of a wiring clause of SPECIALNETS, where it has some.
#[derive(Clone, Copy)]
pub struct SpecialWires<'t> {
    pub first: SpecialWire<'t>,
    pub others: Parts<'t, SpecialWire<'t>>,
}

/// A wiring clause of SPECIALNETS.
#[derive(Clone, Copy)]
pub struct SpecialWiring<'t> {
    pub kind: SpecialWiringKind<'t>,
    pub wires: Option<SpecialWires<'t>>,
}

impl WiringStatus {
    /// The status of a word.
    #[tactic(auto, unfolding(def_grammar::specs::Wiring::wiring_word))]
    pub fn of_word(word: &[u8]) -> Option<WiringStatus>
        ensures { option_map status_view result ≡ find wiring_word wiring_statuses word.now }
    {
        if is_word(word, b"ROUTED") {
            Some(WiringStatus::Routed)
        } else if is_word(word, b"FIXED") {
            Some(WiringStatus::Fixed)
        } else if is_word(word, b"COVER") {
            Some(WiringStatus::Cover)
        } else {
            None
        }
    }
}

/// The status of a word.
#[tactic(auto, unfolding(def_grammar::specs::Wiring::wiring_status))]
fn wiring_status_at<'t>(cursor: Cursor<'t>) -> Option<(WiringStatus, Cursor<'t>)>
    ensures gives { Gives (with_rest status_view) result (read wiring_status (rest_of cursor.entry)) }
    ensures later { IfSome result (λ x. IsLater cursor.entry x.1) }
    ensures left { IfSome result (λ x. pieces_of x.1.tokens ≡ past 1 (pieces_of cursor.entry.tokens)) }
{
    let (word, cursor) = cursor.next()?;
    let status = WiringStatus::of_word(word.bytes)?;
    Some((status, cursor))
}

/// `[TAPER | TAPERRULE rule]`
#[tactic(auto, unfolding(def_grammar::specs::Wiring::taper))]
#[inline(always)]
pub fn taper_at<'t>(cursor: Cursor<'t>) -> Option<(Taper<'t>, Cursor<'t>)>
    ensures gives { Gives (with_rest taper_view) result (read taper (rest_of cursor.entry)) }
    ensures later { IfSome result (λ x. IsLater cursor.entry x.1) }
    ensures left { IfSome result (λ x. pieces_of x.1.tokens ≡ behind (spell taper (taper_view x.0)) (pieces_of cursor.entry.tokens)) }
    ensures lent { IfSome result (λ x. TaperAt (pieces_of cursor.entry.tokens) x.0) }
{
    if let Some(cursor) = past_keyword(cursor, b"TAPER") {
        Some((Taper::Layer, cursor))
    } else if cursor.next_is(b"TAPERRULE") {
        let (rule, cursor) = cursor.name_behind(b"TAPERRULE")?;
        Some((Taper::Rule(rule), cursor))
    } else {
        Some((Taper::Net, cursor))
    }
}

/// `[STYLE number]`
#[inline(always)]
fn style_at<'t>(cursor: Cursor<'t>) -> Option<(Option<Token<'t>>, Cursor<'t>)>
    ensures gives { Gives (with_rest mask_view) result (read (opt_on (codes "STYLE") int) (rest_of cursor.entry)) }
    ensures later { IfSome result (λ x. IsLater cursor.entry x.1) }
    ensures left { IfSome result (λ x. pieces_of x.1.tokens ≡ behind (spell (opt_on (codes "STYLE") int) (mask_view x.0)) (pieces_of cursor.entry.tokens)) }
    ensures lent { IfSome result (λ x. MaskAt (pieces_of cursor.entry.tokens) x.0) }
{
    if let Some(cursor) = past_keyword(cursor, b"STYLE") {
        let (number, cursor) = int_at(cursor)?;
        Some((Some(number), cursor))
    } else {
        Some((None, cursor))
    }
}

/// `layer [TAPER | TAPERRULE rule] [STYLE number] path`
#[tactic(auto, unfolding(def_grammar::specs::Wiring::wire), using(lefdef_tokens::proofs::PlaceLemmas::behind_append))]
#[inline(always)]
pub fn wire_at<'t>(cursor: Cursor<'t>) -> Option<(Wire<'t>, Cursor<'t>)>
    ensures gives { Gives (with_rest wire_view) result (read wire (rest_of cursor.entry)) }
    ensures later { IfSome result (λ x. IsLater cursor.entry x.1) }
    ensures left { IfSome result (λ x. pieces_of x.1.tokens ≡ behind (spell wire (wire_view x.0)) (pieces_of cursor.entry.tokens)) }
    ensures lent { IfSome result (λ x. WireAt (pieces_of cursor.entry.tokens) x.0) }
{
    let (layer, cursor) = cursor.name()?;
    let (taper, cursor) = taper_at(cursor)?;
    let (style, cursor) = style_at(cursor)?;
    let (path, cursor) = net_path_at(cursor)?;
    let wire = Wire {
        layer,
        taper,
        style,
        path,
    };
    Some((wire, cursor))
}

// As a part that is repeated, a wire is one behind NEW.
impl<'t> Part<'t> for Wire<'t> {
    ghost use Rattle.def_grammar.specs.Wiring.{Wire as TheWire};

    ghost Value = { TheWire };

    ghost view = { wire_view };

    ghost lent = { λ ps wire. WireAt (past 1 ps) wire };

    ghost test = { is_new };

    ghost reads = { read new_wire };

    ghost spells = { spell new_wire };

    ghost spelled = { λ r p e. (new_wire.exact.shows r p e).words };

    #[inline(always)]
    fn begins(word: &[u8]) -> bool
        ensures { result ≡ is_new word.now }
    {
        is_word(word, b"NEW")
    }

    #[tactic(auto, unfolding(def_grammar::specs::Wiring::new_wire))]
    #[inline(always)]
    fn read(cursor: Cursor<'t>) -> Option<(Wire<'t>, Cursor<'t>)>
        ensures gives { Gives (with_rest wire_view) result (read new_wire (rest_of cursor.entry)) }
        ensures later { IfSome result (λ x. IsLater cursor.entry x.1) }
        ensures left { IfSome result (λ x. pieces_of x.1.tokens ≡ behind (spell new_wire (wire_view x.0)) (pieces_of cursor.entry.tokens)) }
        ensures lent { IfSome result (λ x. WireAt (past 1 (pieces_of cursor.entry.tokens)) x.0) }
    {
        wire_at(cursor.key(b"NEW")?)
    }
}

impl<'t> UsualPart<'t> for Wire<'t> {
    #[tactic(auto, unfolding(def_grammar::specs::Wiring::new_wire, def_grammar::specs::Wiring::wire), using(lefdef_tokens::proofs::PlaceLemmas::behind_append))]
    #[inline(always)]
    fn skip(cursor: Cursor<'t>) -> Option<Cursor<'t>>
        ensures begins { IfSome result (λ x. next_passes is_new (rest_of cursor.entry) ≡ true) }
        ensures gives { Finds rest_of result (left_after (read new_wire (rest_of cursor.entry))) }
        ensures later { IfSome result (λ x. IsLater cursor.entry x) }
        ensures left { Finds (λ x. pieces_of x.tokens) result (tokens_after (spell new_wire) (pieces_of cursor.entry.tokens) (read new_wire (rest_of cursor.entry))) }
    {
        if !cursor.next_is(b"NEW") {
            return None;
        }
        let (_, cursor) = cursor.name_behind(b"NEW")?;
        let (_, cursor) = taper_at(cursor)?;
        let (_, cursor) = style_at(cursor)?;
        usual_net_path_past(cursor)
    }
}

/// `NOSHIELD`, or a status
#[tactic(auto, unfolding(def_grammar::specs::Wiring::wiring_status))]
fn wiring_kind_at<'t>(cursor: Cursor<'t>) -> Option<(WiringKind, Cursor<'t>)>
    ensures gives { Gives (with_rest kind_view) result (read (on (codes "NOSHIELD") empty wiring_status) (rest_of cursor.entry)) }
    ensures later { IfSome result (λ x. IsLater cursor.entry x.1) }
    ensures left { IfSome result (λ x. pieces_of x.1.tokens ≡ behind (spell (on (codes "NOSHIELD") empty wiring_status) (kind_view x.0)) (pieces_of cursor.entry.tokens)) }
{
    if let Some(cursor) = past_keyword(cursor, b"NOSHIELD") {
        Some((WiringKind::NoShield, cursor))
    } else {
        let (status, cursor) = wiring_status_at(cursor)?;
        Some((WiringKind::Wired(status), cursor))
    }
}

/// `(ROUTED | FIXED | COVER | NOSHIELD) wire (NEW wire)*`
#[tactic(auto, unfolding(def_grammar::specs::Wiring::wiring), using(lefdef_tokens::proofs::PlaceLemmas::behind_append))]
#[inline(always)]
pub fn wiring_at<'t>(cursor: Cursor<'t>) -> Option<(Wiring<'t>, Cursor<'t>)>
    ensures gives { Gives (with_rest wiring_view) result (read wiring (rest_of cursor.entry)) }
    ensures later { IfSome result (λ x. IsLater cursor.entry x.1) }
    ensures left { IfSome result (λ x. pieces_of x.1.tokens ≡ behind (spell wiring (wiring_view x.0)) (pieces_of cursor.entry.tokens)) }
    ensures lent { IfSome result (λ x. WiringAt (pieces_of cursor.entry.tokens) x.0) }
{
    let (kind, cursor) = wiring_kind_at(cursor)?;
    let (first, cursor) = wire_at(cursor)?;
    let (others, cursor) = read_usual_parts::<Wire<'t>>(cursor)?;
    let wiring = Wiring {
        kind,
        first,
        others,
    };
    Some((wiring, cursor))
}

impl<'t> Part<'t> for WireMark<'t> {
    ghost use Rattle.def_grammar.specs.Wiring.{WireMark as TheMark};

    ghost Value = { TheMark };

    ghost view = { mark_view };

    ghost lent = { λ ps mark. MarkAt (past 1 ps) mark };

    ghost test = { is_plus };

    ghost reads = { read wire_mark };

    ghost spells = { spell wire_mark };

    ghost spelled = { λ r p e. (wire_mark.exact.shows r p e).words };

    #[inline(always)]
    fn begins(word: &[u8]) -> bool
        ensures { result ≡ is_plus word.now }
    {
        is_plus(word)
    }

    #[tactic(auto, unfolding(def_grammar::specs::Wiring::wire_mark))]
    fn read(cursor: Cursor<'t>) -> Option<(WireMark<'t>, Cursor<'t>)>
        ensures gives { Gives (with_rest mark_view) result (read wire_mark (rest_of cursor.entry)) }
        ensures later { IfSome result (λ x. IsLater cursor.entry x.1) }
        ensures left { IfSome result (λ x. pieces_of x.1.tokens ≡ behind (spell wire_mark (mark_view x.0)) (pieces_of cursor.entry.tokens)) }
        ensures lent { IfSome result (λ x. MarkAt (past 1 (pieces_of cursor.entry.tokens)) x.0) }
    {
        let cursor = cursor.key(b"+")?;
        if cursor.next_is(b"SHAPE") {
            let (word, cursor) = cursor.plain_word_behind(b"SHAPE")?;
            Some((WireMark::Shape(word), cursor))
        } else if let Some(cursor) = past_keyword(cursor, b"STYLE") {
            let (number, cursor) = int_at(cursor)?;
            Some((WireMark::Style(number), cursor))
        } else {
            let (word, cursor) = cursor.plain_word_behind(b"MASK")?;
            Some((WireMark::Mask(word), cursor))
        }
    }
}

/// `layer width mark* path`
#[tactic(auto, unfolding(def_grammar::specs::Wiring::special_wire), using(lefdef_tokens::proofs::PlaceLemmas::behind_append))]
pub fn special_wire_at<'t>(cursor: Cursor<'t>) -> Option<(SpecialWire<'t>, Cursor<'t>)>
    ensures gives { Gives (with_rest special_wire_view) result (read special_wire (rest_of cursor.entry)) }
    ensures later { IfSome result (λ x. IsLater cursor.entry x.1) }
    ensures left { IfSome result (λ x. pieces_of x.1.tokens ≡ behind (spell special_wire (special_wire_view x.0)) (pieces_of cursor.entry.tokens)) }
    ensures lent { IfSome result (λ x. SpecialWireAt (pieces_of cursor.entry.tokens) x.0) }
{
    let (layer, cursor) = cursor.name()?;
    let (width, cursor) = size_at(cursor)?;
    let (marks, cursor) = read_parts::<WireMark<'t>>(cursor)?;
    let (path, cursor) = special_path_at(cursor)?;
    let wire = SpecialWire {
        layer,
        width,
        marks,
        path,
    };
    Some((wire, cursor))
}

// As a part that is repeated, a special wire is one behind NEW.
impl<'t> Part<'t> for SpecialWire<'t> {
    ghost use Rattle.def_grammar.specs.Wiring.{SpecialWire as TheWire};

    ghost Value = { TheWire };

    ghost view = { special_wire_view };

    ghost lent = { λ ps wire. SpecialWireAt (past 1 ps) wire };

    ghost test = { is_new };

    ghost reads = { read new_special_wire };

    ghost spells = { spell new_special_wire };

    ghost spelled = { λ r p e. (new_special_wire.exact.shows r p e).words };

    #[inline(always)]
    fn begins(word: &[u8]) -> bool
        ensures { result ≡ is_new word.now }
    {
        is_word(word, b"NEW")
    }

    #[tactic(auto, unfolding(def_grammar::specs::Wiring::new_special_wire))]
    #[inline(always)]
    fn read(cursor: Cursor<'t>) -> Option<(SpecialWire<'t>, Cursor<'t>)>
        ensures gives { Gives (with_rest special_wire_view) result (read new_special_wire (rest_of cursor.entry)) }
        ensures later { IfSome result (λ x. IsLater cursor.entry x.1) }
        ensures left { IfSome result (λ x. pieces_of x.1.tokens ≡ behind (spell new_special_wire (special_wire_view x.0)) (pieces_of cursor.entry.tokens)) }
        ensures lent { IfSome result (λ x. SpecialWireAt (past 1 (pieces_of cursor.entry.tokens)) x.0) }
    {
        special_wire_at(cursor.key(b"NEW")?)
    }
}

/// `swire (NEW swire)*`
#[tactic(auto, using(lefdef_tokens::proofs::PlaceLemmas::behind_append))]
fn wires_of_clause_at<'t>(cursor: Cursor<'t>) -> Option<(SpecialWires<'t>, Cursor<'t>)>
    ensures gives { Gives (with_rest first_and_others) result (read (special_wire ⨟ many is_new new_special_wire) (rest_of cursor.entry)) }
    ensures later { IfSome result (λ x. IsLater cursor.entry x.1) }
    ensures left { IfSome result (λ x. pieces_of x.1.tokens ≡ behind (spell (special_wire ⨟ many is_new new_special_wire) (first_and_others x.0)) (pieces_of cursor.entry.tokens)) }
    ensures lent { IfSome result (λ x. SpecialWiresAt (pieces_of cursor.entry.tokens) x.0) }
{
    let (first, cursor) = special_wire_at(cursor)?;
    let (others, cursor) = read_parts::<SpecialWire<'t>>(cursor)?;
    Some((SpecialWires { first, others }, cursor))
}

/// Whether a token is next that ends no clause.
fn next_is_in_clause<'t>(cursor: Cursor<'t>) -> bool
    ensures { result ≡ next_passes (λ w. not (is_stop w)) (rest_of cursor.entry) }
{
    match cursor.peek() {
        Some(token) => !is_stop(token.bytes),
        None => false,
    }
}

/// `[swire (NEW swire)*]`; there is none where a `+` or a `;` is next
#[tactic(auto, unfolding(def_grammar::specs::Wiring::special_wires))]
fn special_wires_at<'t>(cursor: Cursor<'t>) -> Option<(Option<SpecialWires<'t>>, Cursor<'t>)>
    ensures gives { Gives (with_rest wires_view) result (read special_wires (rest_of cursor.entry)) }
    ensures later { IfSome result (λ x. IsLater cursor.entry x.1) }
    ensures left { IfSome result (λ x. pieces_of x.1.tokens ≡ behind (spell special_wires (wires_view x.0)) (pieces_of cursor.entry.tokens)) }
    ensures lent { IfSome result (λ x. IfSome x.0 (λ w. SpecialWiresAt (pieces_of cursor.entry.tokens) w)) }
{
    if next_is_in_clause(cursor) {
        let (wires, cursor) = wires_of_clause_at(cursor)?;
        Some((Some(wires), cursor))
    } else {
        Some((None, cursor))
    }
}

/// `SHIELD net`, or a status
#[tactic(auto, unfolding(def_grammar::specs::Wiring::wiring_status))]
fn special_kind_at<'t>(cursor: Cursor<'t>) -> Option<(SpecialWiringKind<'t>, Cursor<'t>)>
    ensures gives { Gives (with_rest special_kind_view) result (read (on (codes "SHIELD") name wiring_status) (rest_of cursor.entry)) }
    ensures later { IfSome result (λ x. IsLater cursor.entry x.1) }
    ensures left { IfSome result (λ x. pieces_of x.1.tokens ≡ behind (spell (on (codes "SHIELD") name wiring_status) (special_kind_view x.0)) (pieces_of cursor.entry.tokens)) }
    ensures lent { IfSome result (λ x. SpecialKindAt (pieces_of cursor.entry.tokens) x.0) }
{
    if cursor.next_is(b"SHIELD") {
        let (net, cursor) = cursor.name_behind(b"SHIELD")?;
        Some((SpecialWiringKind::Shield(net), cursor))
    } else {
        let (status, cursor) = wiring_status_at(cursor)?;
        Some((SpecialWiringKind::Wired(status), cursor))
    }
}

/// `(ROUTED | FIXED | COVER | SHIELD net) [swire (NEW swire)*]`
#[tactic(auto, unfolding(def_grammar::specs::Wiring::special_wiring), using(lefdef_tokens::proofs::PlaceLemmas::behind_append))]
pub fn special_wiring_at<'t>(cursor: Cursor<'t>) -> Option<(SpecialWiring<'t>, Cursor<'t>)>
    ensures gives { Gives (with_rest special_wiring_view) result (read special_wiring (rest_of cursor.entry)) }
    ensures later { IfSome result (λ x. IsLater cursor.entry x.1) }
    ensures left { IfSome result (λ x. pieces_of x.1.tokens ≡ behind (spell special_wiring (special_wiring_view x.0)) (pieces_of cursor.entry.tokens)) }
    ensures lent { IfSome result (λ x. SpecialWiringAt (pieces_of cursor.entry.tokens) x.0) }
{
    let (kind, cursor) = special_kind_at(cursor)?;
    let (wires, cursor) = special_wires_at(cursor)?;
    Some((SpecialWiring { kind, wires }, cursor))
}
