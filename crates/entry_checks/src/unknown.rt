//! Names that aren't defined.

ghost use Rattle.std.specs.Prelude.{◌≡◌, ◌∷◌, ◌++◌, [], OnOk, map, true};
ghost use Rattle.entry_rules.specs.Unknown.{Known as TheKnown, reference_lines, unknown_of, unknown_terminal, unless};
ghost use Rattle.entry_references.specs.ReferenceViews.{reference_view, references_view};
ghost use Rattle.entry_checks.specs.Definitions.{known_in};
ghost use Rattle.entry_checks.specs.Views.{AreSeen, unknown_text, unknown_words, words_of_all};

use crate::known::Known;
use crate::known_names::KnownNames;
use design_model::diagnostic::DiagKind;
use entry_references::reference::Reference;
use lefdef_tokens::is_word;
use report_lines::Lines;
use std::alloc::{AllocError, Allocator};

/// A name that isn't defined.
#[derive(Clone, Copy)]
enum Unknown<'n> {
    /// What it should be the name of, and the name.
    Name(&'n [u8], &'n [u8]),
    /// A pin, by its owner and its name.
    Pin(&'n [u8], &'n [u8]),
}

/// What was found to be known. Layers and vias are named often.
#[derive(Drop)]
pub(crate) struct Seen<'n> {
    layers: KnownNames<'n>,
    vias: KnownNames<'n>,
}

impl<'n> Seen<'n> {
    /// Nothing.
    pub(crate) fn new() -> Seen<'n>
        ensures { (known : TheKnown) → AreSeen known result }
    {
        Seen {
            layers: KnownNames::new(),
            vias: KnownNames::new(),
        }
    }

    /// Whether a reference was seen, so that it is defined.
    fn has(&self, reference: Reference<'_>) -> bool
        ensures { (known : TheKnown) → AreSeen known self.now → result ≡ true → unknown_of known (reference_view reference.entry) ≡ [] }
    {
        match reference {
            Reference::Layer(name) => self.layers.has(name),
            Reference::Via(name) => self.vias.has(name),
            _ => false,
        }
    }

    /// Keeps a reference that is defined.
    #[tactic(auto, using(crate::proofs::SeenSteps::is_defined))]
    fn put(&mut self, reference: Reference<'n>)
        ensures { (known : TheKnown) → AreSeen known self.old → unknown_of known (reference_view reference.entry) ≡ [] → AreSeen known self.new }
    {
        match reference {
            Reference::Layer(name) => self.layers.put(name),
            Reference::Via(name) => self.vias.put(name),
            _ => {}
        }
    }
}

/// The name, where it isn't known.
fn unless<'n>(known: bool, unknown: Unknown<'n>) -> Option<Unknown<'n>>
    ensures { words_of_all result ≡ unless known (unknown_words unknown.entry) }
{
    if known { None } else { Some(unknown) }
}

/// What of a terminal isn't defined: the pin of the design, the component, or its pin.
fn unknown_terminal<'n, K: Known>(known: &K, owner: &'n [u8], pin: &'n [u8]) -> Option<Unknown<'n>>
    ensures { words_of_all result ≡ unknown_terminal (known_in (K.defined known.now)) owner.entry.now pin.entry.now }
{
    let terminal = Unknown::Pin(owner, pin);
    if is_word(owner, b"PIN") {
        return unless(known.has_design_pin(pin), terminal);
    }
    match known.lacks(owner, pin) {
        Some(lacks) => unless(!lacks, terminal),
        None => Some(Unknown::Name(b"COMPONENT", owner)),
    }
}

/// What of a reference isn't defined.
fn unknown_of<'n, K: Known>(known: &K, reference: Reference<'n>) -> Option<Unknown<'n>>
    ensures { words_of_all result ≡ unknown_of (known_in (K.defined known.now)) (reference_view reference.entry) }
{
    match reference {
        Reference::Macro(name) => unless(known.has_macro(name), Unknown::Name(b"MACRO", name)),
        Reference::Region(name) => unless(known.has_region(name), Unknown::Name(b"REGION", name)),
        Reference::Site(name) => unless(known.has_site(name), Unknown::Name(b"SITE", name)),
        Reference::Layer(name) => unless(known.has_layer(name), Unknown::Name(b"LAYER", name)),
        Reference::Via(name) => unless(known.has_via(name), Unknown::Name(b"VIA", name)),
        Reference::Rule(name) => unless(known.has_rule(name), Unknown::Name(b"RULE", name)),
        Reference::Net(name) => unless(known.has_net(name), Unknown::Name(b"NET", name)),
        Reference::Terminal(owner, pin) => unknown_terminal(known, owner, pin),
    }
}

/// Puts the line on a name that isn't defined, in an entry of a section.
fn put_unknown<A: Allocator + Copy>(
    unknown: Unknown<'_>,
    section: &[u8],
    entry: &[u8],
    lines: &mut Lines<A>,
) -> Result<(), AllocError>
    ensures { OnOk result (lines.new ≡ lines.old ++ unknown_text section.now entry.now (unknown_words unknown.entry) ∷ []) }
{
    match unknown {
        Unknown::Name(kind, name) => {
            lines.put(DiagKind::Unknown, &[kind, name, section, entry], &[])
        }
        Unknown::Pin(owner, pin) => {
            lines.put(
                DiagKind::Unknown,
                &[b"PIN", owner, pin, section, entry],
                &[],
            )
        }
    }
}

/// Puts the line on a reference, if it isn't defined. What was seen isn't looked up again.
fn pass_reference<'n, K: Known, A: Allocator + Copy>(
    known: &K,
    section: &[u8],
    entry: &[u8],
    seen: &mut Seen<'n>,
    reference: Reference<'n>,
    lines: &mut Lines<A>,
) -> Result<(), AllocError>
    requires { AreSeen (known_in (K.defined known.now)) seen.old }
    ensures lines { OnOk result (lines.new ≡ lines.old ++ map (unknown_text section.now entry.now) (unknown_of (known_in (K.defined known.now)) (reference_view reference.entry))) }
    ensures seen { AreSeen (known_in (K.defined known.now)) seen.new }
{
    if seen.has(reference) {
        return Ok(());
    }
    match unknown_of(known, reference) {
        Some(unknown) => put_unknown(unknown, section, entry, lines),
        None => {
            seen.put(reference);
            Ok(())
        }
    }
}

/// Puts a line for each of the references of an entry that isn't defined, in their order.
pub(crate) fn put_references<'n, K: Known, A: Allocator + Copy>(
    known: &K,
    section: &[u8],
    entry: &[u8],
    seen: &mut Seen<'n>,
    references: &[Reference<'n>],
    lines: &mut Lines<A>,
) -> Result<(), AllocError>
    requires { AreSeen (known_in (K.defined known.now)) seen.old }
    ensures lines { OnOk result (lines.new ≡ lines.old ++ reference_lines (known_in (K.defined known.now)) section.now entry.now (references_view references.now)) }
    ensures seen { AreSeen (known_in (K.defined known.now)) seen.new }
{
    for reference in references {
        pass_reference(known, section, entry, seen, *reference, lines)?;
    }
    Ok(())
}
