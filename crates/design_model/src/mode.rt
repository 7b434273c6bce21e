//! Where in a DEF text a statement stands (LEF/DEF 5.8 Language Reference, "DEF Syntax").

ghost use Rattle.std.specs.Prelude.{◌≡◌};
ghost use Rattle.form_meanings.specs.Meaning.{find};
ghost use Rattle.design_model.specs.EnumWords.{section_word, sections};

use crate::word::is_word;

/// The sections of a DEF text that hold entries.
#[derive(Clone, Copy, Debug, PartialEq, Eq)]
pub enum Section {
    Vias,
    NonDefaultRules,
    Regions,
    Components,
    Pins,
    Blockages,
    SpecialNets,
    Nets,
    Groups,
    ScanChains,
    PinProperties,
    Slots,
    Fills,
    Styles,
}

impl Section {
    /// The word that it is written with.
    #[tactic(auto, unfolding(crate::specs::EnumWords::section_word))]
    pub fn word(self) -> &'static [u8]
        ensures { result.now ≡ section_word self }
    {
        match self {
            Section::Components => b"COMPONENTS",
            Section::Nets => b"NETS",
            Section::SpecialNets => b"SPECIALNETS",
            Section::Pins => b"PINS",
            Section::Vias => b"VIAS",
            Section::NonDefaultRules => b"NONDEFAULTRULES",
            Section::Regions => b"REGIONS",
            Section::Blockages => b"BLOCKAGES",
            Section::Groups => b"GROUPS",
            Section::ScanChains => b"SCANCHAINS",
            Section::PinProperties => b"PINPROPERTIES",
            Section::Slots => b"SLOTS",
            Section::Fills => b"FILLS",
            Section::Styles => b"STYLES",
        }
    }

    /// The section of a word.
    #[tactic(auto, unfolding(crate::specs::EnumWords::section_word))]
    pub fn of_word(word: &[u8]) -> Option<Section>
        ensures { result ≡ find section_word sections word.now }
    {
        if is_word(word, b"COMPONENTS") {
            Some(Section::Components)
        } else if is_word(word, b"NETS") {
            Some(Section::Nets)
        } else if is_word(word, b"SPECIALNETS") {
            Some(Section::SpecialNets)
        } else if is_word(word, b"PINS") {
            Some(Section::Pins)
        } else if is_word(word, b"VIAS") {
            Some(Section::Vias)
        } else if is_word(word, b"NONDEFAULTRULES") {
            Some(Section::NonDefaultRules)
        } else if is_word(word, b"REGIONS") {
            Some(Section::Regions)
        } else if is_word(word, b"BLOCKAGES") {
            Some(Section::Blockages)
        } else if is_word(word, b"GROUPS") {
            Some(Section::Groups)
        } else if is_word(word, b"SCANCHAINS") {
            Some(Section::ScanChains)
        } else if is_word(word, b"PINPROPERTIES") {
            Some(Section::PinProperties)
        } else if is_word(word, b"SLOTS") {
            Some(Section::Slots)
        } else if is_word(word, b"FILLS") {
            Some(Section::Fills)
        } else if is_word(word, b"STYLES") {
            Some(Section::Styles)
        } else {
            None
        }
    }
}

/// The place of a statement among the others.
#[derive(Clone, Copy, Debug, PartialEq, Eq)]
pub enum Mode {
    /// Outside of all sections.
    Top,
    /// Between a section's header and its `END`.
    In(Section),
    /// Between `PROPERTYDEFINITIONS` and its `END`.
    Props,
    /// After `END DESIGN`.
    After,
}
