//! Names that may be put into a text.

ghost use Rattle.std.specs.Prelude.{◌≡◌};
ghost use Rattle.std.specs.List.{list_all};
ghost use Rattle.edit_rules.specs.NameTexts.{begins_word, is_component_name, is_name_text, is_visible};

use lefdef_tokens::{is_name, is_word};

/// Whether a byte is one that a word may have.
fn is_visible(byte: u8) -> bool
    ensures { result ≡ is_visible byte }
{
    (byte > 32) & (byte != 127)
}

/// Whether bytes begin neither a comment nor a string.
fn begins_word(bytes: &[u8]) -> bool
    ensures { result ≡ begins_word bytes.now }
{
    match bytes {
        [] => false,
        [first, ..] => !((*first == b'#') | (*first == b'"')),
    }
}

/// Whether a word may have all these bytes.
fn are_visible(bytes: &[u8]) -> bool
    ensures { result ≡ list_all is_visible bytes.now }
{
    bytes.iter().all(|byte| is_visible(*byte))
}

/// Whether bytes are a name by themselves, wherever they are put.
pub fn is_name_text(name: &[u8]) -> bool
    ensures { result ≡ is_name_text name.now }
{
    begins_word(name) & are_visible(name) & is_name(name)
}

/// Whether a component may have this name: it stands for no pin of the design.
pub fn is_component_name(name: &[u8]) -> bool
    ensures { result ≡ is_component_name name.now }
{
    is_name_text(name) & !(is_word(name, b"PIN") | is_word(name, b"VPIN"))
}
