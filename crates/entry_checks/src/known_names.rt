//! Names that were looked up and are known, kept since the next one mostly is among them.

ghost use Rattle.std.specs.Prelude.{◌≡◌, ℕ, Bool, IfSome, List, true};
ghost use Rattle.entry_checks.specs.Views.{AreKnown};

use crate::name_slot::{SLOTS, slot_of};
use lefdef_tokens::is_word;

/// Names of one kind that were found known: of those in one slot, the last.
#[derive(Drop)]
pub(crate) struct KnownNames<'n> {
    slots: [Option<&'n [u8]>; SLOTS],
}

/// Whether there is a name, and it is this one.
fn is_name(kept: Option<&[u8]>, name: &[u8]) -> bool
    ensures { (is_known : List ℕ → Bool) → IfSome kept.entry (λ k. is_known k.now ≡ true) → result ≡ true → is_known name.now ≡ true }
{
    match kept {
        Some(kept) => is_word(kept, name),
        None => false,
    }
}

impl<'n> KnownNames<'n> {
    /// No names.
    pub(crate) fn new() -> KnownNames<'n>
        ensures { (is_known : List ℕ → Bool) → AreKnown is_known result }
    {
        KnownNames {
            slots: [None; SLOTS],
        }
    }

    /// Whether this is one of them.
    pub(crate) fn has(&self, name: &[u8]) -> bool
        ensures { (is_known : List ℕ → Bool) → AreKnown is_known self.now → result ≡ true → is_known name.now ≡ true }
    {
        is_name(self.slots[slot_of(name)], name)
    }

    /// Keeps one more that is known.
    pub(crate) fn put(&mut self, name: &'n [u8])
        ensures { (is_known : List ℕ → Bool) → AreKnown is_known self.old → is_known name.entry.now ≡ true → AreKnown is_known self.new }
    {
        self.slots[slot_of(name)] = Some(name);
    }
}
