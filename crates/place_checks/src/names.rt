//! Names of sites and of regions.

ghost use Rattle.std.specs.Prelude.{◌≡◌, map};
ghost use Rattle.lefdef_tokens.specs.Views.{word_view};
ghost use Rattle.design_rules.specs.PlaceLines.{is_one_of};

/// Whether a name is one of these.
pub(crate) fn is_one_of(names: &[&[u8]], name: &[u8]) -> bool
    ensures { result ≡ is_one_of (map word_view names.now) name.now }
{
    for other in names {
        if *other == name {
            return true;
        }
    }
    false
}
