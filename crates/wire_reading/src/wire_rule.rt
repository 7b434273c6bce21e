//! The nondefault rule of a wire of NETS.

ghost use Rattle.std.specs.Prelude.{◌≡◌};
ghost use Rattle.std.specs.Option.{option_map};
ghost use Rattle.lefdef_tokens.specs.Views.{word_view};
ghost use Rattle.net_rules.specs.Widths.{rule_of_wire};
ghost use Rattle.wire_parts.specs.WiringViews.{taper_view};

use wire_parts::wiring::Taper;

/// The rule of a wire, by its tapering and by the rule of its net.
pub(crate) fn rule_of_wire<'t>(net: Option<&'t [u8]>, taper: Taper<'t>) -> Option<&'t [u8]>
    ensures { option_map word_view result ≡ rule_of_wire (option_map word_view net.entry) (taper_view taper.entry) }
{
    match taper {
        Taper::Layer => None,
        Taper::Rule(rule) => Some(rule.bytes),
        Taper::Net => net,
    }
}
