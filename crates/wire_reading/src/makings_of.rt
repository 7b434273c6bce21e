//! What wires are made by, wire by wire.

ghost use Rattle.std.specs.Prelude.{◌≡◌};
ghost use Rattle.std.specs.Option.{option_map};
ghost use Rattle.lefdef_tokens.specs.Views.{word_view};
ghost use Rattle.design_model.specs.Ranges.{IsSize};

use wire_shapes::WiringMakings;

/// What wires of NETS are made by.
pub trait NetMakingsOf<'t>: Sized + Drop {
    ghost use Rattle.std.specs.Prelude.{ℕ, List, Option};
    ghost use Rattle.wire_rules.specs.Paths.{WireMakings};

    type Rules: WiringMakings<'t>;

    ghost makings_of: { Self → Option (List ℕ) → WireMakings };

    /// The rules of a wire that has this nondefault rule, if any.
    fn rules(&self, rule: Option<&'t [u8]>) -> Self::Rules
        ensures { Self.Rules.rules result ≡ makings_of self.now (option_map word_view rule.entry) };
}

/// What wires of SPECIALNETS are made by.
pub trait SpecialMakingsOf<'t>: Sized + Drop {
    ghost use Rattle.std.specs.Prelude.{ℤ};
    ghost use Rattle.wire_rules.specs.Paths.{WireMakings};

    type Rules: WiringMakings<'t>;

    ghost makings_of: { Self → ℤ → WireMakings };

    /// The rules of a wire of a width.
    fn rules(&self, width: i64) -> Self::Rules
        requires { IsSize width }
        ensures { Self.Rules.rules result ≡ makings_of self.now width };
}
