//! How parts hang together once a pin is put to them, or taken from them.

ghost use Rattle.std.specs.Prelude.{◌≡◌, ◌∷◌, IfSome, List};
ghost use Rattle.connection_rules.specs.NetParts.{Part};
ghost use Rattle.kept_nets.specs.Joints.{HangsBy};
ghost use Rattle.kept_nets.specs.Kept.{HangAs};

use crate::joint::Joint;
use net_classes::NetClasses;
use part_classes::Counts;

/// The same with another count of classes that hold a pin.
fn with_holding(classes: NetClasses, holding: usize) -> NetClasses
    ensures holding { result.counts.holding ≡ holding }
    ensures bare { result.counts.bare ≡ classes.counts.bare }
    ensures drawn { result.is_drawn ≡ classes.is_drawn }
{
    NetClasses {
        counts: Counts {
            holding,
            bare: classes.counts.bare,
        },
        is_drawn: classes.is_drawn,
    }
}

/// How parts hang together with one more pin, where it is known.
pub(crate) fn with_pin(classes: Option<NetClasses>, joint: Joint) -> Option<NetClasses>
    ensures { (p : Part) (ps : List Part) → HangsBy joint p ps → IfSome classes (HangAs ps) → IfSome result (HangAs (p ∷ ps)) }
{
    let without = classes?;
    match joint {
        Joint::Alone => Some(with_holding(without, without.counts.holding.checked_add(1)?)),
        Joint::Within => Some(without),
        Joint::Open => None,
    }
}

/// How parts hang together without one of their pins, where it is known.
pub(crate) fn without_pin(classes: Option<NetClasses>, joint: Joint) -> Option<NetClasses>
    ensures { (p : Part) (ps : List Part) → HangsBy joint p ps → IfSome classes (HangAs (p ∷ ps)) → IfSome result (HangAs ps) }
{
    let with = classes?;
    match joint {
        Joint::Alone => Some(with_holding(with, with.counts.holding.checked_sub(1)?)),
        Joint::Within => Some(with),
        Joint::Open => None,
    }
}
