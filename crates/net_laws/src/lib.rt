//! Laws of what the nets of a design hang on, and which of them an edit leaves.
//!
//! Each law is an empty function that ensures it; call it to use it. A net is told by its entries, by the components that these list, by
//! the pins of the design that these list or that name the net, and by UNITS, vias and nondefault rules (`specs/NetsTold`). So where
//! statements are exchanged for others, only those nets change of which one of these is an entry, which list a component or a pin among
//! them, or which a pin among them names (`specs/NetExchanges`). One net is told by few statements (`specs/OneNet`), and where designs
//! agree on all nets but some which are so told, these alone are exchanged (`specs/NetChanges`). Where routing is blocked tells no net, and
//! has laws of its own (`specs/Blocked`).
#![tactic(auto)]

ghost use Rattle.net_laws.specs.Blocked.{BarredLinesFollow, BarsAreExchanged};
ghost use Rattle.net_laws.specs.NetsTold.{NetsAreTold};
ghost use Rattle.net_laws.specs.NetExchanges.{NetsAreExchanged, NoNetsNoLines};
ghost use Rattle.net_laws.specs.NetChanges.{ApartOnAndOn, ToldNetsAreExchanged, TouchedApart};
ghost use Rattle.net_laws.specs.OneNet.{AllPinsTell, EntriesNameOneNet, OneNetIsTold, OwnPinsTell};
ghost use Rattle.net_laws.specs.PinLines.{PinLinesFollow};
ghost use Rattle.net_laws.specs.StarNets.{AgreeOnAndOn, EntriesTell, OneComponentExchanged, OneComponentIsTold, OneExchangedAgree};
ghost use Rattle.net_laws.specs.Within.{WithinApart};

/// A net is the same in two designs that agree on what tells it.
pub fn nets_are_told()
    ensures { NetsAreTold }
{}

/// Where statements are exchanged, the nets that they touch are exchanged, and the others stay.
pub fn nets_are_exchanged()
    ensures { NetsAreExchanged }
{}

/// There are no lines on nets where there is no entry of a net.
pub fn no_nets_no_lines()
    ensures { NoNetsNoLines }
{}

/// Statements that tell one net of a design have that net and no other.
pub fn one_net_is_told()
    ensures { OneNetIsTold }
{}

/// The entries of a net have one name.
pub fn entries_name_one_net()
    ensures { EntriesNameOneNet }
{}

/// Statements that have all pins of a design have those of each net,
pub fn all_pins_tell()
    ensures { AllPinsTell }
{}

/// and so have those whose pins are the net's alone.
pub fn own_pins_tell()
    ensures { OwnPinsTell }
{}

/// Designs agree apart from the nets that statements touch which are exchanged,
pub fn touched_apart()
    ensures { TouchedApart }
{}

/// also after several such exchanges.
pub fn apart_on_and_on()
    ensures { ApartOnAndOn }
{}

/// An exchange of entries of some nets, and of a component or a pin of the design that no other net lists, leaves the other nets.
pub fn within_apart()
    ensures { WithinApart }
{}

/// Where designs agree apart from some nets that few statements tell in both, these nets are exchanged, and the others stay.
pub fn told_nets_are_exchanged()
    ensures { ToldNetsAreExchanged }
{}

/// Where designs agree on what tells a net but for one component, the pins of that component are exchanged, and its other parts stay.
pub fn one_component_exchanged()
    ensures { OneComponentExchanged }
{}

/// Designs agree so where statements of one component are exchanged,
pub fn one_exchanged_agree()
    ensures { OneExchangedAgree }
{}

/// also after several such exchanges.
pub fn agree_on_and_on()
    ensures { AgreeOnAndOn }
{}

/// Few statements tell which pins of one component a net has.
pub fn one_component_is_told()
    ensures { OneComponentIsTold }
{}

/// Where a net has some pins in the place of others, the lines on nets follow by the shapes of these pins alone.
pub fn pin_lines_follow()
    ensures { PinLinesFollow }
{}

/// A net that has an entry is told by some statements.
pub fn entries_tell()
    ensures { EntriesTell }
{}

/// Where statements are exchanged, so are the rectangles where they block routing.
pub fn bars_are_exchanged()
    ensures { BarsAreExchanged }
{}

/// With the same nets, the lines on nets follow an exchange of rectangles where routing is blocked.
pub fn barred_lines_follow()
    ensures { BarredLinesFollow }
{}
