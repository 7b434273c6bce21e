//! Laws of the definitions.

ghost use Rattle.std.specs.Prelude.{List, ℕ, Bool};
ghost use Rattle.connection_rules.specs.NetParts.{Net, Part};
ghost use Rattle.net_lists.specs.Building.{IsBuilt};
ghost use Rattle.net_lists.specs.Laws.{BuildingANet, BuildingSteps, GrowingNets};

/// A net that is begun, and given its parts one after the other, each with its shapes, stands behind the others.
pub fn building_a_net()
    ensures { BuildingANet }
{}

/// Each step of building a net builds so much of it.
pub fn building_steps()
    ensures { (old : List Net) (name : List ℕ) (is_power : Bool) → BuildingSteps old name is_power }
{}

/// Where so much of a net is built there is a net, and its parts are the last net's.
pub fn growing_nets()
    ensures { (old : List Net) (name : List ℕ) (is_power : Bool) (parts : List Part) (now : List Net) → IsBuilt old name is_power parts now → GrowingNets old name is_power parts now }
{}
