//! Laws of shapes on such layers.

ghost use Rattle.checked_layers.specs.CheckedLayers.{CheckedOneByOne};

/// Of shapes by the names of their layers, each whose layer is such a one stands there with the layer's place.
pub fn checked_one_by_one()
    ensures { CheckedOneByOne }
{}
