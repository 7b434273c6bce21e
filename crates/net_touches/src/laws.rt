//! Laws of names.

ghost use Rattle.net_touches.specs.Laws.{LayersHaveTheirNames};

/// A layer's name by the list of all layers' names is its name by the list of layers.
pub fn layers_have_their_names()
    ensures { LayersHaveTheirNames }
{}
