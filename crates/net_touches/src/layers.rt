//! The layers that shapes and barriers are on, one after the other.

ghost use Rattle.std.specs.Prelude.{◌≡◌, ℕ, List, [], ◌∷◌, ◌++◌, map};
ghost use Rattle.net_touches.specs.Layers.{IsNext, is_between};

use crate::barrier::Barrier;
use design_model::identifier::LayerId;
use net_lists::NetShape;

/// Whether a layer is above one and below another; each is, where there is no such layer.
fn is_between(after: Option<LayerId>, next: Option<LayerId>, layer: LayerId) -> bool
    ensures { result ≡ is_between after next layer.0 }
{
    after.is_none_or(|l| l.0 < layer.0) && next.is_none_or(|l| layer.0 < l.0)
}

/// The next layer above one among some layers, and this layer too.
fn with_layer(after: Option<LayerId>, next: Option<LayerId>, layer: LayerId) -> Option<LayerId>
    ensures { (layers : List ℕ) → IsNext after layers next → IsNext after (layers ++ layer.0 ∷ []) result }
{
    if is_between(after, next, layer) {
        Some(layer)
    } else {
        next
    }
}

/// The next layer above one among those of shapes.
fn next_of_shapes(after: Option<LayerId>, shapes: &[NetShape]) -> Option<LayerId>
    ensures { IsNext after (map (λ s. s.layer.0) shapes.now) result }
{
    let mut next = None;
    for shape in shapes {
        next = with_layer(after, next, shape.layer);
    }
    next
}

/// The next layer above one among some layers, and those of barriers too.
fn with_barriers(
    after: Option<LayerId>,
    next: Option<LayerId>,
    barriers: &[Barrier],
) -> Option<LayerId>
    ensures { (layers : List ℕ) → IsNext after layers next → IsNext after (layers ++ map (λ b. b.layer.0) barriers.now) result }
{
    let mut next = next;
    for barrier in barriers {
        next = with_layer(after, next, barrier.layer);
    }
    next
}

/// The next layer above one that a shape or a barrier is on; the lowest, where there is no such one.
pub(crate) fn layer_above(
    after: Option<LayerId>,
    shapes: &[NetShape],
    barriers: &[Barrier],
) -> Option<LayerId>
    ensures { IsNext after (map (λ s. s.layer.0) shapes.now ++ map (λ b. b.layer.0) barriers.now) result }
{
    with_barriers(after, next_of_shapes(after, shapes), barriers)
}
