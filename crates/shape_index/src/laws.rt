//! Laws of tiles.

ghost use Rattle.shape_index.specs.TileLaws.{MetIsNear, SizesAreLeast, TilesAreFloors};

/// Up to 2^63 a size is the least power of two that isn't below the side.
pub fn sizes_are_least()
    ensures { SizesAreLeast }
{}

/// The tile of a coordinate is the floor of its division by the size, counted from the tile of the lowest one.
pub fn tiles_are_floors()
    ensures { TilesAreFloors }
{}

/// A shape on a layer that meets a rectangle is near it.
pub fn met_is_near()
    ensures { MetIsNear }
{}
