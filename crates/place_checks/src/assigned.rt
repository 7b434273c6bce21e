//! Patterns by which groups assign components to regions.

ghost use Rattle.std.specs.Prelude.{◌≡◌};
ghost use Rattle.place_kernels.specs.Views.{starred_pattern};

use place_kernels::patterns::StarredPattern;

/// A pattern of components' names without a `*`, and the region that it assigns them to.
#[derive(Clone, Copy)]
pub struct Assigned<'t> {
    pub pattern: &'t [u8],
    pub region: &'t [u8],
}

/// A pattern of components' names with a `*`, its bytes, and the region that it assigns them to.
#[derive(Clone, Copy)]
pub struct Starred<'t> {
    pub pattern: StarredPattern<'t>,
    pub bytes: &'t [u8],
    pub region: &'t [u8],
    pub ghost is: { starred_pattern pattern ≡ bytes.now },
}
