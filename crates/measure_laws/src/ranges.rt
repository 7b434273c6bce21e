//! Laws of the ranges of cells and of densities.

ghost use Rattle.measure_laws.specs.RangeLaws.{CellsFit, DensitiesFit, LinesFit};

use number_laws::records::def_numbers_pass;

/// The cells of a DEF text that reads are in the range of numbers, and the area of each fits a `u64`.
pub fn cells_fit()
    ensures { CellsFit }
{
    def_numbers_pass();
}

/// The density of such a cell fits a `u128`.
pub fn densities_fit()
    ensures { DensitiesFit }
{}

/// The lines of the grid of a DEF text that reads are in the range of numbers.
pub fn lines_fit()
    ensures { LinesFit }
{
    def_numbers_pass();
}
