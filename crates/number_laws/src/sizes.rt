//! Laws of the sizes of wires and vias.

ghost use Rattle.number_laws.specs.SizeLaws.{DefSizesStand, LefSizesStand, WidthsStand};

/// The widths, extensions and via arrays of the wires of a DEF text that reads, the cuts of its generated vias and the
/// widths of its rules are taken as they are written.
pub fn def_sizes_stand()
    ensures { DefSizesStand }
{}

/// The widths of layers and of rules and the cuts of generated vias of LEF texts that read are taken as they are written.
pub fn lef_sizes_stand()
    ensures { LefSizesStand }
{}

/// The width of a wire of NETS is that of its rule or its layer, as it is written.
pub fn widths_stand()
    ensures { WidthsStand }
{}
