//! What the entries of a DEF text refer to, and their wires as plain items.
//!
//! A crate of definitions, with no code. Begin with `specs/References`: the names in an entry that are defined elsewhere, as
//! data (`entry_references`), and `specs/Unknown`, the lines on those that aren't (`unknown_lines`). `specs/ViaLayers` says which
//! layers a via joins, `specs/WireItems` gives the items of a path in numbers, as `wire_rules` takes them, `specs/OffLayer` has
//! the lines on vias that don't join the layer of their wire, and `specs/Unchecked` those on parts whose shape isn't checked. `specs/Blocked` has
//! what an entry of BLOCKAGES blocks, and where.
//!
//! Lines are by entry: each is one of a list of data of the entry, kept or left out by what is known. Nothing fails.
#![tactic(auto)]
