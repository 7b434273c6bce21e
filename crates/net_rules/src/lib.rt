//! What the wires of a design cover: their widths, the shapes of vias, and the pieces of their paths.
//!
//! A crate of definitions, with no code. Begin with `specs/WirePieces`: the pieces of a wire, of an entry of NETS and of one of
//! SPECIALNETS (`net_pieces`, `special_net_pieces`), over `wire_rules`, which goes over plain values. `specs/Widths` says how wide
//! a wire is on a layer, and `specs/ViaRectangles` what a via covers about its origin.
//!
//! A name of a via or of a rule is looked up in DEF first, and then in LEF. Numbers of LEF become database units each by
//! itself. Nothing fails.
#![tactic(auto)]
