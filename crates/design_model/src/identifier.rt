//! Numbers that stand for layers, statements and shapes.

/// A layer, by its place among the layers of the library, from 0 at the bottom.
#[derive(Clone, Copy, Debug, PartialEq, Eq)]
pub struct LayerId(pub usize);

/// A statement of a text in pieces.
#[derive(Clone, Copy, Debug, PartialEq, Eq)]
pub struct StmtId(pub usize);

/// A shape of a set of shapes.
#[derive(Clone, Copy, Debug, PartialEq, Eq)]
pub struct ShapeId(pub usize);
