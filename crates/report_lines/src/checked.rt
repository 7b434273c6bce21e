//! What a check of one thing gives.

use crate::lines::Lines;
use std::alloc::{Allocator, Global};

/// The lines of one thing, and how many rectangles were compared for them, where the call counts them.
#[derive(Drop)]
pub struct Checked<A: Allocator = Global> {
    pub lines: Lines<A>,
    pub tests: u64,
}
