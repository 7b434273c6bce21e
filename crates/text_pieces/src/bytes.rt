//! Bytes of pieces: parts of blocks, which pieces share.

ghost use Rattle.std.specs.Prelude.{◌≡◌, ◌≤◌, IfOk, length};
ghost use Rattle.std.specs.List.{slice_range};

use design_model::MAX_TEXT;
use std::alloc::{AllocError, Allocator, Global};
use std::marker::Model;
use std::rc::Rc;

/// Bytes of which pieces are parts. They are let go with the last of these pieces.
#[derive(Drop)]
pub struct Block<A: Allocator = Global> {
    bytes: Rc<Vec<u8, A>, A>,
}

impl<A: Allocator> Model for Block<A> {
    ghost use Rattle.std.specs.Prelude.{List, ℕ};

    ghost Value = { List ℕ };

    ghost view = { λ b. b.bytes.value.items };
}

impl<A: Allocator + Copy> Block<A> {
    /// A block of these bytes, which aren't copied.
    pub fn new(bytes: Vec<u8, A>) -> Result<Block<A>, AllocError>
        ensures { IfOk result (λ b. b ≡ bytes.items) }
    {
        let alloc = *bytes.allocator();
        let bytes = Rc::new(alloc, bytes)?;
        Ok(Block { bytes })
    }

    /// The bytes.
    pub fn as_slice(&self) -> &[u8]
        ensures { result.now ≡ self.now }
    {
        self.bytes.as_slice()
    }

    /// The bytes, for others that keep parts of them.
    pub fn shared(&self) -> &Rc<Vec<u8, A>, A>
        ensures { result.now.value.items ≡ self.now }
    {
        &self.bytes
    }

    /// All bytes, as those of a piece. More than a text may have are refused as memory is.
    pub(crate) fn whole(&self) -> Result<PieceBytes<A>, AllocError>
        ensures { IfOk result (λ b. b ≡ self.now) }
    {
        self.part(0, self.as_slice().len())
    }

    /// The bytes between two positions, as those of a piece. A position past the most bytes of a text is refused as memory is.
    pub(crate) fn part(&self, lo: usize, hi: usize) -> Result<PieceBytes<A>, AllocError>
        requires order { lo ≤ hi }
        requires within { hi ≤ length self.now }
        ensures { IfOk result (λ b. b ≡ slice_range self.now lo hi) }
    {
        if hi > MAX_TEXT {
            return Err(AllocError);
        }
        let Ok(block) = self.bytes.clone() else {
            return Err(AllocError);
        };
        Ok(PieceBytes {
            block,
            lo: lo as u32,
            hi: hi as u32,
        })
    }
}

/// The bytes of a piece: a part of a block.
#[derive(Drop)]
pub(crate) struct PieceBytes<A: Allocator = Global> {
    block: Rc<Vec<u8, A>, A>,
    lo: u32,
    hi: u32,
}

impl<A: Allocator> Model for PieceBytes<A> {
    ghost use Rattle.std.specs.Prelude.{◌≤◌, List, ℕ, length};
    ghost use Rattle.std.specs.List.{slice_range};

    ghost Value = { List ℕ };

    ghost view = { λ b. slice_range b.block.value.items b.lo b.hi };

    ghost invariant = { λ b. (b.lo ≤ b.hi) × (b.hi ≤ length b.block.value.items) };
}

impl<A: Allocator> PieceBytes<A> {
    /// The bytes.
    pub(crate) fn as_slice(&self) -> &[u8]
        ensures { result.now ≡ self.now }
    {
        &self.block.as_slice()[self.lo as usize..self.hi as usize]
    }

    /// How many they are.
    pub(crate) fn len(&self) -> usize
        ensures { result ≡ length self.now }
    {
        (self.hi - self.lo) as usize
    }
}
