//! Places of blocks, by their keys.

ghost use Rattle.std.specs.Prelude.{◌≡◌, ◌<◌, ◌++◌, ◌∷◌, [], true, false, IfSome, List, OnOk, OnErr, Some, is_some, length};
ghost use Rattle.std.specs.List.{list_any};
ghost use Rattle.cell_sums.specs.Blocks.{Key as BlockKey, block_at, is_key};
ghost use Rattle.cell_sums.specs.NotedBlocks.{AreNoted, IsNoted, key_of};

use crate::runs::Key;
use indexmap::IndexSet;
use std::alloc::{AllocError, Allocator};
use std::hash::RandomState;
use std::marker::Model;

/// How far the slots of one major number lie behind those of the one before it: most grids have no more blocks along an axis.
const ROW: usize = 17;

/// How far those of one layer lie behind those of the one before it: in any number of slots, far apart.
const LAYER: usize = 0x9e37_79b9_7f4a_7c15;

/// How many slots there are at first.
const FIRST_SLOTS: usize = 64;

/// A block that was found: its key, and its place. Each takes 4 bytes, so that four blocks share a line of a cache.
#[derive(Clone, Copy)]
struct NotedBlock {
    layer: u32,
    major: u32,
    number: u32,
    place: u32,
}

impl NotedBlock {
    /// The block of a key at a place, unless a number is too high to be noted.
    fn of(key: Key, place: usize) -> Option<NotedBlock>
        ensures key { IfSome result (λ b. key_of b ≡ key) }
        ensures place { IfSome result (λ b. b.place ≡ place) }
    {
        let (layer, major, number) = key;
        Some(NotedBlock {
            layer: u32::try_from(layer).ok()?,
            major: u32::try_from(major).ok()?,
            number: u32::try_from(number).ok()?,
            place: u32::try_from(place).ok()?,
        })
    }

    /// Whether it is the block of a key.
    #[inline(always)]
    fn is_of(&self, key: Key) -> bool
        ensures { result ≡ true → key_of self.now ≡ key }
    {
        let (layer, major, number) = key;
        self.major as usize == major
            && self.number as usize == number
            && self.layer as usize == layer
    }
}

/// Makes more slots, with a block in each.
fn add_slots<A: Allocator>(
    slots: &mut Vec<NotedBlock, A>,
    block: NotedBlock,
) -> Result<(), AllocError>
    ensures { (keys : List BlockKey) → AreNoted keys slots.old.items → IsNoted keys block → AreNoted keys slots.new.items }
{
    let count = slots.len().saturating_mul(2).max(FIRST_SLOTS);
    slots.resize(count, block)?;
    Ok(())
}

/// Puts a block into a slot, if there is one of that number.
fn put(slots: &mut [NotedBlock], slot: usize, block: NotedBlock)
    ensures { (keys : List BlockKey) → AreNoted keys slots.old → IsNoted keys block → AreNoted keys slots.new }
{
    if slot < slots.len() {
        slots[slot] = block;
    }
}

/// The places of blocks, in the order in which they were put there. Those that were found last are noted in slots by their keys, where
/// they are found again without a hash.
#[derive(Drop)]
pub(crate) struct BlockPlaces<A: Allocator> {
    keys: IndexSet<Key, RandomState, A>,
    /// None before the first block is noted, which is then in all of them; their number is a power of 2.
    slots: Vec<NotedBlock, A>,
}

impl<A: Allocator> Model for BlockPlaces<A> {
    ghost use Rattle.std.specs.Prelude.{List};
    ghost use Rattle.cell_sums.specs.Blocks.{Key as BlockKey};
    ghost use Rattle.cell_sums.specs.NotedBlocks.{AreNoted};

    ghost Value = { List BlockKey };

    ghost view = { λ p. p.keys.keys };

    ghost invariant = { λ p. AreNoted p.keys.keys p.slots.items };
}

impl<A: Allocator + Copy> BlockPlaces<A> {
    /// No blocks. It takes no memory.
    pub(crate) fn new(alloc: A, hash_builder: RandomState) -> BlockPlaces<A>
        ensures { result ≡ [] }
    {
        BlockPlaces {
            keys: IndexSet::with_hasher(alloc, hash_builder),
            slots: Vec::new(alloc),
        }
    }

    /// How many blocks there are.
    pub(crate) fn len(&self) -> usize
        ensures { result ≡ length self.now }
    {
        self.keys.len()
    }

    /// The place of a block, by the hash of its key.
    pub(crate) fn get(&self, key: Key) -> Option<usize>
        ensures place { result ≡ block_at self.now key }
        ensures found { is_some result ≡ list_any (is_key key) self.now }
        ensures within { IfSome result (λ n. n < length self.now) }
    {
        self.keys.get_index_of(&key)
    }

    /// The slot of a key, where there are any. Blocks that lie near each other on a layer have slots near each other, and layers begin
    /// apart. A text can make keys share one; they are then found by their hashes.
    #[inline(always)]
    fn slot_of(&self, key: Key) -> usize {
        let (layer, major, number) = key;
        let near = number.wrapping_add(major.wrapping_mul(ROW));
        let slot = near.wrapping_add(layer.wrapping_mul(LAYER));
        slot & self.slots.len().wrapping_sub(1)
    }

    /// The place of a block, if it is noted.
    #[inline(always)]
    pub(crate) fn noted(&self, key: Key) -> Option<usize>
        ensures { IfSome result (λ n. block_at self.now key ≡ Some n) }
    {
        let slot = self.slots.get(self.slot_of(key))?;
        if slot.is_of(key) {
            Some(slot.place as usize)
        } else {
            None
        }
    }

    /// Notes the place of a block. There are no fewer slots than places.
    pub(crate) fn note(&mut self, key: Key, place: usize) -> Result<(), AllocError>
        requires { block_at self.old key ≡ Some place }
        ensures { self.new ≡ self.old }
    {
        let Some(block) = NotedBlock::of(key, place) else {
            return Ok(());
        };
        if self.slots.len() <= place {
            add_slots(&mut self.slots, block)?;
        }
        let slot = self.slot_of(key);
        put(self.slots.as_mut_slice(), slot, block);
        Ok(())
    }

    /// Puts a block behind the others.
    pub(crate) fn push(&mut self, key: Key) -> Result<(), AllocError>
        requires { list_any (is_key key) self.old ≡ false }
        ensures pushed { OnOk result (self.new ≡ self.old ++ key ∷ []) }
        ensures kept { OnErr result (self.new ≡ self.old) }
    {
        self.keys.insert(key)?;
        Ok(())
    }
}
