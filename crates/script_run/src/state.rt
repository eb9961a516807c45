//! What a script has made so far: its variables, its open blocks and what counts towards its traps.

ghost use Rattle.std.specs.Prelude.{◌<◌, ◌≡◌};

use lb_base::{List, Value, Words};

/// Sets a variable. The old value is dropped by one call, and not variant by variant where the assignment stands.
pub(crate) fn replace<T: Drop>(slot: &mut T, value: T)
    ensures { slot.new ≡ value }
{
    *slot = value;
}

/// An open block: a branch, or the loop whose `while` is the line of this number, from 0.
#[derive(Clone, Copy, Debug)]
pub(crate) enum Block {
    Branch,
    Loop(usize),
}

/// What a script has made so far.
#[derive(Drop)]
pub(crate) struct State {
    /// Its variables, in the order of their names.
    pub(crate) variables: Vec<(Words, Value)>,
    /// Its open blocks, the innermost last.
    pub(crate) blocks: Vec<Block>,
    /// How many children it has spawned: the last one's ordinal.
    pub(crate) spawned: u32,
    /// The names that its open transaction has read.
    pub(crate) transaction: Option<List<Words>>,
    ghost few: { spawned < 4096 },
}
