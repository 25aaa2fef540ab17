// Collisions of the compression, kept as words.
use cipher::words::Block;

// A block has so many bytes.
pub(crate) const BLOCK_LEN: usize = 16;

// One input of the compression: a chaining value and a block.
#[derive(Clone, Copy, PartialEq, Eq, Debug)]
pub struct Input<D> {
    pub h: D,
    pub m: Block,
}

// Two inputs that are said to have one output.
#[derive(Clone, Copy, PartialEq, Eq, Debug)]
pub struct Collision<D> {
    pub first: Input<D>,
    pub second: Input<D>,
}
