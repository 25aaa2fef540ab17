// Ways from the root of a tree down.
ghost use Rattle.std.specs.Prelude.{◌≡◌, ◌-◌, ◌<◌};
ghost use Rattle.tree.specs.Ways.{in_way, way_leaves, passes_low, side_of, ends_with};

use crate::spans::{LARGEST, Span};

// A way down to leaf `index` among `size`, or down to the end of the first `old` of `new` leaves.
#[derive(Clone, Copy, PartialEq, Eq, Debug)]
pub enum Way {
    ToLeaf { index: usize, size: usize },
    ToEnd { old: usize, new: usize },
}

// How a way goes by a range of leaves: before it, after it, or through it.
#[derive(Clone, Copy, PartialEq, Eq, Debug)]
pub enum Side {
    Low,
    High,
    Through,
}

impl Way {
    // Whether there is such a way in a tree.
    pub fn exists(self) -> bool
        ensures { result ≡ in_way self }
    {
        match self {
            Way::ToLeaf { index, size } => index < size && size <= LARGEST,
            Way::ToEnd { old, new } => 0 < old && old <= new && new <= LARGEST,
        }
    }

    // How many leaves the tree has.
    pub fn leaves(self) -> usize
        ensures { result ≡ way_leaves self }
    {
        match self {
            Way::ToLeaf { size, .. } => size,
            Way::ToEnd { new, .. } => new,
        }
    }

    // Whether it stays before a leaf.
    pub fn passes_low(self, leaf: usize) -> bool
        ensures { result ≡ passes_low self leaf }
    {
        match self {
            Way::ToLeaf { index, .. } => index < leaf,
            Way::ToEnd { old, .. } => old <= leaf,
        }
    }

    // How it goes by a range.
    pub fn side(self, range: Span) -> Side
        ensures { result ≡ side_of self range }
    {
        if self.passes_low(range.from) {
            Side::Low
        } else if self.passes_low(range.to) {
            Side::Through
        } else {
            Side::High
        }
    }

    // Whether it ends with a part of the tree through which it goes.
    pub(crate) fn ends_with(self, part: Span) -> bool
        requires { part.from < part.to }
        ensures { result ≡ ends_with self part }
    {
        match self {
            Way::ToLeaf { .. } => part.to - part.from == 1,
            Way::ToEnd { old, .. } => part.to == old,
        }
    }
}
