// The head of a log: how many leaves it has, and the root over them.
ghost use Rattle.std.specs.Prelude.{◌≡◌, ◌<◌, ◌≤◌, MatchOption, ⊤};
ghost use Rattle.tree.specs.Spans.{largest};

use std::alloc::AllocError;
use tree::spans::LARGEST;

pub struct Head<D> {
    size: u32,
    root: D,
    ghost some: { 1 ≤ size },
    ghost most: { size ≤ largest },
}

impl<D: Copy> Copy for Head<D> {}

// By hand, since `Clone` is not derived for a struct with a ghost field.
impl<D: Copy> Clone for Head<D> {
    ghost is_clone = { λ x y. y ≡ x };

    ghost is_infallible = { λ _. ⊤ };

    fn clone(&self) -> Result<Head<D>, AllocError> {
        Ok(*self)
    }
}

impl<D: Copy> Head<D> {
    // The head, if a log can have so many leaves.
    pub fn new(size: u32, root: D) -> Option<Head<D>>
        ensures { MatchOption result (1 ≤ size → largest < size) (λ h. (h.size ≡ size) × (h.root ≡ root)) }
    {
        if size == 0 || size as usize > LARGEST {
            return None;
        }
        Some(Head { size, root })
    }

    pub fn size(&self) -> u32
        ensures { (result ≡ self.now.size) × ((1 ≤ result) × (result ≤ largest)) }
    {
        self.size
    }

    pub fn root(&self) -> D
        ensures { result ≡ self.now.root }
    {
        self.root
    }
}
