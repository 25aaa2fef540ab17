// Ranges of leaves, and how many of them a path and a link have.
ghost use Rattle.std.specs.Prelude.{◌≡◌, ℕ, ◌+◌, ◌-◌, ◌*◌, ◌^◌, ◌<◌, ◌≤◌, IfSome};
ghost use Rattle.tree.specs.Spans.{path_count, link_count, Halves};

use crate::ways::Way;

// A tree has at most so many leaves.
pub const LARGEST: usize = 1_048_576;

// Leaves `from` to `to` - 1.
#[derive(Clone, Copy, PartialEq, Eq, Debug, Default)]
pub struct Span {
    pub from: usize,
    pub to: usize,
}

impl Span {
    // The first leaves, as many as the largest power of two below the number of all, and the others.
    pub(crate) fn halves(self) -> (Span, Span)
        requires { 1 < self.to - self.from }
        ensures { Halves self result.0 result.1 }
    {
        let mid = self.from + (1 << (self.to - self.from - 1).ilog2());
        let first = Span {
            from: self.from,
            to: mid,
        };
        let others = Span {
            from: mid,
            to: self.to,
        };
        (first, others)
    }
}

// How many digests the path of leaf `i` among `n` has, if there is such a leaf.
pub fn path_len(i: usize, n: usize) -> Option<usize>
    ensures count { result ≡ path_count i n }
    ensures most { IfSome result (λ k. k ≤ 20) }
{
    Way::ToLeaf { index: i, size: n }.len()
}

// How many digests the link from `m` to `n` leaves has, if there is such a link.
pub fn link_len(m: usize, n: usize) -> Option<usize>
    ensures count { result ≡ link_count m n }
    ensures most { IfSome result (λ k. k ≤ 21) }
{
    Way::ToEnd { old: m, new: n }.len()
}
