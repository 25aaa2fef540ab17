// The root over a range of leaves, in one pass with few cells.
ghost use Rattle.std.specs.Prelude.{◌≡◌, ℕ, ◌<◌, ◌≤◌, List, [], ◌∷◌, ◌++◌, length, MatchResult};
ghost use Rattle.std.specs.Option.{option_map};
ghost use Rattle.stack.specs.Held.{held, room};
ghost use Rattle.hash.specs.Hash.{from_zeros};
ghost use Rattle.tree.specs.Digests.{node_digest};
ghost use Rattle.tree.specs.Spans.{largest};
ghost use Rattle.roots.specs.Roots.{cells_needed, range_root};
ghost use Rattle.roots.specs.Rows.{Rows};

use cipher::words::Words;
use hash::compress::Compression;
use refusal::Refusal;
use stack::Stack;
use tree::digests::node;
use tree::leaves::Leaves;
use tree::spans::LARGEST;

// With so many cells a pass over the largest tree does not run out of them.
pub const CELLS: usize = 21;

// The root over 2 ^ `height` leaves.
#[derive(Clone, Copy, PartialEq, Eq, Debug, Default)]
pub struct Subtree<D> {
    pub height: u8,
    pub digest: D,
}

// Adds a leaf to the subtrees on the stack, and joins subtrees of one height.
fn settle<C: Compression>(
    c: &C,
    stack: &mut Stack<'_, Subtree<C::Value>>,
    leaf: C::Value,
) -> Result<(), Refusal>
    requires cells { cells_needed ≤ room stack.old }
    requires rows { (xs : List (List ℕ)) × (length xs < largest) × Rows (node_digest (from_zeros C.Value.Words.width C.Compression.f)) C.Value.Words.bytes 1 (held stack.old) xs }
    ensures rows { MatchResult result (λ _. (xs : List (List ℕ)) → Rows (node_digest (from_zeros C.Value.Words.width C.Compression.f)) C.Value.Words.bytes 1 (held stack.old) xs → Rows (node_digest (from_zeros C.Value.Words.width C.Compression.f)) C.Value.Words.bytes 1 (held stack.new) (xs ++ C.Value.Words.bytes leaf ∷ [])) (λ _. ⊥) }
    ensures size { room stack.new ≡ room stack.old }
{
    let mut top = Subtree {
        height: 0,
        digest: leaf,
    };
    loop {
        match stack.pop() {
            None => return stack.push(top),
            Some(below) => {
                if below.height != top.height {
                    stack.push(below)?;
                    return stack.push(top);
                }
                top = Subtree {
                    height: top.height + 1,
                    digest: node(c, below.digest, top.digest),
                };
            }
        }
    }
}

// The root over leaves `a` to `b` - 1, if there are such leaves, no more than a tree has, and cells enough.
pub fn range_root<C: Compression, L: Leaves<Item = C::Value>>(
    c: &C,
    leaves: &L,
    a: usize,
    b: usize,
    cells: &mut [Subtree<C::Value>],
) -> Option<C::Value>
    ensures { option_map C.Value.Words.bytes result ≡ range_root (from_zeros C.Value.Words.width C.Compression.f) (L.Leaves.items leaves.now) a b (length cells.old) }
{
    if a >= b || b > leaves.count() || b - a > LARGEST || cells.len() < CELLS {
        return None;
    }
    let mut stack = Stack::new(cells);
    for i in a..b {
        settle(c, &mut stack, leaves.leaf(i)?).ok()?;
    }
    let mut root = stack.pop()?.digest;
    while let Some(below) = stack.pop() {
        root = node(c, below.digest, root);
    }
    Some(root)
}
