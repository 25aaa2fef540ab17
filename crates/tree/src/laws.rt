// What is proved of the tree's definitions, for every compression.
ghost use Rattle.hash.specs.Hash.{from_zeros};
ghost use Rattle.tree.specs.Laws.{TreeLaws};

use cipher::words::Words;
use hash::compress::Compression;

// The tree splits at the largest power of two below its size, and what is made from the leaves rebuilds the roots.
pub fn tree_laws<C: Compression>()
    ensures { TreeLaws (from_zeros C.Value.Words.width C.Compression.f) }
{}
