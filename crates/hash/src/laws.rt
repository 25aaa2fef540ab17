// What is proved of the definitions, for every compression.
ghost use Rattle.hash.specs.Hash.{from_zeros};
ghost use Rattle.hash.specs.Collisions.{EqualDigests};

use crate::compress::Compression;
use cipher::words::Words;

// Two messages of one digest are equal, or the last inputs of the compression that differ collide.
pub fn equal_digests<C: Compression>()
    ensures { EqualDigests (from_zeros C.Value.Words.width C.Compression.f) }
{}
