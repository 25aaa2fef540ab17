// What is proved of the checks, for every compression. The calls that carry these laws call the functions here, which do nothing.
ghost use Rattle.hash.specs.Hash.{from_zeros};
ghost use Rattle.checks.specs.Laws.{ProofsPass, LinksPass};

use cipher::words::Words;
use hash::compress::Compression;

pub(crate) fn proofs_pass<C: Compression>()
    ensures { ProofsPass (from_zeros C.Value.Words.width C.Compression.f) }
{}

pub(crate) fn links_pass<C: Compression>()
    ensures { LinksPass (from_zeros C.Value.Words.width C.Compression.f) }
{}
