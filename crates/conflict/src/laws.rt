// What is proved of the conflict calls, for every compression. The calls that carry these laws call the functions here, which do nothing.
ghost use Rattle.hash.specs.Hash.{from_zeros};
ghost use Rattle.conflict.specs.Laws.{MessagesExact, MessagesWritten, ProofsExact, ProofsWritten, LinksExact, LinksWritten};

use cipher::words::Words;
use hash::compress::Compression;

pub(crate) fn messages_exact<C: Compression>()
    ensures { MessagesExact (from_zeros C.Value.Words.width C.Compression.f) }
{}

pub(crate) fn messages_written<C: Compression>()
    ensures { MessagesWritten (from_zeros C.Value.Words.width C.Compression.f) }
{}

pub(crate) fn proofs_exact<C: Compression>()
    ensures { ProofsExact (from_zeros C.Value.Words.width C.Compression.f) }
{}

pub(crate) fn proofs_written<C: Compression>()
    ensures { ProofsWritten (from_zeros C.Value.Words.width C.Compression.f) }
{}

pub(crate) fn links_exact<C: Compression>()
    ensures { LinksExact (from_zeros C.Value.Words.width C.Compression.f) }
{}

pub(crate) fn links_written<C: Compression>()
    ensures { LinksWritten (from_zeros C.Value.Words.width C.Compression.f) }
{}
