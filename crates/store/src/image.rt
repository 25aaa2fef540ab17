// A store over lent bytes, which keeps a leaf record for each digest.
ghost use Rattle.std.specs.Prelude.{◌≤◌};
ghost use Rattle.store.specs.Stores.{most_of};
ghost use Rattle.store.specs.LeafRecords.{places_in};

use cipher::words::Words;
use std::marker::PhantomData;

mod calls;

// The digests are in the first `count` leaf records, which stand one after the other. The bytes are lent, since no library of the
// log allocates: so the count stands beside them.
#[derive(Drop)]
pub struct Image<'a, D: Words> {
    bytes: &'a mut [u8],
    count: usize,
    // Says which digests the records have, and holds none.
    digests: PhantomData<D>,
    ghost within: { count ≤ most_of (places_in D.Words.width bytes.now) },
}
