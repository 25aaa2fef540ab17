// How many digests a store with so many places takes.
ghost use Rattle.std.specs.Prelude.{◌≡◌};
ghost use Rattle.store.specs.Stores.{most_of};

use tree::spans::LARGEST;

// How many it takes in all: no more than a tree has leaves.
pub(crate) fn most(places: usize) -> usize
    ensures { result ≡ most_of places }
{
    places.min(LARGEST)
}
