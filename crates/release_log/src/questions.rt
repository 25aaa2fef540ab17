// What a log tells of itself and of its store, also where it was made over leaves.
ghost use Rattle.std.specs.Prelude.{◌≡◌, ℕ, List, length};
ghost use Rattle.std.specs.Option.{option_map, unwrap_or};
ghost use Rattle.std.specs.List.{slice_get};

use crate::Log;
use cipher::words::Words;
use hash::compress::Compression;
use store::Store;
use tree::leaves::Leaves;

impl<C: Compression, S: Store + Leaves<Item = C::Value>> Log<S, C> {
    // The store, to read what a store of its kind tells besides.
    pub fn store(&self) -> &S
        ensures { result.now ≡ self.now.store }
    {
        &self.store
    }

    pub fn count(&self) -> usize
        ensures { result ≡ length (S.Leaves.items self.now.store) }
    {
        self.store.count()
    }

    pub fn room(&self) -> usize
        ensures { result ≡ S.Store.space self.now.store }
    {
        self.store.room()
    }

    // The digest of leaf `i`, if there are so many.
    pub fn leaf(&self, i: usize) -> Option<C::Value>
        ensures { option_map C.Value.Words.bytes result ≡ slice_get (S.Leaves.items self.now.store) i }
    {
        self.store.leaf(i)
    }

    // How many bytes of the entry file are used.
    pub fn used(&self) -> usize
        ensures { result ≡ unwrap_or self.now.used 0 }
    {
        self.used.unwrap_or(0)
    }
}
