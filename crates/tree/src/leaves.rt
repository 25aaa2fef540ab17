// Where leaf digests come from.
ghost use Rattle.std.specs.Prelude.{◌≡◌, ℕ, List, length};
ghost use Rattle.std.specs.Option.{option_map};
ghost use Rattle.std.specs.List.{slice_get};
ghost use Rattle.tree.specs.Digests.{Digests};

use cipher::words::Words;

// A list of digests. Its whole meaning is their bytes.
pub trait Leaves {
    type Item: Words;

    ghost items: { Self → List (List ℕ) };

    // How many digests there are; each has the width of its type.
    fn count(&self) -> usize
        ensures value { result ≡ length (items self.now) }
        ensures wide { Digests Self.Item.Words.width (items self.now) };

    // Digest `i`, if there are so many.
    fn leaf(&self, i: usize) -> Option<Self::Item>
        ensures { option_map Self.Item.Words.bytes result ≡ slice_get (items self.now) i };
}
