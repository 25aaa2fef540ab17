// Stores of leaf digests: what a store is, one over lent digests and one over lent bytes.
#![tactic(auto)]

ghost use Rattle.std.specs.Prelude.{◌≡◌, ℕ, ◌+◌, ◌≤◌, length};
ghost use Rattle.tree.specs.Spans.{largest};
ghost use Rattle.store.specs.Stores.{append_answer, items_after, space_after};

use cipher::words::Words;
use refusal::Refusal;
use tree::leaves::Leaves;

// An image and a table are two structs, since each promises in its own words what an append does to what it was lent.
pub mod image;
mod places;
pub mod table;
#[cfg(test)]
mod tests;

// A list of digests that grows at its end, while there is room.
pub trait Store: Leaves {
    // How many more digests it takes.
    ghost space: { Self → ℕ };

    fn room(&self) -> usize
        ensures value { result ≡ space self.now }
        ensures bound { length (Self.Leaves.items self.now) + space self.now ≤ largest };

    // Puts a digest at the end and returns its index, or refuses where there is no room and changes nothing.
    fn append(&mut self, digest: Self::Item) -> Result<usize, Refusal>
        ensures answer { result ≡ append_answer (length (Self.Leaves.items self.old)) (space self.old) }
        ensures items { Self.Leaves.items self.new ≡ items_after (Self.Leaves.items self.old) (space self.old) (Self.Item.Words.bytes digest) }
        ensures space { space self.new ≡ space_after (space self.old) };
}
