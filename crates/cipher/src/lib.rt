// Blocks kept as words, and the interface of a block cipher.
#![tactic(auto)]

ghost use Rattle.std.specs.Prelude.{◌≡◌, ℕ, List, length};
ghost use Rattle.cipher.specs.Blocks.{block_bytes};

use crate::words::{Block, Words};

pub mod words;

// A block cipher on blocks of 16 bytes. Its whole meaning is the output that it gives for each key and block.
pub trait Cipher {
    type Key: Words;

    // E(key, block), over byte lists.
    ghost e: { List ℕ → List ℕ → List ℕ };

    fn encrypt(&self, key: Self::Key, block: Block) -> Block
        ensures { block_bytes result ≡ e (Self.Key.Words.bytes key) (block_bytes block) };

    // An output is a block.
    ghost outputs: { (key block : List ℕ) → length key ≡ Self.Key.Words.width → length block ≡ 16 → length (e key block) ≡ 16 };
}
