// AES-128.
#![tactic(auto)]

ghost use Rattle.aes.specs.Aes.{aes, key_expansion};
ghost use Rattle.std.proofs.Common.{arith};
ghost use Rattle.aes.specs.Expansion.{length_expanded, length_cipher};

use crate::columns::Columns;
use crate::keys::round_keys;
use cipher::Cipher;
use cipher::words::Block;

mod columns;
mod keys;
pub mod sbox;
mod words;

#[derive(Clone, Copy)]
pub struct Aes128;

impl Cipher for Aes128 {
    type Key = Block;

    ghost e = { aes 4 10 };

    ghost outputs = { λ key block h i. length_cipher 10 (key_expansion 4 10 key) block (omega (arith, length_expanded 4 key 40 (omega arith) h)) };

    fn encrypt(&self, key: Block, block: Block) -> Block {
        let keys = round_keys(key);
        Columns::new(block)
            .add(&keys, 0)
            .nine_rounds(&keys)
            .last_round()
            .add(&keys, 10)
            .block()
    }
}
