// Speck128/128.
#![tactic(auto)]

ghost use Rattle.std.specs.Prelude.{◌≡◌, ◌++◌};
ghost use Rattle.std.proofs.Math.Path.{refl};
ghost use Rattle.cipher.specs.Bytes.{little};
ghost use Rattle.speck.specs.Speck.{round, next_l, speck128};

use cipher::Cipher;
use cipher::words::Block;

// One round on the words x and y, under the round key `k`.
fn round(k: u64, p: (u64, u64)) -> (u64, u64)
    ensures { result ≡ round k p }
{
    let x = p.0.rotate_right(8).wrapping_add(p.1) ^ k;
    (x, p.1.rotate_left(3) ^ x)
}

// The key word that `k` and `l` of step `i` give.
fn next_l(i: u64, k: u64, l: u64) -> u64
    ensures { result ≡ next_l i k l }
{
    k.wrapping_add(l.rotate_right(8)) ^ i
}

// All 32 rounds on the words x and y, each round key made as its round comes.
fn encrypt_words(mut k: u64, mut l: u64, x: u64, y: u64) -> (u64, u64)
    ensures { little 8 result.1 ++ little 8 result.0 ≡ speck128 2 32 (little 8 k ++ little 8 l) (little 8 y ++ little 8 x) }
{
    let mut p = (x, y);
    for i in 0..32 {
        p = round(k, p);
        l = next_l(i, k, l);
        k = k.rotate_left(3) ^ l;
    }
    p
}

#[derive(Clone, Copy)]
pub struct Speck128;

impl Cipher for Speck128 {
    type Key = Block;

    ghost e = { speck128 2 32 };

    ghost outputs = { unfold little in λ key block h i. refl };

    fn encrypt(&self, key: Block, block: Block) -> Block {
        let p = encrypt_words(key.lo, key.hi, block.hi, block.lo);
        Block { lo: p.1, hi: p.0 }
    }
}
