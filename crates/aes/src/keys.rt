// The round keys.
ghost use Rattle.std.specs.Prelude.{◌≡◌, ◌<◌, ◌≤◌};
ghost use Rattle.cipher.specs.Bytes.{little};
ghost use Rattle.cipher.specs.Blocks.{block_bytes};
ghost use Rattle.aes.specs.Aes.{temp, key_expansion};

use crate::columns::shifted;
use crate::words::{load_word, store_word};
use cipher::words::{Block, Words};

const RCON: [u8; 10] = [1, 2, 4, 8, 16, 32, 64, 128, 27, 54];

// What is xored onto word `i - 4` to give word `i`, from word `i - 1`.
fn temp(i: usize, last: u32) -> u32
    requires { (4 ≤ i) × (i < 44) }
    ensures { little 4 result ≡ temp 4 i (little 4 last) }
{
    if i % 4 == 0 {
        // With all four columns alike this is S at each byte.
        let w = last.rotate_left(24);
        shifted(w, w, w, w) ^ RCON[i / 4 - 1] as u32
    } else {
        last
    }
}

// All eleven round keys, word after word.
pub(crate) fn round_keys(key: Block) -> [u8; 176]
    ensures { result ≡ key_expansion 4 10 (block_bytes key) }
{
    let mut keys = [0u8; 176];
    key.store(&mut keys, 0);
    let mut last = load_word(&keys, 12);
    for i in 4..44 {
        last = load_word(&keys, 4 * i - 16) ^ temp(i, last);
        store_word(last, &mut keys, 4 * i);
    }
    keys
}
