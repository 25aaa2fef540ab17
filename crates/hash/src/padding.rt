// The padded message, block by block.
ghost use Rattle.std.specs.Prelude.{◌≡◌, ℕ, ◌-◌, ◌*◌, ◌/◌, ◌%◌, List, ◌∷◌, ◌++◌, length, take, drop, replicate};
ghost use Rattle.std.specs.Option.{option_map};
ghost use Rattle.std.specs.List.{slice_get};
ghost use Rattle.cipher.specs.Blocks.{block_bytes};
ghost use Rattle.std.specs.Iterator.{YieldsFirstBy, item_count};
ghost use Rattle.hash.specs.Hash.{padded, blocks};
ghost use Rattle.hash.specs.Left.{blocks_left};

use cipher::words::{Block, Words};

// The blocks of the padded message from one on, each made as it is asked for.
#[derive(Drop)]
pub struct PaddedBlocks<'a> {
    message: &'a [u8],
    at: usize,
}

// The blocks of the padded message, one after the other.
pub fn padded_blocks(message: &[u8]) -> PaddedBlocks<'_>
    ensures { blocks_left result ≡ blocks message.now }
{
    PaddedBlocks { message, at: 0 }
}

impl Iterator for PaddedBlocks<'_> {
    type Item = Block;

    ghost next_gives = { YieldsFirstBy block_bytes blocks_left };

    ghost remaining = { item_count blocks_left };

    fn next(&mut self) -> Option<Block> {
        let block = padded_block(self.message, self.at)?;
        self.at += 1;
        Some(block)
    }
}

// Block `k` of the padded message, if there are so many.
pub fn padded_block(message: &[u8], k: usize) -> Option<Block>
    ensures { option_map block_bytes result ≡ slice_get (blocks message.now) k }
{
    let n = message.len();
    let whole = n / 16;
    if k < whole {
        Block::load(message, 16 * k)
    } else if k == whole {
        Block::load(&ending(message), 0)
    } else if k == whole + 1 && n % 16 >= 8 {
        Some(Block {
            lo: 0,
            hi: n as u64,
        })
    } else {
        None
    }
}

// The block in which the message ends: its last bytes, the mark, zeros, and the length if there is room for it.
fn ending(message: &[u8]) -> [u8; 16]
    ensures { result ≡ take 16 (drop (16 * (length message.now / 16)) (padded message.now)) }
{
    let n = message.len();
    let mut block = marked(message);
    if n % 16 < 8 {
        block[8..16].copy_from_slice(&(n as u64).to_le_bytes());
    }
    block
}

// The last bytes of the message, fewer than 16, the mark, and zeros.
fn marked(message: &[u8]) -> [u8; 16]
    ensures { result ≡ drop (16 * (length message.now / 16)) message.now ++ (128 ∷ replicate (15 - length message.now % 16) 0) }
{
    let n = message.len();
    let tail = n % 16;
    let mut block = [0; 16];
    block[0..tail].copy_from_slice(&message[n - tail..n]);
    block[tail] = 0x80;
    block
}
