// The hash.
ghost use Rattle.std.specs.Prelude.{◌≡◌, ℕ, List, map};
ghost use Rattle.std.specs.Iterator.{Drains, IsFinite};
ghost use Rattle.std.specs.Result.{result_map_both};
ghost use Rattle.refusal.specs.declared.Refusal.{Refusal as TheRefusal};
ghost use Rattle.cipher.specs.Blocks.{block_bytes};
ghost use Rattle.cipher.specs.declared.words.Block.{Block as TheBlock};
ghost use Rattle.hash.specs.Hash.{chain, from_zeros, hash_of, hash_answer, start_of, value_before};

use crate::compress::Compression;
use crate::padding::padded_blocks;
use cipher::words::Block;
use refusal::{Refusal, must};

// A message has at most so many bytes.
pub const LONGEST: usize = 1_048_576;

// The value from which every hash starts.
fn start<C: Compression>() -> C::Value
    ensures { C.Value.Words.bytes result ≡ start_of C.Value.Words.width }
{
    C::Value::default()
}

// The chaining value after some blocks.
fn after_blocks<C: Compression, I: Iterator<Item = Block> + Drop>(c: &C, blocks: I) -> C::Value
    requires can { I.can_next blocks }
    requires ends { IsFinite (I.remaining blocks) }
    ensures { (bs : List TheBlock) × Drains I.next_gives blocks bs × (C.Value.Words.bytes result ≡ chain (from_zeros C.Value.Words.width C.Compression.f) (start_of C.Value.Words.width) (map block_bytes bs)) }
{
    let mut h = start::<C>();
    for block in blocks {
        h = c.compress(h, block);
    }
    h
}

// The digest of a message of any length.
pub fn digest<C: Compression>(c: &C, message: &[u8]) -> C::Value
    ensures { C.Value.Words.bytes result ≡ hash_of (from_zeros C.Value.Words.width C.Compression.f) message.now }
{
    after_blocks(c, padded_blocks(message))
}

// The chaining value before block `k` of a message, or the digest if it has no more than `k` blocks.
pub fn value_before<C: Compression>(c: &C, message: &[u8], k: usize) -> C::Value
    ensures { C.Value.Words.bytes result ≡ value_before (from_zeros C.Value.Words.width C.Compression.f) message.now k }
{
    after_blocks(c, padded_blocks(message).take(k))
}

// The digest of a message, or a refusal where it is too long.
pub fn hash<C: Compression>(c: &C, message: &[u8]) -> Result<C::Value, Refusal>
    ensures { result_map_both C.Value.Words.bytes (λ (e : TheRefusal). e) result ≡ hash_answer (from_zeros C.Value.Words.width C.Compression.f) message.now }
{
    must(message.len() <= LONGEST, Refusal::TooLong { input: 1 })?;
    Ok(digest(c, message))
}
