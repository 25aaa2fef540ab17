// The digests of leaves and nodes.
ghost use Rattle.std.specs.Prelude.{◌≡◌, ℕ, ◌<◌, List, length};
ghost use Rattle.std.specs.Result.{result_map_both};
ghost use Rattle.hash.specs.Hash.{from_zeros};
ghost use Rattle.refusal.specs.declared.Refusal.{Refusal as TheRefusal};
ghost use Rattle.cipher.specs.Bytes.{stored};
ghost use Rattle.tree.specs.Digests.{leaf_message, node_message, leaf_digest, node_digest};
ghost use Rattle.tree.specs.Entries.{leaf_answer};

use cipher::words::Words;
use hash::compress::Compression;
use hash::digest::digest;
use refusal::{Refusal, must};

// An entry has at most so many bytes.
pub const LONGEST_ENTRY: usize = 4096;

// The message of a node has at most so many bytes. It is put together in a buffer of that length, since no library of the log allocates.
pub const LONGEST_NODE: usize = 65;

// The digest of the node over two digests.
pub fn node<C: Compression>(c: &C, left: C::Value, right: C::Value) -> C::Value
    ensures { C.Value.Words.bytes result ≡ node_digest (from_zeros C.Value.Words.width C.Compression.f) (C.Value.Words.bytes left) (C.Value.Words.bytes right) }
{
    let width = C::Value::size();
    let mut message = [0; LONGEST_NODE];
    node_message(left, right, &mut message);
    digest(c, &message[0..1 + width + width])
}

// Writes the message of the node over two digests at the front of a buffer, if there is room for all of it.
pub fn node_message<D: Words>(left: D, right: D, into: &mut [u8])
    ensures { into.new ≡ stored 0 (node_message (D.Words.bytes left) (D.Words.bytes right)) into.old }
{
    let width = D::size();
    if into.len() < 1 + width + width {
        return;
    }
    into[0] = 1;
    left.store(into, 1);
    right.store(into, 1 + width);
}

// The digest of the leaf over an entry, which is input `input` of a call, or a refusal where the entry is too long.
pub fn leaf<C: Compression>(c: &C, input: u8, entry: &[u8]) -> Result<C::Value, Refusal>
    ensures { result_map_both C.Value.Words.bytes (λ (e : TheRefusal). e) result ≡ leaf_answer (from_zeros C.Value.Words.width C.Compression.f) input entry.now }
{
    must(entry.len() <= LONGEST_ENTRY, Refusal::TooLong { input })?;
    if entry.len() < 64 {
        Ok(leaf_digest(c, entry, &mut [0; 64]))
    } else {
        Ok(leaf_digest(c, entry, &mut [0; LONGEST_ENTRY + 1]))
    }
}

// The same by way of a buffer in which the message is put together.
fn leaf_digest<C: Compression>(c: &C, entry: &[u8], message: &mut [u8]) -> C::Value
    requires { length entry.now < length message.old }
    ensures { C.Value.Words.bytes result ≡ leaf_digest (from_zeros C.Value.Words.width C.Compression.f) entry.now }
{
    let end = 1 + entry.len();
    leaf_message(entry, message);
    digest(c, &message[0..end])
}

// Writes the message of the leaf over an entry at the front of a buffer, if there is room for all of it.
pub fn leaf_message(entry: &[u8], into: &mut [u8])
    ensures { into.new ≡ stored 0 (leaf_message entry.now) into.old }
{
    if into.len() <= entry.len() {
        return;
    }
    into[0] = 0;
    into[1..1 + entry.len()].copy_from_slice(entry);
}
