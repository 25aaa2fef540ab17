// The collision behind two paths of one leaf, or two links of the same sizes, that rebuild one root.
ghost use Rattle.std.specs.Prelude.{◌≡◌, ℕ, ◌≤◌, List, length};
ghost use Rattle.std.specs.Option.{option_map};
ghost use Rattle.hash.specs.Hash.{from_zeros};
ghost use Rattle.hash.specs.Collisions.{inputs_apart};
ghost use Rattle.tree.specs.Digests.{leaf_message};
ghost use Rattle.tree.specs.Entries.{longest_entry};
ghost use Rattle.paths.specs.Parts.{node_of};
ghost use Rattle.record.specs.Views.{collision_of};
ghost use Rattle.conflict.specs.Pairs.{proofs_pair, links_pair};

use crate::inputs::inputs_apart;
use cipher::words::Words;
use hash::compress::Compression;
use paths::apart::{Apart, link_apart, path_apart};
use record::collisions::Collision;
use tree::digests::{LONGEST_ENTRY, LONGEST_NODE, leaf, leaf_message, node_message};
use tree::spans::Span;

// The collision behind two entries with paths of leaf `i` among `n`, if there is one: of the messages nearest the root that
// differ, the first pair of inputs, counted from the end, that differs.
pub fn proofs_apart<C: Compression>(
    c: &C,
    i: usize,
    n: usize,
    entry: &[u8],
    path: &[u8],
    other_entry: &[u8],
    other_path: &[u8],
    spans: &mut [Span],
) -> Option<Collision<C::Value>>
    ensures { option_map (collision_of C.Value.Words.bytes) result ≡ proofs_pair (from_zeros C.Value.Words.width C.Compression.f) i n (length spans.old) entry.now path.now other_entry.now other_path.now }
{
    let first = leaf(c, 0, entry).ok()?;
    let second = leaf(c, 0, other_entry).ok()?;
    match path_apart(c, i, n, first, path, second, other_path, spans)? {
        Some(apart) => nodes_apart(c, apart),
        None if entry != other_entry => leaves_apart(c, entry, other_entry),
        None => None,
    }
}

// The collision behind two old roots with links from `m` to `n` leaves, if there is one, by the messages of the new root.
pub fn links_apart<C: Compression>(
    c: &C,
    m: usize,
    n: usize,
    old: C::Value,
    link: &[u8],
    other_old: C::Value,
    other_link: &[u8],
    spans: &mut [Span],
) -> Option<Collision<C::Value>>
    ensures { option_map (collision_of C.Value.Words.bytes) result ≡ links_pair (from_zeros C.Value.Words.width C.Compression.f) m n (length spans.old) (C.Value.Words.bytes old) link.now (C.Value.Words.bytes other_old) other_link.now }
{
    let apart = link_apart(c, m, n, old, link, other_old, other_link, spans)??;
    nodes_apart(c, apart)
}

// The collision behind the messages of the leaves over two entries.
fn leaves_apart<C: Compression>(c: &C, entry: &[u8], other: &[u8]) -> Option<Collision<C::Value>>
    requires first { length entry.now ≤ longest_entry }
    requires second { length other.now ≤ longest_entry }
    ensures { option_map (collision_of C.Value.Words.bytes) result ≡ inputs_apart (from_zeros C.Value.Words.width C.Compression.f) (leaf_message entry.now) (leaf_message other.now) }
{
    let mut first = [0; LONGEST_ENTRY + 1];
    let mut second = [0; LONGEST_ENTRY + 1];
    leaf_message(entry, &mut first);
    leaf_message(other, &mut second);
    inputs_apart(c, &first[0..1 + entry.len()], &second[0..1 + other.len()])
}

// The collision behind the messages of two nodes.
fn nodes_apart<C: Compression>(c: &C, apart: Apart<C::Value>) -> Option<Collision<C::Value>>
    ensures { option_map (collision_of C.Value.Words.bytes) result ≡ inputs_apart (from_zeros C.Value.Words.width C.Compression.f) (node_of C.Value.Words.bytes apart.first) (node_of C.Value.Words.bytes apart.second) }
{
    let width = C::Value::size();
    let node = apart.first;
    let other = apart.second;
    let mut first = [0; LONGEST_NODE];
    let mut second = [0; LONGEST_NODE];
    node_message(node.left, node.right, &mut first);
    node_message(other.left, other.right, &mut second);
    inputs_apart(
        c,
        &first[0..1 + width + width],
        &second[0..1 + width + width],
    )
}
