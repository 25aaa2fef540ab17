// Paths and links written from the leaves.
ghost use Rattle.std.specs.Prelude.{◌≡◌, ℕ, ◌+◌, ◌≤◌, true, List, length, if◌then◌else◌};
ghost use Rattle.cipher.specs.Bytes.{little, written};
ghost use Rattle.hash.specs.Hash.{from_zeros};
ghost use Rattle.tree.specs.Ways.{in_way};
ghost use Rattle.paths.specs.Payloads.{way_numbers, way_payload, way_size, way_fits, wrote};

use crate::beside::beside;
use cipher::words::{Words, put};
use hash::compress::Compression;
use roots::range::{CELLS, Subtree, range_root};
use tree::leaves::Leaves;
use tree::spans::Span;
use tree::ways::Way;

fn store_number(n: u32, into: &mut [u8], at: usize)
    requires { at + 4 ≤ length into.old }
    ensures { into.new ≡ written at (little 4 n) into.old }
{
    put(&n.to_le_bytes(), into, at);
}

// The numbers with which the payload of a way begins: the index and the size, or the two sizes.
fn numbers(way: Way) -> (u32, u32)
    requires { in_way way ≡ true }
    ensures { result ≡ way_numbers way }
{
    match way {
        Way::ToLeaf { index, size } => (index as u32, size as u32),
        Way::ToEnd { old, new } => (old as u32, new as u32),
    }
}

// Writes the payload of the path or the link of a way at the front of the output, and says how long it is. The two kinds of cells
// are lent apart, since other calls are lent one kind alone.
pub fn way_into<C: Compression, L: Leaves<Item = C::Value>>(
    c: &C,
    leaves: &L,
    way: Way,
    spans: &mut [Span],
    cells: &mut [Subtree<C::Value>],
    out: &mut [u8],
) -> Option<usize>
    ensures size { result ≡ wrote (way_fits C.Value.Words.width way (length (L.Leaves.items leaves.now)) (length spans.old) (length cells.old) (length out.old)) (way_size C.Value.Words.width way) }
    ensures bytes { out.new ≡ (if way_fits C.Value.Words.width way (length (L.Leaves.items leaves.now)) (length spans.old) (length cells.old) (length out.old) then written 0 (way_payload (from_zeros C.Value.Words.width C.Compression.f) (L.Leaves.items leaves.now) way) out.old else out.old) }
{
    if way.leaves() > leaves.count() || cells.len() < CELLS {
        return None;
    }
    let width = C::Value::size();
    let ranges = beside(way, spans)?;
    let size = 8 + width * ranges.len();
    if out.len() < size {
        return None;
    }
    let (first, second) = numbers(way);
    store_number(first, out, 0);
    store_number(second, out, 4);
    for (k, range) in ranges.enumerate() {
        let digest = range_root(c, leaves, range.from, range.to, cells)?;
        digest.store(out, 8 + k * width);
    }
    Some(size)
}
