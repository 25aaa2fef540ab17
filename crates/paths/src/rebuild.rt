// Roots rebuilt from the digests of a path or a link.
ghost use Rattle.std.specs.Prelude.{◌≡◌, length};
ghost use Rattle.std.specs.Option.{option_map};
ghost use Rattle.hash.specs.Hash.{from_zeros};
ghost use Rattle.paths.specs.Climbs.{joined, joined_old};
ghost use Rattle.paths.specs.Rebuilds.{path_root, link_roots, root_bytes};

use crate::beside::beside;
use crate::digests::Digests;
use cipher::words::Words;
use hash::compress::Compression;
use tree::digests::node;
use tree::spans::Span;
use tree::ways::{Side, Way};

// The two roots that a link rebuilds.
#[derive(Clone, Copy, PartialEq, Eq, Debug, Default)]
pub struct Roots<D> {
    pub old: D,
    pub new: D,
}

// The digest one step up a way, by the side at which the way goes by a range and the range's own digest.
fn join<C: Compression>(c: &C, side: Side, digest: C::Value, beside: C::Value) -> C::Value
    ensures { C.Value.Words.bytes result ≡ joined (from_zeros C.Value.Words.width C.Compression.f) side (C.Value.Words.bytes digest) (C.Value.Words.bytes beside) }
{
    match side {
        Side::Low => node(c, digest, beside),
        Side::High => node(c, beside, digest),
        Side::Through => beside,
    }
}

// The same for the old root, into which only what stands at the low side enters. One function for both would take a flag.
fn join_old<C: Compression>(c: &C, side: Side, digest: C::Value, beside: C::Value) -> C::Value
    ensures { C.Value.Words.bytes result ≡ joined_old (from_zeros C.Value.Words.width C.Compression.f) side (C.Value.Words.bytes digest) (C.Value.Words.bytes beside) }
{
    match side {
        Side::Low => digest,
        Side::High => node(c, beside, digest),
        Side::Through => beside,
    }
}

// The root that the path of leaf `i` among `n` rebuilds over the leaf's digest, if it has as many digests as these numbers fix.
pub fn rebuild_path<C: Compression>(
    c: &C,
    i: usize,
    n: usize,
    digest: C::Value,
    path: &[u8],
    cells: &mut [Span],
) -> Option<C::Value>
    ensures { option_map C.Value.Words.bytes result ≡ path_root (from_zeros C.Value.Words.width C.Compression.f) i n (length cells.old) (C.Value.Words.bytes digest) path.now }
{
    let way = Way::ToLeaf { index: i, size: n };
    let spans = beside(way, cells)?;
    let digests = Digests::<C::Value>::exactly(spans.len(), path)?;
    let mut root = digest;
    for (span, beside) in spans.zip(digests) {
        root = join(c, way.side(span), root, beside);
    }
    Some(root)
}

// The roots that the link from `m` to `n` leaves rebuilds from the claimed old root, if it has as many digests as these numbers fix.
pub fn rebuild_link<C: Compression>(
    c: &C,
    m: usize,
    n: usize,
    old: C::Value,
    link: &[u8],
    cells: &mut [Span],
) -> Option<Roots<C::Value>>
    ensures { option_map (root_bytes C.Value.Words.bytes) result ≡ link_roots (from_zeros C.Value.Words.width C.Compression.f) m n (length cells.old) (C.Value.Words.bytes old) link.now }
{
    let way = Way::ToEnd { old: m, new: n };
    let spans = beside(way, cells)?;
    let digests = Digests::<C::Value>::exactly(spans.len(), link)?;
    let mut roots = Roots { old, new: old };
    for (span, beside) in spans.zip(digests) {
        let side = way.side(span);
        roots = Roots {
            old: join_old(c, side, roots.old, beside),
            new: join(c, side, roots.new, beside),
        };
    }
    Some(roots)
}
