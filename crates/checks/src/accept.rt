// Whether a proof or a link that was read is accepted; `site` is its own, for a refusal. A proof is held against one root and a link
// against two, so that one function for both would be no shorter.
ghost use Rattle.std.specs.Prelude.{◌≡◌, ℕ, ◌&&◌, List, length, ◌==◌};
ghost use Rattle.hash.specs.Hash.{from_zeros};
ghost use Rattle.paths.specs.Rebuilds.{path_root, link_roots};
ghost use Rattle.refusal.specs.Refusals.{must};
ghost use Rattle.refusal.specs.declared.Refusal.TheVariants.{WrongRoot};
ghost use Rattle.checks.specs.Rebuilding.{root_is, roots_are};

use cipher::words::Words;
use hash::compress::Compression;
use paths::rebuild::{rebuild_link, rebuild_path};
use record::heads::Head;
use record::records::{Link, Proof};
use refusal::{Refusal, Site, must};
use tree::spans::Span;

// Whether a link's sizes are those of two heads.
pub fn joins<D: Copy>(old: Head<D>, new: Head<D>, link: Link<'_>) -> bool
    ensures { result ≡ (link.entry.old == old.size && link.entry.new == new.size) }
{
    link.old == old.size() && link.new == new.size()
}

// The proof's path has to rebuild the head's root over the digest of a leaf.
pub fn proven<C: Compression>(
    c: &C,
    head: Head<C::Value>,
    leaf: C::Value,
    proof: Proof<'_>,
    site: Site,
    spans: &mut [Span],
) -> Result<(), Refusal>
    ensures { result ≡ must (root_is (path_root (from_zeros C.Value.Words.width C.Compression.f) proof.entry.index proof.entry.size (length spans.old) (C.Value.Words.bytes leaf) proof.entry.path.now) (C.Value.Words.bytes head.root)) (WrongRoot site) }
{
    let root = rebuild_path(
        c,
        proof.index as usize,
        proof.size as usize,
        leaf,
        proof.path,
        spans,
    );
    must(root == Some(head.root()), Refusal::WrongRoot(site))
}

// The link has to rebuild the roots of both heads.
pub fn linked<C: Compression>(
    c: &C,
    old: Head<C::Value>,
    new: Head<C::Value>,
    link: Link<'_>,
    site: Site,
    spans: &mut [Span],
) -> Result<(), Refusal>
    ensures { result ≡ must (roots_are (link_roots (from_zeros C.Value.Words.width C.Compression.f) link.entry.old link.entry.new (length spans.old) (C.Value.Words.bytes old.root) link.entry.digests.now) (C.Value.Words.bytes old.root) (C.Value.Words.bytes new.root)) (WrongRoot site) }
{
    let roots = rebuild_link(
        c,
        link.old as usize,
        link.new as usize,
        old.root(),
        link.digests,
        spans,
    );
    must(
        roots.is_some_and(|roots| roots.old == old.root() && roots.new == new.root()),
        Refusal::WrongRoot(site),
    )
}
