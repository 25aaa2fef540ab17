// Two links from old heads of one size to one new head.
ghost use Rattle.std.specs.Prelude.{◌≡◌, ℕ, ◌&&◌, List, length, IfOk, ◌==◌};
ghost use Rattle.std.specs.Result.{result_map_both};
ghost use Rattle.hash.specs.Hash.{from_zeros};
ghost use Rattle.release_log.specs.Buffers.{length_of, output_after};
ghost use Rattle.refusal.specs.declared.Refusal.{Refusal as TheRefusal};
ghost use Rattle.record.specs.Views.{WholeDigests};
ghost use Rattle.conflict.specs.Two.{two_links_of, roots_of_links};
ghost use Rattle.conflict.specs.Conflicts.{two_links, conflict_links_answer};
ghost use Rattle.conflict.specs.Laws.{LinksExact, LinksWritten};

use crate::laws::{links_exact, links_written};
use crate::papers::links_apart;
use crate::two::TwoLinks;
use crate::write::write_pair;
use checks::accept::{joins, linked};
use cipher::words::Words;
use hash::compress::Compression;
use record::heads::Head;
use record::records::Link;
use record::single::{read_head, read_link};
use refusal::{Refusal, Site, must};
use release_log::buffers::enough;
use tree::spans::Span;

// Writes the collision behind two old heads of one size with links to one new head at the front of the output, and says how long it
// is. Equal old heads with equal links alone are refused as equal; what is written passes the check of collisions.
pub fn conflict_links<C: Compression>(
    c: &C,
    old: &[u8],
    link: &[u8],
    other_old: &[u8],
    other_link: &[u8],
    new: &[u8],
    spans: &mut [Span],
    out: &mut [u8],
) -> Result<usize, Refusal>
    ensures answer { result ≡ length_of (conflict_links_answer (from_zeros C.Value.Words.width C.Compression.f) (length spans.old) (length out.old) old.now link.now other_old.now other_link.now new.now) }
    ensures output { out.new ≡ output_after (conflict_links_answer (from_zeros C.Value.Words.width C.Compression.f) (length spans.old) (length out.old) old.now link.now other_old.now other_link.now new.now) out.old }
    ensures exact { LinksExact (from_zeros C.Value.Words.width C.Compression.f) }
    ensures written { LinksWritten (from_zeros C.Value.Words.width C.Compression.f) }
{
    links_exact::<C>();
    links_written::<C>();
    found(c, old, link, other_old, other_link, new, spans, out)
}

fn found<C: Compression>(
    c: &C,
    old: &[u8],
    link: &[u8],
    other_old: &[u8],
    other_link: &[u8],
    new: &[u8],
    spans: &mut [Span],
    out: &mut [u8],
) -> Result<usize, Refusal>
    ensures answer { result ≡ length_of (conflict_links_answer (from_zeros C.Value.Words.width C.Compression.f) (length spans.old) (length out.old) old.now link.now other_old.now other_link.now new.now) }
    ensures output { out.new ≡ output_after (conflict_links_answer (from_zeros C.Value.Words.width C.Compression.f) (length spans.old) (length out.old) old.now link.now other_old.now other_link.now new.now) out.old }
{
    let two = accepted(c, old, link, other_old, other_link, new, spans)?;
    must((old, link) != (other_old, other_link), Refusal::EqualPapers)?;
    let l = two.first;
    let k = two.second;
    let pair = links_apart(
        c,
        l.old as usize,
        l.new as usize,
        two.old,
        l.digests,
        two.other_old,
        k.digests,
        spans,
    )
    .ok_or(Refusal::EqualPapers)?;
    write_pair(pair, out)
}

// The two links with their old roots, if both are accepted between the same sizes.
fn accepted<'a, 'b, C: Compression>(
    c: &C,
    old: &[u8],
    link: &'a [u8],
    other_old: &[u8],
    other_link: &'b [u8],
    new: &[u8],
    spans: &mut [Span],
) -> Result<TwoLinks<'a, 'b, C::Value>, Refusal>
    ensures answer { result_map_both (two_links_of C.Value.Words.width C.Value.Words.bytes) (λ (e : TheRefusal). e) result ≡ roots_of_links (two_links (from_zeros C.Value.Words.width C.Compression.f) (length spans.old) old.now link.now other_old.now other_link.now new.now) }
    ensures whole { IfOk result (λ t. WholeDigests C.Value.Words.width t.first.digests.now × WholeDigests C.Value.Words.width t.second.digests.now) }
{
    enough(spans.len())?;
    let g = read_head::<C::Value>(1, old)?;
    let first = read_link::<C::Value>(2, link)?;
    let k = read_head::<C::Value>(3, other_old)?;
    let second = read_link::<C::Value>(4, other_link)?;
    let h = read_head::<C::Value>(5, new)?;
    must(joins(g, h, first), Refusal::OtherNumbers(Site::start_of(2)))?;
    must(
        joins_too(k, h, first, second),
        Refusal::OtherNumbers(Site::start_of(4)),
    )?;
    linked(c, g, h, first, Site::start_of(2), spans)?;
    linked(c, k, h, second, Site::start_of(4), spans)?;
    Ok(TwoLinks {
        old: g.root(),
        first,
        other_old: k.root(),
        second,
    })
}

// Whether the second link's sizes are those of two heads, and its old size that of the first link.
fn joins_too<D: Copy>(old: Head<D>, new: Head<D>, first: Link<'_>, second: Link<'_>) -> bool
    ensures { result ≡ ((second.entry.old == old.size && second.entry.new == new.size) && second.entry.old == first.entry.old) }
{
    joins(old, new, second) && second.old == first.old
}
