// Check of a link. It reads two heads where the check of a proof reads an entry and one head, so each is written out.
ghost use Rattle.std.specs.Prelude.{◌≡◌, ℕ, List, length};
ghost use Rattle.hash.specs.Hash.{from_zeros};
ghost use Rattle.checks.specs.Checks.{check_link_answer};
ghost use Rattle.checks.specs.Laws.{LinksPass};

use crate::accept::{joins, linked};
use crate::laws::links_pass;
use cipher::words::Words;
use hash::compress::Compression;
use record::single::{read_head, read_link};
use refusal::{Refusal, Site, must};
use release_log::buffers::enough;
use tree::spans::Span;

// That a log of an old head grew to a new one. A link that a log wrote passes between its heads.
pub fn check_link<C: Compression>(
    c: &C,
    old: &[u8],
    new: &[u8],
    link: &[u8],
    spans: &mut [Span],
) -> Result<(), Refusal>
    ensures answer { result ≡ check_link_answer (from_zeros C.Value.Words.width C.Compression.f) (length spans.old) old.now new.now link.now }
    ensures passes { LinksPass (from_zeros C.Value.Words.width C.Compression.f) }
{
    links_pass::<C>();
    checked(c, old, new, link, spans)
}

fn checked<C: Compression>(
    c: &C,
    old: &[u8],
    new: &[u8],
    link: &[u8],
    spans: &mut [Span],
) -> Result<(), Refusal>
    ensures { result ≡ check_link_answer (from_zeros C.Value.Words.width C.Compression.f) (length spans.old) old.now new.now link.now }
{
    enough(spans.len())?;
    let old = read_head::<C::Value>(1, old)?;
    let new = read_head::<C::Value>(2, new)?;
    let link = read_link::<C::Value>(3, link)?;
    let site = Site::start_of(3);
    must(joins(old, new, link), Refusal::OtherNumbers(site))?;
    linked(c, old, new, link, site, spans)
}
