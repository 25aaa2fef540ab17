// Check of a proof. It reads an entry and one head where the check of a link reads two heads, so each is written out.
ghost use Rattle.std.specs.Prelude.{◌≡◌, ℕ, List, length};
ghost use Rattle.hash.specs.Hash.{from_zeros};
ghost use Rattle.checks.specs.Checks.{check_proof_answer};
ghost use Rattle.checks.specs.Laws.{ProofsPass};

use crate::accept::proven;
use crate::laws::proofs_pass;
use cipher::words::Words;
use hash::compress::Compression;
use record::single::{read_head, read_proof};
use refusal::{Refusal, Site, must};
use release_log::buffers::enough;
use tree::digests::leaf;
use tree::spans::Span;

// That an entry stands where its proof says, among the leaves of a head. A proof that a log wrote passes under its heads.
pub fn check_proof<C: Compression>(
    c: &C,
    head: &[u8],
    entry: &[u8],
    proof: &[u8],
    spans: &mut [Span],
) -> Result<(), Refusal>
    ensures answer { result ≡ check_proof_answer (from_zeros C.Value.Words.width C.Compression.f) (length spans.old) head.now entry.now proof.now }
    ensures passes { ProofsPass (from_zeros C.Value.Words.width C.Compression.f) }
{
    proofs_pass::<C>();
    checked(c, head, entry, proof, spans)
}

fn checked<C: Compression>(
    c: &C,
    head: &[u8],
    entry: &[u8],
    proof: &[u8],
    spans: &mut [Span],
) -> Result<(), Refusal>
    ensures { result ≡ check_proof_answer (from_zeros C.Value.Words.width C.Compression.f) (length spans.old) head.now entry.now proof.now }
{
    enough(spans.len())?;
    let head = read_head::<C::Value>(1, head)?;
    let leaf = leaf(c, 2, entry)?;
    let proof = read_proof::<C::Value>(3, proof)?;
    let site = Site::start_of(3);
    must(proof.size == head.size(), Refusal::OtherNumbers(site))?;
    proven(c, head, leaf, proof, site, spans)
}
