// Two proofs of one index under one head.
ghost use Rattle.std.specs.Prelude.{◌≡◌, ℕ, ◌&&◌, List, length, IfOk, ◌==◌};
ghost use Rattle.std.specs.Result.{result_map_both};
ghost use Rattle.hash.specs.Hash.{from_zeros};
ghost use Rattle.release_log.specs.Buffers.{length_of, output_after};
ghost use Rattle.refusal.specs.declared.Refusal.{Refusal as TheRefusal};
ghost use Rattle.record.specs.Views.{WholeDigests};
ghost use Rattle.conflict.specs.Two.{two_proofs_of};
ghost use Rattle.conflict.specs.Conflicts.{two_proofs, conflict_proofs_answer};
ghost use Rattle.conflict.specs.Laws.{ProofsExact, ProofsWritten};

use crate::laws::{proofs_exact, proofs_written};
use crate::papers::proofs_apart;
use crate::two::TwoProofs;
use crate::write::write_pair;
use checks::accept::proven;
use cipher::words::Words;
use hash::compress::Compression;
use record::records::Proof;
use record::single::{read_head, read_proof};
use refusal::{Refusal, Site, must};
use release_log::buffers::enough;
use tree::digests::leaf;
use tree::spans::Span;

// Writes the collision behind two entries with proofs of one index under one head at the front of the output, and says how long it
// is. Equal entries with equal proofs alone are refused as equal; what is written passes the check of collisions.
pub fn conflict_proofs<C: Compression>(
    c: &C,
    head: &[u8],
    entry: &[u8],
    proof: &[u8],
    other_entry: &[u8],
    other_proof: &[u8],
    spans: &mut [Span],
    out: &mut [u8],
) -> Result<usize, Refusal>
    ensures answer { result ≡ length_of (conflict_proofs_answer (from_zeros C.Value.Words.width C.Compression.f) (length spans.old) (length out.old) head.now entry.now proof.now other_entry.now other_proof.now) }
    ensures output { out.new ≡ output_after (conflict_proofs_answer (from_zeros C.Value.Words.width C.Compression.f) (length spans.old) (length out.old) head.now entry.now proof.now other_entry.now other_proof.now) out.old }
    ensures exact { ProofsExact (from_zeros C.Value.Words.width C.Compression.f) }
    ensures written { ProofsWritten (from_zeros C.Value.Words.width C.Compression.f) }
{
    proofs_exact::<C>();
    proofs_written::<C>();
    found(c, head, entry, proof, other_entry, other_proof, spans, out)
}

fn found<C: Compression>(
    c: &C,
    head: &[u8],
    entry: &[u8],
    proof: &[u8],
    other_entry: &[u8],
    other_proof: &[u8],
    spans: &mut [Span],
    out: &mut [u8],
) -> Result<usize, Refusal>
    ensures answer { result ≡ length_of (conflict_proofs_answer (from_zeros C.Value.Words.width C.Compression.f) (length spans.old) (length out.old) head.now entry.now proof.now other_entry.now other_proof.now) }
    ensures output { out.new ≡ output_after (conflict_proofs_answer (from_zeros C.Value.Words.width C.Compression.f) (length spans.old) (length out.old) head.now entry.now proof.now other_entry.now other_proof.now) out.old }
{
    let two = accepted(c, head, entry, proof, other_entry, other_proof, spans)?;
    must(
        (entry, proof) != (other_entry, other_proof),
        Refusal::EqualPapers,
    )?;
    let p = two.first;
    let q = two.second;
    let pair = proofs_apart(
        c,
        p.index as usize,
        p.size as usize,
        entry,
        p.path,
        other_entry,
        q.path,
        spans,
    )
    .ok_or(Refusal::EqualPapers)?;
    write_pair(pair, out)
}

// The two proofs, if both are accepted for one index.
fn accepted<'a, 'b, C: Compression>(
    c: &C,
    head: &[u8],
    entry: &[u8],
    proof: &'a [u8],
    other_entry: &[u8],
    other_proof: &'b [u8],
    spans: &mut [Span],
) -> Result<TwoProofs<'a, 'b>, Refusal>
    ensures answer { result_map_both (two_proofs_of C.Value.Words.width) (λ (e : TheRefusal). e) result ≡ two_proofs (from_zeros C.Value.Words.width C.Compression.f) (length spans.old) head.now entry.now proof.now other_entry.now other_proof.now }
    ensures whole { IfOk result (λ t. WholeDigests C.Value.Words.width t.first.path.now × WholeDigests C.Value.Words.width t.second.path.now) }
{
    enough(spans.len())?;
    let h = read_head::<C::Value>(1, head)?;
    let x = leaf(c, 2, entry)?;
    let first = read_proof::<C::Value>(3, proof)?;
    let y = leaf(c, 4, other_entry)?;
    let second = read_proof::<C::Value>(5, other_proof)?;
    must(
        first.size == h.size(),
        Refusal::OtherNumbers(Site::start_of(3)),
    )?;
    must(
        same_leaf(first, second, h.size()),
        Refusal::OtherNumbers(Site::start_of(5)),
    )?;
    proven(c, h, x, first, Site::start_of(3), spans)?;
    proven(c, h, y, second, Site::start_of(5), spans)?;
    Ok(TwoProofs { first, second })
}

// Whether a proof is of this size and of the other's index.
fn same_leaf(first: Proof<'_>, second: Proof<'_>, size: u32) -> bool
    ensures { result ≡ (second.entry.size == size && second.entry.index == first.entry.index) }
{
    second.size == size && second.index == first.index
}
