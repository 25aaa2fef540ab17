// What a payload says.
ghost use Rattle.std.specs.Prelude.{◌≡◌, ◌+◌, ◌≤◌, true, length, take, drop, IfOk};
ghost use Rattle.std.specs.Result.{result_map_both};
ghost use Rattle.refusal.specs.declared.Refusal.{Refusal as TheRefusal};
ghost use Rattle.cipher.specs.Bytes.{number};
ghost use Rattle.record.specs.Records.{numbers_fit};
ghost use Rattle.record.specs.Kinds.{row_of};
ghost use Rattle.record.specs.Views.{record_of, input_in, parsed, Whole};

use crate::collisions::BLOCK_LEN;
use crate::kinds::Kind;
use crate::records::{InputBytes, Link, Proof, Record};
use cipher::words::{Words, bytes_at};
use refusal::{Refusal, Site, must};
use tree::spans::{LARGEST, link_len, path_len};

// The number of four bytes at a place.
fn number_at(bytes: &[u8], at: usize) -> u32
    requires { at + 4 ≤ length bytes.now }
    ensures { result ≡ number (take 4 (drop at bytes.now)) }
{
    u32::from_le_bytes(bytes_at(bytes, at).unwrap())
}

// A chaining value and the block behind it.
fn input_in<'a, D: Words>(bytes: &'a [u8]) -> InputBytes<'a>
    requires { D.Words.width ≤ length bytes.now }
    ensures { input_in result ≡ (take D.Words.width bytes.now, drop D.Words.width bytes.now) }
{
    let (h, m) = bytes.split_at(D::size());
    InputBytes { h, m }
}

// The record of a collision's payload.
#[tactic(auto, using(crate::proofs::Taken::collision_in_is))]
fn collision_in<'a, D: Words>(payload: &'a [u8]) -> Record<'a>
    requires { (row_of D.Words.width Kind.Collision).0 (length payload.now) ≡ true }
    ensures { record_of D.Words.width result ≡ (row_of D.Words.width Kind.Collision).1 payload.now }
{
    let (first, second) = payload.split_at(D::size() + BLOCK_LEN);
    Record::Collision {
        first: input_in::<D>(first),
        second: input_in::<D>(second),
    }
}

// The record of a kind and a payload of a possible length.
#[tactic(auto, using(crate::proofs::Taken::head_in_is, crate::proofs::Taken::proof_in_is, crate::proofs::Taken::link_in_is, crate::proofs::Taken::whole_rows))]
fn record_in<'a, D: Words>(kind: Kind, payload: &'a [u8]) -> Record<'a>
    requires { (row_of D.Words.width kind).0 (length payload.now) ≡ true }
    ensures says { record_of D.Words.width result ≡ (row_of D.Words.width kind).1 payload.now }
    ensures whole { Whole D.Words.width result }
{
    match kind {
        Kind::Leaf => Record::Leaf { digest: payload },
        Kind::Head => Record::Head {
            size: number_at(payload, 0),
            root: &payload[4..],
        },
        Kind::Proof => Record::Proof(Proof {
            index: number_at(payload, 0),
            size: number_at(payload, 4),
            path: &payload[8..],
        }),
        Kind::Link => Record::Link(Link {
            old: number_at(payload, 0),
            new: number_at(payload, 4),
            digests: &payload[8..],
        }),
        Kind::Entry => Record::Entry(payload),
        Kind::Collision => collision_in::<D>(payload),
    }
}

// Whether a record's numbers are possible, and fix as many digests as it has.
#[tactic(auto, using(crate::proofs::Counted::proof_counted, crate::proofs::Counted::link_counted))]
fn numbers_fit<D: Words>(r: Record<'_>) -> bool
    ensures { result ≡ numbers_fit (record_of D.Words.width r.entry) }
{
    match r {
        Record::Head { size, root: _ } => size >= 1 && size as usize <= LARGEST,
        Record::Proof(p) => {
            path_len(p.index as usize, p.size as usize) == Some(p.path.len() / D::size())
        }
        Record::Link(l) => {
            link_len(l.old as usize, l.new as usize) == Some(l.digests.len() / D::size())
        }
        Record::Leaf { digest: _ }
        | Record::Entry(_)
        | Record::Collision {
            first: _,
            second: _,
        } => true,
    }
}

// The record of a kind and a payload.
pub(crate) fn parse<'a, D: Words>(
    kind: Kind,
    payload: &'a [u8],
    site: Site,
) -> Result<Record<'a>, Refusal>
    ensures answer { result_map_both (record_of D.Words.width) (λ (e : TheRefusal). e) result ≡ parsed site (row_of D.Words.width kind) payload.now }
    ensures whole { IfOk result (Whole D.Words.width) }
{
    must(
        kind.takes::<D>(payload.len()),
        Refusal::ImpossibleLength(site),
    )?;
    let read = record_in::<D>(kind, payload);
    must(numbers_fit::<D>(read), Refusal::ImpossibleNumbers(site))?;
    Ok(read)
}
