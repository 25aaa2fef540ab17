// Inputs that are a single record of one kind; `number` is the input's, for a refusal.
ghost use Rattle.std.specs.Prelude.{◌≡◌, Option, length, IfSome, IfOk, Some};
ghost use Rattle.std.specs.Option.{option_map};
ghost use Rattle.std.specs.Result.{result_map_both};
ghost use Rattle.refusal.specs.declared.Refusal.{Refusal as TheRefusal};
ghost use Rattle.record.specs.Records.{read_one, head_in, proof_in, link_in, collision_in, WellFormed};
ghost use Rattle.record.specs.Records as records;
ghost use Rattle.hash.specs.Collisions as collisions;
ghost use Rattle.record.specs.Views.{record_of, proof_of, link_of, head_of, input_in, input_of, collision_of, Whole, WholeDigests};

use crate::collisions::{Collision, Input};
use crate::heads::Head;
use crate::reader::Reader;
use crate::records::{InputBytes, Link, Proof, Record};
use cipher::words::{Block, Words};
use refusal::{Refusal, Site, must};

// What is read from records of one kind, with what it says in the words of the definitions. `whole` holds of what was read.
trait Single<'a, D: Words>: Copy {
    ghost Says: { Type 0 };

    ghost says: { Self → Says };

    ghost wanted: { records.Record → Option Says };

    ghost whole: { Self → Type 0 };

    // What the record says, if it is of that kind.
    fn of(read: Record<'a>) -> Option<Self>
        ensures says { WellFormed D.Words.width (record_of D.Words.width read.entry) → option_map says result ≡ wanted (record_of D.Words.width read.entry) }
        ensures whole { Whole D.Words.width read.entry → IfSome result whole };
}

impl<'a, D: Words> Single<'a, D> for Head<D> {
    ghost Says = { records.Head };

    ghost says = { head_of D.Words.bytes };

    ghost wanted = { head_in };

    ghost whole = { λ _. Unit {0} };

    fn of(read: Record<'a>) -> Option<Head<D>> {
        let Record::Head { size, root } = read else {
            return None;
        };
        Head::new(size, D::load(root, 0)?)
    }
}

impl<'a, D: Words> Single<'a, D> for Proof<'a> {
    ghost Says = { records.Proof };

    ghost says = { proof_of D.Words.width };

    ghost wanted = { proof_in };

    ghost whole = { λ p. WholeDigests D.Words.width p.path.now };

    fn of(read: Record<'a>) -> Option<Proof<'a>> {
        let Record::Proof(proof) = read else {
            return None;
        };
        Some(proof)
    }
}

impl<'a, D: Words> Single<'a, D> for Link<'a> {
    ghost Says = { records.Link };

    ghost says = { link_of D.Words.width };

    ghost wanted = { link_in };

    ghost whole = { λ l. WholeDigests D.Words.width l.digests.now };

    fn of(read: Record<'a>) -> Option<Link<'a>> {
        let Record::Link(link) = read else {
            return None;
        };
        Some(link)
    }
}

impl<'a, D: Words> Single<'a, D> for Collision<D> {
    ghost Says = { collisions.Input × collisions.Input };

    ghost says = { collision_of D.Words.bytes };

    ghost wanted = { collision_in };

    ghost whole = { λ _. Unit {0} };

    fn of(read: Record<'a>) -> Option<Collision<D>> {
        let Record::Collision { first, second } = read else {
            return None;
        };
        Some(Collision {
            first: input_of(first)?,
            second: input_of(second)?,
        })
    }
}

// An input of the compression, if its parts have their lengths.
fn input_of<D: Words>(parts: InputBytes<'_>) -> Option<Input<D>>
    ensures { (length parts.entry.h.now ≡ D.Words.width) → (length parts.entry.m.now ≡ 16) → option_map (input_of D.Words.bytes) result ≡ Some (input_in parts.entry) }
{
    Some(Input {
        h: D::load(parts.h, 0)?,
        m: Block::load(parts.m, 0)?,
    })
}

// Input `number` as a single record of the kind that `T` is read from.
fn read_one<'a, D: Words, T: Single<'a, D>>(number: u8, bytes: &'a [u8]) -> Result<T, Refusal>
    ensures answer { result_map_both T.says (λ (e : TheRefusal). e) result ≡ read_one D.Words.width number T.wanted bytes.now }
    ensures whole { IfOk result T.whole }
{
    let site = Site::start_of(number);
    let mut reader = Reader::new(number, bytes);
    let found = T::of(reader.next::<D>()?).ok_or(Refusal::UnwantedKind(site))?;
    must(reader.is_at_end(), Refusal::BytesAfter(site))?;
    Ok(found)
}

pub fn read_head<D: Words>(number: u8, bytes: &[u8]) -> Result<Head<D>, Refusal>
    ensures { result_map_both (head_of D.Words.bytes) (λ (e : TheRefusal). e) result ≡ read_one D.Words.width number head_in bytes.now }
{
    read_one::<D, Head<D>>(number, bytes)
}

pub fn read_proof<'a, D: Words>(number: u8, bytes: &'a [u8]) -> Result<Proof<'a>, Refusal>
    ensures answer { result_map_both (proof_of D.Words.width) (λ (e : TheRefusal). e) result ≡ read_one D.Words.width number proof_in bytes.now }
    ensures whole { IfOk result (λ p. WholeDigests D.Words.width p.path.now) }
{
    read_one::<D, Proof<'a>>(number, bytes)
}

pub fn read_link<'a, D: Words>(number: u8, bytes: &'a [u8]) -> Result<Link<'a>, Refusal>
    ensures answer { result_map_both (link_of D.Words.width) (λ (e : TheRefusal). e) result ≡ read_one D.Words.width number link_in bytes.now }
    ensures whole { IfOk result (λ l. WholeDigests D.Words.width l.digests.now) }
{
    read_one::<D, Link<'a>>(number, bytes)
}

pub fn read_collision<D: Words>(number: u8, bytes: &[u8]) -> Result<Collision<D>, Refusal>
    ensures { result_map_both (collision_of D.Words.bytes) (λ (e : TheRefusal). e) result ≡ read_one D.Words.width number collision_in bytes.now }
{
    read_one::<D, Collision<D>>(number, bytes)
}
