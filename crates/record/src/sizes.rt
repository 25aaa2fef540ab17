// How many bytes a record takes.
ghost use Rattle.std.specs.Prelude.{◌≡◌, ◌+◌, ◌*◌, ◌≤◌, min, length};
ghost use Rattle.hash.specs.Collisions.{Bytes, Input as TheInput};
ghost use Rattle.tree.specs.Entries.{longest_entry};
ghost use Rattle.record.specs.Records.{Head as TheHead, leaf, head, entry, collision, spelled, Parts};

use crate::collisions::BLOCK_LEN;
use crate::frame::HEADER_LEN;
use cipher::words::Words;
use tree::digests::LONGEST_ENTRY;

#[tactic(auto, using(crate::proofs::Lengths::length_leaf))]
pub fn leaf_len<D: Words>() -> usize
    ensures value { result ≡ 4 + D.Words.width }
    ensures spells { (d : Bytes) → Parts D.Words.width (leaf d) → length (spelled (leaf d)) ≡ result }
{
    HEADER_LEN + D::size()
}

#[tactic(auto, using(crate::proofs::Lengths::length_head))]
pub fn head_len<D: Words>() -> usize
    ensures value { result ≡ 8 + D.Words.width }
    ensures spells { (h : TheHead) → Parts D.Words.width (head h) → length (spelled (head h)) ≡ result }
{
    HEADER_LEN + 4 + D::size()
}

// An entry of so many bytes, of which one that is longer than an entry may be counts as the longest.
#[tactic(auto, using(crate::proofs::Lengths::length_entry))]
pub fn entry_len(len: usize) -> usize
    ensures value { result ≡ 4 + min len longest_entry }
    ensures spells { (e : Bytes) → length e ≡ len → length e ≤ longest_entry → length (spelled (entry e)) ≡ result }
{
    HEADER_LEN + len.min(LONGEST_ENTRY)
}

#[tactic(auto, using(crate::proofs::Lengths::length_collision))]
pub fn collision_len<D: Words>() -> usize
    ensures value { result ≡ 4 + 2 * (D.Words.width + 16) }
    ensures spells { (x y : TheInput) → Parts D.Words.width (collision x y) → length (spelled (collision x y)) ≡ result }
{
    HEADER_LEN + 2 * (D::size() + BLOCK_LEN)
}
