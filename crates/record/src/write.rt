// Writing records: each is written at a place if there is room for all of it, and otherwise nothing is. They are functions of their
// own, since each kind has other parts, and no code writes a record of any kind.
ghost use Rattle.std.specs.Prelude.{◌≡◌, ◌+◌, ◌*◌, ◌<◌, ◌≤◌, ◌++◌, length, nat_le};
ghost use Rattle.cipher.specs.Bytes.{little, stored};
ghost use Rattle.tree.specs.Entries.{longest_entry};
ghost use Rattle.record.specs.Records.{spelled, leaf, head, entry, collision};
ghost use Rattle.record.specs.Kinds.{number_of};
ghost use Rattle.record.specs.Views.{head_of, input_of};

use crate::collisions::{BLOCK_LEN, Collision, Input};
use crate::frame::HEADER_LEN;
use crate::heads::Head;
use crate::kinds::Kind;
use crate::sizes::{collision_len, entry_len, head_len, leaf_len};
use cipher::words::{Words, put};
use tree::digests::LONGEST_ENTRY;

// Whether so many bytes fit in at a place.
fn has_room(into: &[u8], at: usize, len: usize) -> bool
    ensures { result ≡ nat_le (at + len) (length into.now) }
{
    at <= into.len() && len <= into.len() - at
}

// Writes a number of a payload.
#[tactic(auto, unfolding(cipher::specs::Bytes::little))]
pub fn write_number(n: u32, into: &mut [u8], at: usize)
    ensures { into.new ≡ stored at (little 4 n) into.old }
{
    put(&n.to_le_bytes(), into, at);
}

// Writes what stands before a payload of some length.
#[tactic(auto, unfolding(cipher::specs::Bytes::little))]
pub fn write_header(kind: Kind, len: u16, into: &mut [u8], at: usize)
    ensures { into.new ≡ stored at (little 2 len ++ little 2 (number_of kind)) into.old }
{
    let len = len.to_le_bytes();
    let kind = u16::from(kind).to_le_bytes();
    put(&[len[0], len[1], kind[0], kind[1]], into, at);
}

#[tactic(auto, using(crate::proofs::Writing::no_room))]
pub fn write_leaf<D: Words>(digest: D, into: &mut [u8], at: usize)
    ensures { into.new ≡ stored at (spelled (leaf (D.Words.bytes digest))) into.old }
{
    if has_room(into, at, leaf_len::<D>()) {
        write_header(Kind::Leaf, D::size() as u16, into, at);
        digest.store(into, at + HEADER_LEN);
    }
}

pub fn write_head<D: Words>(h: Head<D>, into: &mut [u8], at: usize)
    ensures { into.new ≡ stored at (spelled (head (head_of D.Words.bytes h))) into.old }
{
    if has_room(into, at, head_len::<D>()) {
        write_header(Kind::Head, 4 + D::size() as u16, into, at);
        write_number(h.size(), into, at + HEADER_LEN);
        h.root().store(into, at + HEADER_LEN + 4);
    }
}

// Writes an entry, unless it is longer than an entry may be.
#[tactic(auto, using(crate::proofs::Writing::no_room))]
pub fn write_entry(bytes: &[u8], into: &mut [u8], at: usize)
    ensures fits { length bytes.now ≤ longest_entry → into.new ≡ stored at (spelled (entry bytes.now)) into.old }
    ensures long { longest_entry < length bytes.now → into.new ≡ into.old }
{
    let len = bytes.len();
    if len <= LONGEST_ENTRY && has_room(into, at, entry_len(len)) {
        write_header(Kind::Entry, len as u16, into, at);
        put(bytes, into, at + HEADER_LEN);
    }
}

// Writes one input of a collision, for which there is room.
fn write_input<D: Words>(x: Input<D>, into: &mut [u8], at: usize)
    requires { at + (D.Words.width + 16) ≤ length into.old }
    ensures { into.new ≡ stored at ((input_of D.Words.bytes x).0 ++ (input_of D.Words.bytes x).1) into.old }
{
    x.h.store(into, at);
    x.m.store(into, at + D::size());
}

pub fn write_collision<D: Words>(c: Collision<D>, into: &mut [u8], at: usize)
    ensures { into.new ≡ stored at (spelled (collision (input_of D.Words.bytes c.first) (input_of D.Words.bytes c.second))) into.old }
{
    if has_room(into, at, collision_len::<D>()) {
        let len = D::size() + BLOCK_LEN;
        write_header(Kind::Collision, 2 * len as u16, into, at);
        write_input(c.first, into, at + HEADER_LEN);
        write_input(c.second, into, at + HEADER_LEN + len);
    }
}
