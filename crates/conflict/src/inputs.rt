// The inputs of the compression in the hashes of two messages, and where they part.
ghost use Rattle.std.specs.Prelude.{◌≡◌, ℕ, ◌+◌, ◌<◌, ◌≤◌, ◌&&◌, List, length, Some, None, MatchOption, ◌≢◌, nat_le};
ghost use Rattle.std.specs.Str.{bytes_eq};
ghost use Rattle.std.specs.List.{slice_get};
ghost use Rattle.std.specs.Option.{option_map};
ghost use Rattle.hash.specs.Hash.{blocks, from_zeros, value_before};
ghost use Rattle.hash.specs.Collisions.{inputs_apart};
ghost use Rattle.record.specs.Views.{input_of, collision_of};
ghost use Rattle.conflict.specs.Inputs.{inputs_of, both};

use cipher::words::Words;
use hash::compress::Compression;
use hash::digest::value_before;
use hash::padding::padded_block;
use record::collisions::{Collision, Input};

// The first pair of inputs of the compression, counted from the end, that differs in the hashes of two messages.
pub fn inputs_apart<C: Compression>(c: &C, x: &[u8], y: &[u8]) -> Option<Collision<C::Value>>
    ensures { option_map (collision_of C.Value.Words.bytes) result ≡ inputs_apart (from_zeros C.Value.Words.width C.Compression.f) x.now y.now }
{
    if x.len() != y.len() {
        return pair_at(c, x, last_block(x), y, last_block(y));
    }
    let k = parts_at(c, x, y)?;
    pair_at(c, x, k, y, k)
}

// The position of the last block of a padded message.
fn last_block(message: &[u8]) -> usize
    ensures { result + 1 ≡ length (blocks message.now) }
{
    let n = message.len();
    if n % 16 < 8 { n / 16 } else { n / 16 + 1 }
}

// The input at block `k` of a message, if there are so many.
fn input_at<C: Compression>(c: &C, message: &[u8], k: usize) -> Option<Input<C::Value>>
    ensures { option_map (input_of C.Value.Words.bytes) result ≡ slice_get (inputs_of (from_zeros C.Value.Words.width C.Compression.f) message.now) k }
{
    let m = padded_block(message, k)?;
    let h = value_before(c, message, k);
    Some(Input { h, m })
}

// The inputs at block `j` of one message and at block `k` of the other.
fn pair_at<C: Compression>(
    c: &C,
    x: &[u8],
    j: usize,
    y: &[u8],
    k: usize,
) -> Option<Collision<C::Value>>
    ensures { option_map (collision_of C.Value.Words.bytes) result ≡ both (slice_get (inputs_of (from_zeros C.Value.Words.width C.Compression.f) x.now) j) (slice_get (inputs_of (from_zeros C.Value.Words.width C.Compression.f) y.now) k) }
{
    let first = input_at(c, x, j)?;
    let second = input_at(c, y, k)?;
    Some(Collision { first, second })
}

// From which block on the chaining values of two messages of one length are the same. Their blocks are asked for by number: a pair of
// iterators, counted along, takes twice the time beside a compression that costs little.
fn same_from<C: Compression>(c: &C, x: &[u8], y: &[u8]) -> usize
    requires { length x.now ≡ length y.now }
    ensures few { result ≤ length (blocks x.now) }
    ensures same { (j : ℕ) → result ≤ j → j < length (blocks x.now) → value_before (from_zeros C.Value.Words.width C.Compression.f) x.now j ≡ value_before (from_zeros C.Value.Words.width C.Compression.f) y.now j }
    ensures apart { (j : ℕ) → result ≡ j + 1 → value_before (from_zeros C.Value.Words.width C.Compression.f) x.now j ≢ value_before (from_zeros C.Value.Words.width C.Compression.f) y.now j }
{
    let mut first = value_before(c, x, 0);
    let mut second = value_before(c, y, 0);
    let mut from = 0;
    for k in 0..last_block(x) + 1 {
        let Some(a) = padded_block(x, k) else {
            return from;
        };
        let Some(b) = padded_block(y, k) else {
            return from;
        };
        if first != second {
            from = k + 1;
        }
        first = c.compress(first, a);
        second = c.compress(second, b);
    }
    from
}

// Whether two messages have the same block `k`.
fn same_block(x: &[u8], y: &[u8], k: usize) -> bool
    ensures { (a b : List ℕ) → slice_get (blocks x.now) k ≡ Some a → slice_get (blocks y.now) k ≡ Some b → result ≡ bytes_eq a b }
{
    match (padded_block(x, k), padded_block(y, k)) {
        (Some(a), Some(b)) => a == b,
        _ => false,
    }
}

// Whether two messages have the same input at block `k`, if their chaining values are the same from block `from` on, and not
// before it.
fn same_at(x: &[u8], y: &[u8], from: usize, k: usize) -> bool
    ensures { (a b : List ℕ) → slice_get (blocks x.now) k ≡ Some a → slice_get (blocks y.now) k ≡ Some b → result ≡ (nat_le from k && bytes_eq a b) }
{
    k >= from && same_block(x, y, k)
}

// The last block at which the inputs of two messages of one length differ. One pass forward tells from which block on the
// chaining values are the same; the way back then compares blocks alone. It is a loop that breaks with the position, by a rule of
// this repository for where two messages part.
fn parts_at<C: Compression>(c: &C, x: &[u8], y: &[u8]) -> Option<usize>
    requires { length x.now ≡ length y.now }
    ensures { MatchOption result (inputs_apart (from_zeros C.Value.Words.width C.Compression.f) x.now y.now ≡ None) (λ k. inputs_apart (from_zeros C.Value.Words.width C.Compression.f) x.now y.now ≡ both (slice_get (inputs_of (from_zeros C.Value.Words.width C.Compression.f) x.now) k) (slice_get (inputs_of (from_zeros C.Value.Words.width C.Compression.f) y.now) k)) }
{
    let from = same_from(c, x, y);
    let mut k = last_block(x) + 1;
    let at = loop {
        if k == 0 {
            return None;
        }
        k -= 1;
        if !same_at(x, y, from, k) {
            break k;
        }
    };
    Some(at)
}
