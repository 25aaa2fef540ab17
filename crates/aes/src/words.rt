// Words of four bytes, the first the lowest.
ghost use Rattle.std.specs.Prelude.{◌≡◌, ◌+◌, ◌≤◌, length, take, drop};
ghost use Rattle.cipher.specs.Bytes.{little, written};

use cipher::words::bytes_at;

pub(crate) fn load_word(from: &[u8], at: usize) -> u32
    requires { at + 4 ≤ length from.now }
    ensures { little 4 result ≡ take 4 (drop at from.now) }
{
    u32::from_le_bytes(bytes_at(from, at).unwrap())
}

// A write of its own, since the shared `put` and a copy written out in the loop both cost seven instructions more a word.
pub(crate) fn store_word(w: u32, into: &mut [u8], at: usize)
    requires { at + 4 ≤ length into.old }
    ensures { into.new ≡ written at (little 4 w) into.old }
{
    into[at..at + 4].copy_from_slice(&w.to_le_bytes());
}
