// Byte strings of a fixed length, kept as words.
ghost use Rattle.std.specs.Prelude.{◌≡◌, ℕ, ◌≤◌, ◌==◌, List, length, replicate};
ghost use Rattle.std.proofs.Math.Path.{refl};
ghost use Rattle.std.specs.Option.{option_map};
ghost use Rattle.std.specs.Str.{bytes_eq};
ghost use Rattle.cipher.specs.Bytes.{little, xors, piece, written, stored};
ghost use Rattle.cipher.specs.Blocks.{block_bytes};
ghost use Rattle.std.proofs.Common.{rules};
ghost use Rattle.std.specs.Cmp.Rules.{comparing};
ghost use Rattle.std.specs.Ordering.{on};
ghost use Rattle.std.specs.Cmp.Lexicographic.{pointwise};

// A key, a chaining value, a digest: a byte string whose length its type fixes. Two are equal where their bytes are, and the
// default is all zeros.
pub trait Words: Copy + Eq + Default {
    // How many bytes there are.
    ghost width: { ℕ };

    ghost bytes: { Self → List ℕ };

    fn size() -> usize
        ensures { result ≡ width };

    // The bytes from a place on, if they are all there.
    fn load(from: &[u8], at: usize) -> Option<Self>
        ensures { option_map bytes result ≡ piece at width from.now };

    // Writes the bytes from a place on, if there is room for all of them, and nothing otherwise.
    fn store(self, into: &mut [u8], at: usize)
        ensures { into.new ≡ stored at (bytes self) into.old };

    ghost sized: { (d : Self) → length (bytes d) ≡ width };

    ghost least: { 1 ≤ width };

    ghost most: { width ≤ 32 };

    ghost equals: { (x y : Self) → Self.eq x y ≡ bytes_eq (bytes x) (bytes y) };

    ghost zeros: { (d : Self) → Self.is_default d → bytes d ≡ replicate width 0 };
}

// The `N` bytes from a place on, if they are all there.
pub fn bytes_at<const N: usize>(from: &[u8], at: usize) -> Option<[u8; N]>
    ensures { result ≡ piece at N from.now }
{
    from.get(at..)?.first_chunk().copied()
}

// Writes bytes from a place on, if there is room for all of them, and nothing otherwise.
pub fn put(bytes: &[u8], into: &mut [u8], at: usize)
    ensures { into.new ≡ stored at bytes.now into.old }
{
    if at <= into.len() && bytes.len() <= into.len() - at {
        into[at..at + bytes.len()].copy_from_slice(bytes);
    }
}

// Sixteen bytes: bytes 0 to 7 are `lo` and 8 to 15 are `hi`, each with its lowest byte first.
#[derive(Clone, Copy, Default, Debug)]
pub struct Block {
    pub lo: u64,
    pub hi: u64,
}

impl Block {
    pub fn xor(self, other: Block) -> Block
        ensures { block_bytes result ≡ xors (block_bytes self) (block_bytes other) }
    {
        Block {
            lo: self.lo ^ other.lo,
            hi: self.hi ^ other.hi,
        }
    }
}

// A derived equality would be of the words as numbers of any size, of which equal bytes do not make equal words.
impl PartialEq for Block {
    ghost eq = { on block_bytes (pointwise ◌==◌) };

    ghost laws = { Prim.search (comparing, rules) };

    fn eq(&self, other: &Block) -> bool {
        self.lo == other.lo && self.hi == other.hi
    }
}

impl Eq for Block {
    ghost laws = { Prim.search (comparing, rules) };
}

impl Words for Block {
    ghost width = { 16 };

    ghost bytes = { block_bytes };

    ghost sized = { unfold little in λ d. refl };

    ghost least = { Prim.search rules };

    ghost most = { Prim.search rules };

    ghost equals = { λ x y. refl };

    ghost zeros = { unfold little in Prim.search rules };

    fn size() -> usize {
        16
    }

    fn load(from: &[u8], at: usize) -> Option<Block> {
        let bytes: [u8; 16] = bytes_at(from, at)?;
        Some(Block {
            lo: u64::from_le_bytes(*bytes.first_chunk()?),
            hi: u64::from_le_bytes(*bytes.last_chunk()?),
        })
    }

    fn store(self, into: &mut [u8], at: usize) {
        let mut bytes = [0; 16];
        bytes[..8].copy_from_slice(&self.lo.to_le_bytes());
        bytes[8..].copy_from_slice(&self.hi.to_le_bytes());
        put(&bytes, into, at);
    }
}
