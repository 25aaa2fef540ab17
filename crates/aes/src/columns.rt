// The state as four columns, each kept as a word, the top byte the lowest.
ghost use Rattle.std.specs.Prelude.{◌≡◌, ◌≤◌};
ghost use Rattle.cipher.specs.Bytes.{little, xors};
ghost use Rattle.cipher.specs.Blocks.{block_bytes};
ghost use Rattle.aes.specs.Aes.{sub_bytes, shift_rows, mix_columns, round_key, rounds};
ghost use Rattle.aes.specs.Columns.{state_of, shifted_column, mixed_column};

use crate::sbox::{spread, sub};
use crate::words::load_word;
use cipher::words::Block;

#[derive(Clone, Copy)]
pub(crate) struct Columns {
    a: u32,
    b: u32,
    c: u32,
    d: u32,
}

// One column after S and the rotation of the rows, from the four columns that its bytes come from.
pub(crate) fn shifted(a: u32, b: u32, c: u32, d: u32) -> u32
    ensures { little 4 result ≡ shifted_column a b c d }
{
    u32::from_le_bytes([
        sub(a.to_le_bytes()[0]),
        sub(b.to_le_bytes()[1]),
        sub(c.to_le_bytes()[2]),
        sub(d.to_le_bytes()[3]),
    ])
}

// The same, mixed.
fn mixed(a: u32, b: u32, c: u32, d: u32) -> u32
    ensures { little 4 result ≡ mixed_column (shifted_column a b c d) }
{
    spread(a.to_le_bytes()[0])
        ^ spread(b.to_le_bytes()[1]).rotate_left(8)
        ^ spread(c.to_le_bytes()[2]).rotate_left(16)
        ^ spread(d.to_le_bytes()[3]).rotate_left(24)
}

impl Columns {
    // Halves of words, by arithmetic: by way of the block's bytes there would be a line more for each column.
    pub(crate) fn new(block: Block) -> Columns
        ensures { state_of result ≡ block_bytes block }
    {
        Columns {
            a: (block.lo % 4294967296) as u32,
            b: (block.lo / 4294967296) as u32,
            c: (block.hi % 4294967296) as u32,
            d: (block.hi / 4294967296) as u32,
        }
    }

    pub(crate) fn block(self) -> Block
        ensures { block_bytes result ≡ state_of self }
    {
        Block {
            lo: self.a as u64 + self.b as u64 * 4294967296,
            hi: self.c as u64 + self.d as u64 * 4294967296,
        }
    }

    // A round before its key is added.
    pub(crate) fn mixed_round(self) -> Columns
        ensures { state_of result ≡ mix_columns (shift_rows (sub_bytes (state_of self))) }
    {
        Columns {
            a: mixed(self.a, self.b, self.c, self.d),
            b: mixed(self.b, self.c, self.d, self.a),
            c: mixed(self.c, self.d, self.a, self.b),
            d: mixed(self.d, self.a, self.b, self.c),
        }
    }

    // The last round, before its key is added.
    pub(crate) fn last_round(self) -> Columns
        ensures { state_of result ≡ shift_rows (sub_bytes (state_of self)) }
    {
        Columns {
            a: shifted(self.a, self.b, self.c, self.d),
            b: shifted(self.b, self.c, self.d, self.a),
            c: shifted(self.c, self.d, self.a, self.b),
            d: shifted(self.d, self.a, self.b, self.c),
        }
    }

    // Xors round key `j` onto the state.
    pub(crate) fn add(self, keys: &[u8; 176], j: usize) -> Columns
        requires { j ≤ 10 }
        ensures { state_of result ≡ xors (state_of self) (round_key keys.now j) }
    {
        let at = 16 * j;
        Columns {
            a: self.a ^ load_word(keys, at),
            b: self.b ^ load_word(keys, at + 4),
            c: self.c ^ load_word(keys, at + 8),
            d: self.d ^ load_word(keys, at + 12),
        }
    }

    // Every round but the last.
    pub(crate) fn nine_rounds(self, keys: &[u8; 176]) -> Columns
        ensures { state_of result ≡ rounds keys.now (state_of self) 9 }
    {
        let mut s = self;
        for j in 1..10 {
            s = s.mixed_round().add(keys, j);
        }
        s
    }
}
