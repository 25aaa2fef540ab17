// The interface of a compression, and the compressions.
ghost use Rattle.std.specs.Prelude.{◌≡◌, ℕ, List, length};
ghost use Rattle.cipher.specs.Bytes.{xors};
ghost use Rattle.cipher.specs.Blocks.{block_bytes};
ghost use Rattle.cipher.proofs.Littles.{length_xors};

use cipher::Cipher;
use cipher::words::{Block, Words};

// Its whole meaning is the output that it gives for each chaining value and block. Contracts write the hash over it out as
// `from_zeros width f`: a member for that would be stated again by each `impl`, and tied to `f` again in each proof.
pub trait Compression {
    type Value: Words;

    // f(h, m), over byte lists.
    ghost f: { List ℕ → List ℕ → List ℕ };

    fn compress(&self, h: Self::Value, m: Block) -> Self::Value
        ensures { Self.Value.Words.bytes result ≡ f (Self.Value.Words.bytes h) (block_bytes m) };

    // An output is a chaining value.
    ghost outputs: { (h m : List ℕ) → length h ≡ Self.Value.Words.width → length m ≡ 16 → length (f h m) ≡ Self.Value.Words.width };
}

// h xor m, for tests.
#[derive(Clone, Copy)]
pub struct Fold;

impl Compression for Fold {
    type Value = Block;

    ghost f = { xors };

    ghost outputs = { λ h m p q. length_xors h m 16 p q };

    fn compress(&self, h: Block, m: Block) -> Block {
        h.xor(m)
    }
}

// E(m, h) xor h
#[derive(Clone, Copy)]
pub struct DaviesMeyer<E> {
    pub cipher: E,
}

impl<E: Cipher<Key = Block>> Compression for DaviesMeyer<E> {
    type Value = Block;

    ghost f = { λ h m. xors (E.Cipher.e m h) h };

    ghost outputs = { λ h m p q. length_xors (E.Cipher.e m h) h 16 (E.Cipher.outputs m h q p) p };

    fn compress(&self, h: Block, m: Block) -> Block {
        self.cipher.encrypt(m, h).xor(h)
    }
}

// E(h, m) xor m
#[derive(Clone, Copy)]
pub struct MatyasMeyerOseas<E> {
    pub cipher: E,
}

impl<E: Cipher<Key = Block>> Compression for MatyasMeyerOseas<E> {
    type Value = Block;

    ghost f = { λ h m. xors (E.Cipher.e h m) m };

    ghost outputs = { λ h m p q. length_xors (E.Cipher.e h m) m 16 (E.Cipher.outputs h m p q) q };

    fn compress(&self, h: Block, m: Block) -> Block {
        self.cipher.encrypt(h, m).xor(m)
    }
}

// E(h, m) xor m xor h
#[derive(Clone, Copy)]
pub struct MiyaguchiPreneel<E> {
    pub cipher: E,
}

impl<E: Cipher<Key = Block>> Compression for MiyaguchiPreneel<E> {
    type Value = Block;

    ghost f = { λ h m. xors (xors (E.Cipher.e h m) m) h };

    ghost outputs = { λ h m p q.
        let out = E.Cipher.e h m in
        length_xors (xors out m) h 16 (length_xors out m 16 (E.Cipher.outputs h m p q) q) p };

    fn compress(&self, h: Block, m: Block) -> Block {
        let out = self.cipher.encrypt(h, m);
        out.xor(m).xor(h)
    }
}
