// Digests that lie one after another.
ghost use Rattle.std.specs.Prelude.{◌≡◌, ◌*◌, cond, length, ◌==◌, Some, None};
ghost use Rattle.std.specs.Option.{option_map};
ghost use Rattle.hash.specs.Hash.{cut};
ghost use Rattle.paths.specs.Ranges.{digests_in};

use cipher::words::Words;
use std::marker::PhantomData;

// The digests in some bytes, from the front on.
#[derive(Drop)]
pub(crate) struct Digests<'a, D> {
    bytes: &'a [u8],
    of: PhantomData<D>,
}

impl<'a, D: Words> Digests<'a, D> {
    // Those of bytes that are exactly `count` digests.
    pub(crate) fn exactly(count: usize, bytes: &'a [u8]) -> Option<Digests<'a, D>>
        ensures { option_map (λ d. digests_in D.Words.width d.bytes.now) result ≡ cond (length bytes.now == D.Words.width * count) (Some (cut D.Words.width count bytes.now)) None }
    {
        if D::size().checked_mul(count) != Some(bytes.len()) {
            return None;
        }
        Some(Digests {
            bytes,
            of: PhantomData,
        })
    }
}

impl<'a, D: Words> Iterator for Digests<'a, D> {
    ghost use Rattle.std.specs.Iterator.{YieldsFirstBy, item_count};

    type Item = D;

    ghost next_gives = { YieldsFirstBy D.Words.bytes (λ d. digests_in D.Words.width d.bytes.now) };

    ghost remaining = { item_count (λ d. digests_in D.Words.width d.bytes.now) };

    fn next(&mut self) -> Option<D> {
        let digest = D::load(self.bytes, 0)?;
        self.bytes = &self.bytes[D::size()..];
        Some(digest)
    }
}
