// What an image does.
ghost use Rattle.std.specs.Prelude.{◌≡◌, ◌≤◌, [], length};
ghost use Rattle.tree.specs.Spans.{largest};
ghost use Rattle.store.specs.Stores.{append_answer, items_after, space_after, most_of};
ghost use Rattle.store.specs.LeafRecords.{record_at, places_in};
ghost use Rattle.store.specs.Images.{image_items, image_space, image_used, bytes_after, used_after};

use super::Image;
use crate::Store;
use crate::places::most;
use cipher::words::Words;
use record::sizes::leaf_len;
use record::write::write_leaf;
use refusal::{Refusal, must};
use std::marker::PhantomData;
use tree::leaves::Leaves;

// A record has so many bytes before its digest: the digest's length and the record's kind, two bytes each.
const HEAD: usize = 4;

// Where record `i` begins.
fn record_at<D: Words>(i: usize) -> usize
    requires { i ≤ largest }
    ensures { result ≡ record_at D.Words.width i }
{
    leaf_len::<D>() * i
}

impl<'a, D: Words> Image<'a, D> {
    // An empty image over these very bytes, so that whoever lent them knows them afterwards.
    pub fn new(bytes: &'a mut [u8]) -> Image<'a, D>
        ensures items { image_items result ≡ [] }
        ensures space { image_space result ≡ most_of (places_in D.Words.width bytes.old) }
        ensures used { image_used result ≡ [] }
        ensures bytes { result.bytes.now ≡ bytes.old }
        ensures lent { result.bytes.ghost_name ≡ bytes.entry.ghost_name }
    {
        Image {
            bytes,
            count: 0,
            digests: PhantomData,
        }
    }

    // The records of the digests.
    pub fn used(&self) -> &[u8]
        ensures { result.now ≡ image_used self.now }
    {
        &self.bytes[..record_at::<D>(self.count)]
    }

    fn places(&self) -> usize
        ensures { result ≡ places_in D.Words.width self.now.bytes.now }
    {
        self.bytes.len() / leaf_len::<D>()
    }
}

impl<'a, D: Words> Leaves for Image<'a, D> {
    type Item = D;

    ghost items = { image_items };

    #[tactic(auto, using(crate::proofs::LeafRecords::length_leaves, crate::proofs::LeafRecords::wide_leaves))]
    fn count(&self) -> usize {
        self.count
    }

    #[tactic(auto, using(crate::proofs::LeafRecords::leaf_at, crate::proofs::LeafRecords::leaf_past, crate::proofs::LeafRecords::record_fits))]
    fn leaf(&self, i: usize) -> Option<D> {
        if i >= self.count {
            return None;
        }
        D::load(self.bytes, record_at::<D>(i) + HEAD)
    }
}

impl<'a, D: Words> Store for Image<'a, D> {
    ghost space = { image_space };

    #[tactic(auto, using(crate::proofs::LeafRecords::length_leaves))]
    fn room(&self) -> usize {
        most(self.places()) - self.count
    }

    // It also promises what the lent bytes are afterwards, in all and as far as they are used.
    #[tactic(auto, using(crate::proofs::LeafRecords::length_leaves, crate::proofs::LeafRecords::leaves_after, crate::proofs::LeafRecords::bytes_after_are, crate::proofs::LeafRecords::records_after))]
    fn append(&mut self, digest: D) -> Result<usize, Refusal>
        ensures answer { result ≡ append_answer (length (image_items self.old)) (image_space self.old) }
        ensures items { image_items self.new ≡ items_after (image_items self.old) (image_space self.old) (D.Words.bytes digest) }
        ensures space { image_space self.new ≡ space_after (image_space self.old) }
        ensures bytes { self.new.bytes.now ≡ bytes_after self.old (D.Words.bytes digest) }
        ensures used { image_used self.new ≡ used_after self.old (D.Words.bytes digest) }
        ensures lent { self.new.bytes.ghost_name ≡ self.old.bytes.ghost_name }
    {
        must(self.room() > 0, Refusal::StoreFull)?;
        let at = self.count;
        write_leaf(digest, self.bytes, record_at::<D>(at));
        self.count += 1;
        Ok(at)
    }
}
