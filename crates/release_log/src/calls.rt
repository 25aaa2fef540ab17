// What a log does.
ghost use Rattle.std.specs.Prelude.{◌≡◌, ℕ, min, List, length, ◌==◌};
ghost use Rattle.hash.specs.Hash.{from_zeros};
ghost use Rattle.refusal.specs.Refusals.{given};
ghost use Rattle.refusal.specs.declared.Refusal.TheVariants.{MadeOverLeaves};
ghost use Rattle.release_log.specs.Buffers.{length_of, output_after};
ghost use Rattle.release_log.specs.Logs.{append_answer, head_answer, prove_answer, link_answer, log_after, file_after};
ghost use Rattle.record.specs.Kinds.{number_of};
ghost use Rattle.release_log.specs.Ways.{way_kind, way_answer};
ghost use Rattle.release_log.specs.States.{state_of};

use crate::Log;
use crate::buffers::{enough, fits};
use cipher::words::Words;
use hash::compress::Compression;
use paths::write::way_into;
use record::heads::Head;
use record::kinds::Kind;
use record::sizes::{entry_len, head_len};
use record::write::{write_entry, write_head, write_header};
use refusal::{Refusal, must};
use roots::range::{Subtree, range_root};
use store::Store;
use tree::digests::leaf;
use tree::leaves::Leaves;
use tree::spans::Span;
use tree::ways::Way;

impl<C: Compression, S: Store + Leaves<Item = C::Value>> Log<S, C> {
    // A log over a store. If the store has leaves, the log only passes on the store's questions.
    pub fn new(store: S, compression: C) -> Log<S, C>
        ensures state { state_of S.Leaves.items S.Store.space result ≡ record { opened = (length (S.Leaves.items store) == 0); leaves = S.Leaves.items store; room = S.Store.space store; used = 0 } }
    {
        let used = (store.count() == 0).then_some(0);
        Log {
            store,
            compression,
            used,
        }
    }

    // Adds an entry: its record to the entry file, and its leaf to the store, or neither. Returns the leaf's index.
    pub fn append(&mut self, entry: &[u8], file: &mut [u8]) -> Result<usize, Refusal>
        ensures answer { result ≡ append_answer (from_zeros C.Value.Words.width C.Compression.f) (state_of S.Leaves.items S.Store.space self.old) (length file.old) entry.now }
        ensures state { state_of S.Leaves.items S.Store.space self.new ≡ log_after (from_zeros C.Value.Words.width C.Compression.f) (state_of S.Leaves.items S.Store.space self.old) entry.now (append_answer (from_zeros C.Value.Words.width C.Compression.f) (state_of S.Leaves.items S.Store.space self.old) (length file.old) entry.now) }
        ensures file { file.new ≡ file_after (from_zeros C.Value.Words.width C.Compression.f) (state_of S.Leaves.items S.Store.space self.old) entry.now (append_answer (from_zeros C.Value.Words.width C.Compression.f) (state_of S.Leaves.items S.Store.space self.old) (length file.old) entry.now) file.old }
    {
        let used = self.open()?;
        let digest = leaf(&self.compression, 1, entry)?;
        let len = entry_len(entry.len());
        must(len <= file.len().saturating_sub(used), Refusal::FileFull)?;
        let i = self.store.append(digest)?;
        write_entry(entry, file, used);
        self.used = Some(used + len);
        Ok(i)
    }

    // Writes the head over the first `n` leaves at the front of the output, and says how long it is.
    pub fn head(
        &self,
        n: u32,
        cells: &mut [Subtree<C::Value>],
        out: &mut [u8],
    ) -> Result<usize, Refusal>
        ensures answer { result ≡ length_of (head_answer (from_zeros C.Value.Words.width C.Compression.f) (state_of S.Leaves.items S.Store.space self.now) (length cells.old) (length out.old) n) }
        ensures output { out.new ≡ output_after (head_answer (from_zeros C.Value.Words.width C.Compression.f) (state_of S.Leaves.items S.Store.space self.now) (length cells.old) (length out.old) n) out.old }
    {
        self.open()?;
        enough(cells.len())?;
        let root = range_root(&self.compression, &self.store, 0, n as usize, cells).ok_or(
            Refusal::ImpossibleRequest,
        )?;
        let head = Head::new(n, root).ok_or(Refusal::ImpossibleRequest)?;
        let len = head_len::<C::Value>();
        fits(len, out.len())?;
        write_head(head, out, 0);
        Ok(len)
    }

    // Writes the proof of leaf `i` among the first `n` at the front of the output, and says how long it is.
    pub fn prove(
        &self,
        i: u32,
        n: u32,
        spans: &mut [Span],
        cells: &mut [Subtree<C::Value>],
        out: &mut [u8],
    ) -> Result<usize, Refusal>
        ensures answer { result ≡ length_of (prove_answer (from_zeros C.Value.Words.width C.Compression.f) (state_of S.Leaves.items S.Store.space self.now) (min (length spans.old) (length cells.old)) (length out.old) i n) }
        ensures output { out.new ≡ output_after (prove_answer (from_zeros C.Value.Words.width C.Compression.f) (state_of S.Leaves.items S.Store.space self.now) (min (length spans.old) (length cells.old)) (length out.old) i n) out.old }
    {
        let way = Way::ToLeaf {
            index: i as usize,
            size: n as usize,
        };
        self.write(way, spans, cells, out)
    }

    // Writes the link from the first `m` leaves to the first `n` at the front of the output, and says how long it is.
    pub fn link(
        &self,
        m: u32,
        n: u32,
        spans: &mut [Span],
        cells: &mut [Subtree<C::Value>],
        out: &mut [u8],
    ) -> Result<usize, Refusal>
        ensures answer { result ≡ length_of (link_answer (from_zeros C.Value.Words.width C.Compression.f) (state_of S.Leaves.items S.Store.space self.now) (min (length spans.old) (length cells.old)) (length out.old) m n) }
        ensures output { out.new ≡ output_after (link_answer (from_zeros C.Value.Words.width C.Compression.f) (state_of S.Leaves.items S.Store.space self.now) (min (length spans.old) (length cells.old)) (length out.old) m n) out.old }
    {
        let way = Way::ToEnd {
            old: m as usize,
            new: n as usize,
        };
        self.write(way, spans, cells, out)
    }

    // Writes the proof or the link of a way at the front of the output, and says how long it is.
    fn write(
        &self,
        way: Way,
        spans: &mut [Span],
        cells: &mut [Subtree<C::Value>],
        out: &mut [u8],
    ) -> Result<usize, Refusal>
        ensures answer { result ≡ length_of (way_answer (from_zeros C.Value.Words.width C.Compression.f) (state_of S.Leaves.items S.Store.space self.now) (min (length spans.old) (length cells.old)) (length out.old) way) }
        ensures output { out.new ≡ output_after (way_answer (from_zeros C.Value.Words.width C.Compression.f) (state_of S.Leaves.items S.Store.space self.now) (min (length spans.old) (length cells.old)) (length out.old) way) out.old }
    {
        self.open()?;
        enough(spans.len().min(cells.len()))?;
        let Some(digests) = way.len() else {
            return Err(Refusal::ImpossibleRequest);
        };
        if way.leaves() > self.store.count() {
            return Err(Refusal::ImpossibleRequest);
        }
        let payload = 8 + C::Value::size() * digests;
        fits(4 + payload, out.len())?;
        write_header(kind_of(way), payload as u16, out, 0);
        let _ = way_into(
            &self.compression,
            &self.store,
            way,
            spans,
            cells,
            &mut out[4..],
        );
        Ok(4 + payload)
    }

    // How many bytes of the entry file are used, if the log is opened.
    fn open(&self) -> Result<usize, Refusal>
        ensures { result ≡ given self.now.used MadeOverLeaves }
    {
        self.used.ok_or(Refusal::MadeOverLeaves)
    }
}

// The kind of the record that is written for a way.
fn kind_of(way: Way) -> Kind
    ensures { number_of result ≡ way_kind way }
{
    match way {
        Way::ToLeaf { .. } => Kind::Proof,
        Way::ToEnd { .. } => Kind::Link,
    }
}
