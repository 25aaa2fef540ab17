// A log that is filled up to the last leaf that a tree can have, under Davies-Meyer over Speck128/128.
use crate::{tell, tell_refusal};
use cipher::words::{Block, Words};
use hash::compress::DaviesMeyer;
use hash::digest::digest;
use hexadecimal::Hex;
use record::single::{read_head, read_link, read_proof};
use record::write::write_number;
use refusal::Refusal;
use release_log::Log;
use roots::range::{CELLS, Subtree};
use speck::Speck128;
use store::Store;
use store::table::Table;
use tree::leaves::Leaves;
use tree::spans::{LARGEST, Span};

pub type TableLog<'a> = Log<Table<'a, Block>, DaviesMeyer<Speck128>>;

pub const SPECK: DaviesMeyer<Speck128> = DaviesMeyer { cipher: Speck128 };

pub const ZERO: Block = Block { lo: 0, hi: 0 };

// An entry is its number in four bytes, and its record four more.
const ENTRY: usize = 4;

const ENTRY_RECORD: usize = 8;

const DIGEST: usize = 16;

// A digest, and behind it room for a record of any kind that a log writes.
const SEEN: usize = 528;

// What a call is lent, and the digest over the records so far. `speed` has a struct with these fields: in a crate for both, each
// of its calls would want a contract and a proof that no program needs.
#[derive(Drop)]
pub struct Lent {
    pub spans: [Span; CELLS],
    pub cells: [Subtree<Block>; CELLS],
    pub seen: [u8; SEEN],
}

impl Lent {
    pub fn new() -> Lent {
        Lent {
            spans: [Span::default(); CELLS],
            cells: [Subtree::default(); CELLS],
            seen: [0; SEEN],
        }
    }

    // Makes a call, reads the record that it wrote, and writes the digest over the digest so far and the record in place of
    // the former.
    fn take_in<F, G>(&mut self, call: F, read: G) -> Result<(), Refusal>
    where
        F: FnOnce(&mut [Span], &mut [Subtree<Block>], &mut [u8]) -> Result<usize, Refusal>,
        G: FnOnce(&[u8]) -> Result<(), Refusal>,
        requires call { F.IsAlwaysCallable call }
        requires read { G.IsAlwaysCallable read }
    {
        let len = call(&mut self.spans, &mut self.cells, &mut self.seen[DIGEST..])?;
        let end = DIGEST + len.min(SEEN - DIGEST);
        read(&self.seen[DIGEST..end])?;
        digest(&SPECK, &self.seen[0..end]).store(&mut self.seen, 0);
        Ok(())
    }

    fn head(&mut self, log: &TableLog<'_>, n: u32) -> Result<(), Refusal> {
        self.take_in(
            |_, cells, out| log.head(n, cells, out),
            |bytes| {
                read_head::<Block>(1, bytes)?;
                Ok(())
            },
        )
    }

    fn proof(&mut self, log: &TableLog<'_>, i: u32, n: u32) -> Result<(), Refusal> {
        self.take_in(
            |spans, cells, out| log.prove(i, n, spans, cells, out),
            |bytes| {
                read_proof::<Block>(1, bytes)?;
                Ok(())
            },
        )
    }

    fn link(&mut self, log: &TableLog<'_>, m: u32, n: u32) -> Result<(), Refusal> {
        self.take_in(
            |spans, cells, out| log.link(m, n, spans, cells, out),
            |bytes| {
                read_link::<Block>(1, bytes)?;
                Ok(())
            },
        )
    }
}

// The digest over the head of a size, the proofs of its first and last leaf, and the links from half of it and from one leaf
// less. Each record is read back.
fn over_records(lent: &mut Lent, log: &TableLog<'_>, n: u32) -> Result<(), Refusal> {
    lent.head(log, n)?;
    lent.proof(log, 0, n)?;
    lent.proof(log, n.saturating_sub(1), n)?;
    lent.link(log, (n / 2).max(1), n)?;
    lent.link(log, n.saturating_sub(1).max(1), n)
}

fn show_size(rt: &HostRuntime, log: &TableLog<'_>, n: u32) -> anyhow::Result<()> {
    let what = format!(in rt.alloc(); "size {n}")?;
    let mut lent = Lent::new();
    match over_records(&mut lent, log, n) {
        Ok(()) => {
            println!(rt; "{what}: {}", Hex(&lent.seen[0..DIGEST]))?;
            Ok(())
        }
        Err(refusal) => tell_refusal(rt, what.as_str(), refusal),
    }
}

fn add(log: &mut TableLog<'_>, i: u32, file: &mut [u8]) -> Result<usize, Refusal> {
    let mut entry = [0u8; ENTRY];
    write_number(i, &mut entry, 0);
    log.append(&entry, file)
}

// Adds as many entries as a tree can have leaves, or as many as are taken.
fn fill(log: &mut TableLog<'_>, file: &mut [u8]) -> Result<(), Refusal> {
    for i in 0..LARGEST as u32 {
        add(log, i, file)?;
    }
    Ok(())
}

fn show_sizes(rt: &HostRuntime, log: &TableLog<'_>) -> anyhow::Result<()> {
    show_size(rt, log, 1)?;
    show_size(rt, log, 2)?;
    for k in 2..=20u32 {
        let power = 1u32 << k;
        for n in [power.saturating_sub(1), power, power.saturating_add(1)] {
            show_size(rt, log, n)?;
        }
    }
    Ok(())
}

pub fn tell_state(rt: &HostRuntime, log: &TableLog<'_>) -> anyhow::Result<()> {
    println!(rt;
        "count {} room {} used {}",
        log.count(),
        log.room(),
        log.used()
    )?;
    Ok(())
}

// One cell and room for one entry more than a log can have.
pub fn run(rt: &HostRuntime) -> anyhow::Result<()> {
    let mut cells = vec![in rt.alloc(); ZERO; LARGEST + 1]?;
    let mut file = vec![in rt.alloc(); 0; ENTRY_RECORD * (LARGEST + 1)]?;
    let mut log = Log::new(Table::new(cells.as_mut_slice()), SPECK);
    println!(rt; "room {}", log.room())?;
    tell(rt, "1048576 entries", fill(&mut log, file.as_mut_slice()))?;
    tell_state(rt, &log)?;
    tell(rt, "one more", add(&mut log, 0, file.as_mut_slice()))?;
    tell_state(rt, &log)?;
    show_sizes(rt, &log)
}
