// How fast a log over a table is under Davies-Meyer over Speck128/128, at three sizes: appends, heads, proofs and links.
use anyhow::anyhow;
use cipher::words::{Block, Words};
use hash::compress::DaviesMeyer;
use hash::digest::digest;
use hexadecimal::Hex;
use record::write::write_number;
use refusal::Refusal;
use release_log::Log;
use roots::range::{CELLS, Subtree};
use speck::Speck128;
use std::time::Instant;
use store::Store;
use store::table::Table;
use tree::spans::Span;

type TableLog<'a> = Log<Table<'a, Block>, DaviesMeyer<Speck128>>;

const SPECK: DaviesMeyer<Speck128> = DaviesMeyer { cipher: Speck128 };

const ZERO: Block = Block { lo: 0, hi: 0 };

// A log of some leaves is worked on so many turns, which makes about a million leaves in all.
#[derive(Clone, Copy)]
struct Size {
    leaves: u32,
    turns: u32,
}

const SIZES: [Size; 3] = [
    Size {
        leaves: 1_000,
        turns: 1_000,
    },
    Size {
        leaves: 30_000,
        turns: 33,
    },
    Size {
        leaves: 1_000_000,
        turns: 1,
    },
];

const MOST_LEAVES: usize = 1_000_000;

const ENTRY: usize = 39;

// An entry record has so many bytes before its entry.
const HEADER: usize = 4;

// No record that is asked for is longer.
const RECORD: usize = 512;

const DIGEST: usize = 16;

// A digest, and behind it a record.
const SEEN: usize = DIGEST + RECORD;

// What a log and its entry file are made over.
#[derive(Drop)]
struct Memory {
    cells: Vec<Block>,
    file: Vec<u8>,
}

// Appends an entry: its number in four bytes, and zeros.
fn add(log: &mut TableLog<'_>, i: u32, file: &mut [u8]) -> Result<(), Refusal> {
    let mut entry = [0u8; ENTRY];
    write_number(i, &mut entry, 0);
    log.append(&entry, file)?;
    Ok(())
}

fn fill(log: &mut TableLog<'_>, n: u32, file: &mut [u8]) -> Result<(), Refusal> {
    for i in 0..n {
        add(log, i, file)?;
    }
    Ok(())
}

// Fills a fresh log over the same memory again and again.
fn fill_again(memory: &mut Memory, size: Size) -> Result<(), Refusal> {
    for _ in 0..size.turns {
        let mut log = Log::new(Table::new(memory.cells.as_mut_slice()), SPECK);
        fill(&mut log, size.leaves, memory.file.as_mut_slice())?;
    }
    Ok(())
}

// What a call is lent, and the digest over the records so far. `edges` has a struct with these fields: in a crate for both, each
// of its calls would want a contract and a proof that no program needs.
#[derive(Drop)]
struct Lent {
    spans: [Span; CELLS],
    cells: [Subtree<Block>; CELLS],
    seen: [u8; SEEN],
}

impl Lent {
    fn new() -> Lent {
        Lent {
            spans: [Span::default(); CELLS],
            cells: [Subtree::default(); CELLS],
            seen: [0; SEEN],
        }
    }

    // Asks for a record about a leaf, and writes the digest over the digest so far and the record in place of the former, so
    // that no call can be left out.
    fn ask<F>(&mut self, call: &F, at: u32) -> Result<(), Refusal>
    where
        F: Fn(u32, &mut [Span], &mut [Subtree<Block>], &mut [u8]) -> Result<usize, Refusal>,
        requires { F.IsAlwaysCallable call.now }
    {
        let len = call(
            at,
            &mut self.spans,
            &mut self.cells,
            &mut self.seen[DIGEST..],
        )?;
        digest(&SPECK, &self.seen[0..DIGEST + len.min(RECORD)]).store(&mut self.seen, 0);
        Ok(())
    }

    // Makes a call again and again, each time about another leaf.
    fn ask_again<F>(&mut self, call: &F, size: Size) -> Result<(), Refusal>
    where
        F: Fn(u32, &mut [Span], &mut [Subtree<Block>], &mut [u8]) -> Result<usize, Refusal>,
        requires { F.IsAlwaysCallable call.now }
    {
        let n = size.leaves;
        for turn in 0..size.turns {
            let at = (n / 3).wrapping_add(turn.wrapping_mul(7919)) % n.max(1);
            self.ask(call, at)?;
        }
        Ok(())
    }
}

fn refused(_refusal: Refusal) -> anyhow::Error {
    anyhow!("the log refused")
}

fn time_fill(rt: &HostRuntime, memory: &mut Memory, size: Size) -> anyhow::Result<()> {
    let Size { leaves, turns } = size;
    let start = Instant::now(rt)?;
    fill_again(memory, size).map_err(refused)?;
    let took = start.elapsed(rt)?.as_micros();
    eprintln!(rt; "append {leaves} {turns} {took}")?;
    Ok(())
}

fn time_calls<F>(rt: &HostRuntime, name: &str, call: F, size: Size) -> anyhow::Result<()>
where
    F: Fn(u32, &mut [Span], &mut [Subtree<Block>], &mut [u8]) -> Result<usize, Refusal>,
    requires { F.IsAlwaysCallable call }
{
    let Size { leaves, turns } = size;
    let mut lent = Lent::new();
    let start = Instant::now(rt)?;
    lent.ask_again(&call, size).map_err(refused)?;
    let took = start.elapsed(rt)?.as_micros();
    eprintln!(rt; "{name} {leaves} {turns} {took}")?;
    println!(rt; "{name} {leaves} {}", Hex(&lent.seen[0..DIGEST]))?;
    Ok(())
}

// Prints a digest over the used bytes of the entry file.
fn show_file(rt: &HostRuntime, file: &[u8], used: usize, leaves: u32) -> anyhow::Result<()> {
    let mut found = [0u8; DIGEST];
    digest(&SPECK, &file[0..used.min(file.len())]).store(&mut found, 0);
    println!(rt; "append {leaves} {}", Hex(&found))?;
    Ok(())
}

fn time_size(rt: &HostRuntime, memory: &mut Memory, size: Size) -> anyhow::Result<()> {
    time_fill(rt, memory, size)?;
    let n = size.leaves;
    let file = memory.file.as_mut_slice();
    let mut log = Log::new(Table::new(memory.cells.as_mut_slice()), SPECK);
    fill(&mut log, n, file).map_err(refused)?;
    show_file(rt, file, log.used(), n)?;
    time_calls(rt, "head", |_, _, cells, out| log.head(n, cells, out), size)?;
    time_calls(
        rt,
        "prove",
        |at, spans, cells, out| log.prove(at, n, spans, cells, out),
        size,
    )?;
    time_calls(
        rt,
        "link",
        |at, spans, cells, out| log.link(at.saturating_add(1), n, spans, cells, out),
        size,
    )
}

// The work at each size, `times` times.
pub fn time_logs(rt: &HostRuntime, times: u32) -> anyhow::Result<()> {
    let mut memory = Memory {
        cells: vec![in rt.alloc(); ZERO; MOST_LEAVES]?,
        file: vec![in rt.alloc(); 0; MOST_LEAVES * (HEADER + ENTRY)]?,
    };
    for size in SIZES {
        let turns = size.turns.saturating_mul(times);
        time_size(rt, &mut memory, Size { turns, ..size })?;
    }
    Ok(())
}
