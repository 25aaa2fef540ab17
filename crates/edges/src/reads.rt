// Heads, proofs and links with numbers at the edge of what a log can have, as they are read.
use crate::tell;
use cipher::words::Block;
use record::kinds::Kind;
use record::single::{read_head, read_link, read_proof};
use record::write::{write_header, write_number};
use std::alloc::{AllocError, Global};

// Reads a head of a size.
fn head(rt: &HostRuntime, n: u32) -> anyhow::Result<()> {
    let mut bytes = [0u8; 24];
    write_header(Kind::Head, 20, &mut bytes, 0);
    write_number(n, &mut bytes, 4);
    let what = format!(in rt.alloc(); "head of size {n}")?;
    tell(rt, what.as_str(), read_head::<Block>(1, &bytes))
}

// A record with two numbers and so many digests of zeros, of which at most one is too many for any record.
fn record(heap: Global, kind: Kind, a: u32, b: u32, digests: u16) -> Result<Vec<u8>, AllocError> {
    let payload = 8 + 16 * digests.min(22);
    let mut bytes = vec![in heap; 0; 4 + payload as usize]?;
    let into = bytes.as_mut_slice();
    write_header(kind, payload, into, 0);
    write_number(a, into, 4);
    write_number(b, into, 8);
    Ok(bytes)
}

fn proof(rt: &HostRuntime, i: u32, n: u32, digests: u16) -> anyhow::Result<()> {
    let bytes = record(rt.alloc(), Kind::Proof, i, n, digests)?;
    let what = format!(in rt.alloc(); "proof of {i} in {n} with {digests}")?;
    tell(rt, what.as_str(), read_proof::<Block>(1, bytes.as_slice()))
}

fn link(rt: &HostRuntime, m: u32, n: u32, digests: u16) -> anyhow::Result<()> {
    let bytes = record(rt.alloc(), Kind::Link, m, n, digests)?;
    let what = format!(in rt.alloc(); "link from {m} to {n} with {digests}")?;
    tell(rt, what.as_str(), read_link::<Block>(1, bytes.as_slice()))
}

pub fn run(rt: &HostRuntime) -> anyhow::Result<()> {
    head(rt, 0)?;
    head(rt, 1)?;
    head(rt, 1_048_576)?;
    head(rt, 1_048_577)?;
    proof(rt, 1_048_575, 1_048_576, 20)?;
    proof(rt, 1_048_575, 1_048_576, 19)?;
    proof(rt, 1_048_576, 1_048_576, 20)?;
    proof(rt, 1_048_576, 1_048_577, 1)?;
    proof(rt, 0, 1_048_577, 21)?;
    links(rt)
}

fn links(rt: &HostRuntime) -> anyhow::Result<()> {
    link(rt, 1_048_575, 1_048_576, 21)?;
    link(rt, 1_048_575, 1_048_576, 20)?;
    link(rt, 1_048_576, 1_048_576, 0)?;
    link(rt, 0, 1_048_576, 0)?;
    link(rt, 1_048_576, 1_048_577, 1)?;
    link(rt, 1_048_577, 1_048_577, 0)?;
    link(rt, 1_048_575, 1_048_576, 22)
}
