// How fast the hash is, under each mode over each cipher: long messages, and many short ones; and how fast a log is.
// `speed N M` does N times the work of the hash, and M times that of the log. Digests go to standard output; mode or call, length
// or size, count and microseconds to standard error.
#![tactic(auto)]

use aes::Aes128;
use anyhow::anyhow;
use cipher::words::Words;
use hash::compress::{Compression, DaviesMeyer, MatyasMeyerOseas, MiyaguchiPreneel};
use hash::digest::{LONGEST, hash};
use hexadecimal::Hex;
use refusal::Refusal;
use speck::Speck128;
use std::env;
use std::time::Instant;

mod logs;

use logs::time_logs;

// Hashes the message `times` times, and writes each digest over its front, so that no call can be left out.
fn chain<C: Compression>(c: &C, message: &mut [u8], times: u64) -> Result<(), Refusal> {
    for _ in 0..times {
        let digest = hash(c, message)?;
        digest.store(message, 0);
    }
    Ok(())
}

fn time_chain<C: Compression>(
    rt: &HostRuntime,
    name: &str,
    c: &C,
    length: usize,
    times: u64,
) -> anyhow::Result<()> {
    let mut message = vec![in rt.alloc(); 0; length]?;
    let start = Instant::now(rt)?;
    chain(c, message.as_mut_slice(), times).map_err(|_| anyhow!("the message is too long"))?;
    let took = start.elapsed(rt)?.as_micros();
    let digest = Hex(&message.as_slice()[0..C::Value::size().min(length)]);
    eprintln!(rt; "{name} {length} {times} {took}")?;
    println!(rt; "{name} {length} {digest}")?;
    Ok(())
}

fn time_mode<C: Compression>(rt: &HostRuntime, name: &str, c: &C, n: u32) -> anyhow::Result<()> {
    let few = u64::from(n);
    let many = 10000 * few;
    time_chain(rt, name, c, LONGEST, few)?;
    time_chain(rt, name, c, 33, many)?;
    time_chain(rt, name, c, 40, many)
}

// A number from the command line, or 1.
fn number(word: Option<String>) -> anyhow::Result<u32> {
    match word {
        Some(word) => Ok(word.as_str().parse()?),
        None => Ok(1),
    }
}

fn run(rt: &HostRuntime) -> anyhow::Result<()> {
    let mut args = env::args(rt)?.skip(1);
    let n = number(args.next())?;
    let m = number(args.next())?;
    time_modes(rt, n)?;
    time_logs(rt, m)
}

fn time_modes(rt: &HostRuntime, n: u32) -> anyhow::Result<()> {
    time_mode(rt, "dm-aes", &DaviesMeyer { cipher: Aes128 }, n)?;
    time_mode(rt, "mmo-aes", &MatyasMeyerOseas { cipher: Aes128 }, n)?;
    time_mode(rt, "mp-aes", &MiyaguchiPreneel { cipher: Aes128 }, n)?;
    time_mode(rt, "dm-speck", &DaviesMeyer { cipher: Speck128 }, n)?;
    time_mode(rt, "mmo-speck", &MatyasMeyerOseas { cipher: Speck128 }, n)?;
    time_mode(rt, "mp-speck", &MiyaguchiPreneel { cipher: Speck128 }, n)
}

fn main(rt: HostRuntime) -> anyhow::Result<()> {
    run(&rt)
}
