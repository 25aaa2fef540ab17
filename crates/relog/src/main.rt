// Runs a script of commands, and prints each command with its answer.
#![tactic(auto)]

use crate::play::play;
use anyhow::anyhow;
use std::fs::File;
use std::io::{BufRead, BufReader, Read};
use std::{env, io};

mod answer;
mod argument;
mod calls;
mod command;
mod fault;
mod kept;
mod line;
mod mode;
mod play;
mod session;
mod target;

fn lines<R: Read + Drop>(rt: &HostRuntime, script: R) -> io::Result<Vec<String>> {
    let heap = rt.alloc();
    BufReader::new(heap, script)?.lines(heap).try_collect(heap)
}

fn run(rt: &HostRuntime) -> anyhow::Result<()> {
    let mut args = env::args(rt)?.skip(1);
    let path = args.next();
    if args.next().is_some() {
        return Err(anyhow!("usage: relog [FILE]"));
    }
    let lines = match path {
        None => lines(rt, rt.stdin())?,
        Some(path) => lines(rt, File::open(rt, path)?)?,
    };
    play(rt, lines.as_slice())?;
    Ok(())
}

fn main(rt: HostRuntime) -> anyhow::Result<()> {
    run(&rt)
}
