// The commands of a script.
use crate::answer::Answer;
use crate::argument::{exactly, joined_bytes, number};
use crate::calls::hash_message;
use crate::fault::{Failure, Fault};
use crate::kept::is_name;
use crate::line::Line;
use crate::mode::Mode;
use crate::session::Session;
use crate::target::{LogCommand, Target};

#[derive(Clone, Copy)]
enum Command {
    Use,
    Lend,
    Bytes,
    Hash,
    Make(StoreKind),
    Log(LogCommand),
}

#[derive(Clone, Copy)]
pub enum StoreKind {
    Table,
    Image,
}

// A fresh store of a kind, with so many digests or bytes, for a log under a compression.
#[derive(Clone, Copy)]
pub struct Request {
    pub mode: Mode,
    pub kind: StoreKind,
    pub size: usize,
}

// What a line leads to: an answer, or a new store and log.
#[derive(Drop)]
pub enum Outcome {
    Answered(Answer),
    Requested(Request),
}

impl<'a> TryFrom<&'a str> for Command {
    type Error = Fault<'a>;

    fn try_from(word: &'a str) -> Result<Command, Fault<'a>> {
        match word {
            "use" => Ok(Command::Use),
            "lend" => Ok(Command::Lend),
            "bytes" => Ok(Command::Bytes),
            "hash" => Ok(Command::Hash),
            "table" => Ok(Command::Make(StoreKind::Table)),
            "image" => Ok(Command::Make(StoreKind::Image)),
            _ => Ok(Command::Log(LogCommand::try_from(word)?)),
        }
    }
}

// Runs the command of a line, and keeps what it wrote if the line begins with a name.
pub fn answer_line<'a, T: Target>(
    session: &mut Session,
    target: &mut T,
    line: &Line<'a>,
) -> Result<Outcome, Failure<'a>> {
    let (name, words) = line.parts();
    let Some(name) = name else {
        return run_command(session, target, words);
    };
    if !is_name(name) {
        return Err(Failure::Fault(Fault::BadName(name)));
    }
    let outcome = run_command(session, target, words)?;
    if let Outcome::Answered(answer) = &outcome {
        session.kept.keep(session.heap, name, answer.written())?;
    }
    Ok(outcome)
}

fn run_command<'a, T: Target>(
    session: &mut Session,
    target: &mut T,
    words: &[&'a str],
) -> Result<Outcome, Failure<'a>> {
    let [command, words @ ..] = words else {
        return Err(Failure::Fault(Fault::NoCommand));
    };
    let answer = match Command::try_from(*command)? {
        Command::Use => use_compression(session, words)?,
        Command::Lend => lend(session, words)?,
        Command::Bytes => Answer::Bytes(joined_bytes(session, words)?),
        Command::Hash => hash_message(session, words)?,
        Command::Make(kind) => return Ok(Outcome::Requested(asked_store(session, kind, words)?)),
        Command::Log(command) => target.run(session, command, words)?,
    };
    Ok(Outcome::Answered(answer))
}

fn asked_store<'a>(
    session: &Session,
    kind: StoreKind,
    words: &[&'a str],
) -> Result<Request, Fault<'a>> {
    let mode = session.mode.ok_or(Fault::NoCompression)?;
    let [size] = *exactly::<_, 1>(words)?;
    let size = number(size)?;
    Ok(Request { mode, kind, size })
}

fn use_compression<'a>(session: &mut Session, words: &[&'a str]) -> Result<Answer, Fault<'a>> {
    let [name] = *exactly::<_, 1>(words)?;
    session.mode = Some(Mode::try_from(name)?);
    Ok(Answer::Done)
}

fn lend<'a>(session: &mut Session, words: &[&'a str]) -> Result<Answer, Fault<'a>> {
    let [what, amount] = *exactly::<_, 2>(words)?;
    let amount = number(amount)?;
    match what {
        "cells" => session.lent.cells = amount,
        "output" => session.lent.output = amount,
        "entries" => session.lent.entries = amount,
        "evidence" => session.lent.evidence = amount,
        _ => return Err(Fault::NotLent(what)),
    }
    Ok(Answer::Done)
}
