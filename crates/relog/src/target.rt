// The log that the commands of a script work on, if there is one.
ghost use Rattle.std.specs.Prelude.{◌≡◌, Some, None};
ghost use Rattle.std.specs.Option.{option_map};
ghost use Rattle.store.specs.Images.{image_used};

use crate::answer::Answer;
use crate::argument::{exactly, number, word_bytes};
use crate::calls::bytes_of;
use crate::fault::{Failure, Fault};
use crate::session::Session;
use cipher::words::Words;
use hash::compress::Compression;
use refusal::Refusal;
use release_log::Log;
use roots::range::Subtree;
use std::alloc::{AllocError, Global};
use store::Store;
use store::image::Image;
use store::table::Table;
use tree::leaves::Leaves;
use tree::spans::Span;

// The commands that need a log. A script names them, so they are an enum and a match, and no closures that a caller would pass.
#[derive(Clone, Copy)]
pub enum LogCommand {
    Count,
    Room,
    Leaf,
    Append,
    Head,
    Prove,
    Link,
    Show,
}

impl<'a> TryFrom<&'a str> for LogCommand {
    type Error = Fault<'a>;

    fn try_from(word: &'a str) -> Result<LogCommand, Fault<'a>> {
        match word {
            "count" => Ok(LogCommand::Count),
            "room" => Ok(LogCommand::Room),
            "leaf" => Ok(LogCommand::Leaf),
            "append" => Ok(LogCommand::Append),
            "head" => Ok(LogCommand::Head),
            "prove" => Ok(LogCommand::Prove),
            "link" => Ok(LogCommand::Link),
            "show" => Ok(LogCommand::Show),
            _ => Err(Fault::UnknownCommand),
        }
    }
}

pub trait Target {
    fn run<'a>(
        &mut self,
        session: &Session,
        command: LogCommand,
        words: &[&'a str],
    ) -> Result<Answer, Failure<'a>>;
}

// A store whose used bytes can be shown, if it keeps bytes.
pub trait Imaged {
    fn image(&self) -> Option<&[u8]>;
}

impl<'a, D: Words> Imaged for Table<'a, D> {
    fn image(&self) -> Option<&[u8]>
        ensures { option_map (λ x. x.now) result ≡ None }
    {
        None
    }
}

impl<'a, D: Words> Imaged for Image<'a, D> {
    fn image(&self) -> Option<&[u8]>
        ensures { option_map (λ x. x.now) result ≡ Some (image_used self.now) }
    {
        Some(self.used())
    }
}

// Before the first store is made.
#[derive(Drop)]
pub struct NoLog;

impl Target for NoLog {
    fn run<'a>(
        &mut self,
        _session: &Session,
        _command: LogCommand,
        _words: &[&'a str],
    ) -> Result<Answer, Failure<'a>> {
        Err(Failure::Fault(Fault::NoStore))
    }
}

// A log and its entry file.
#[derive(Drop)]
pub struct OpenLog<S, C> {
    log: Log<S, C>,
    entries: Vec<u8>,
}

impl<C: Compression + Drop, S: Store + Leaves<Item = C::Value> + Imaged + Drop> Target
    for OpenLog<S, C> {
    fn run<'a>(
        &mut self,
        session: &Session,
        command: LogCommand,
        words: &[&'a str],
    ) -> Result<Answer, Failure<'a>> {
        match command {
            LogCommand::Count => {
                exactly::<_, 0>(words)?;
                Ok(Answer::Number(self.log.count()))
            }
            LogCommand::Room => {
                exactly::<_, 0>(words)?;
                Ok(Answer::Number(self.log.room()))
            }
            LogCommand::Leaf => self.leaf(session, words),
            LogCommand::Append => self.append(session, words),
            LogCommand::Head => self.head(session, words),
            LogCommand::Prove => self.prove(session, words),
            LogCommand::Link => self.link(session, words),
            LogCommand::Show => self.show(session, words),
        }
    }
}

impl<C: Compression + Drop, S: Store + Leaves<Item = C::Value> + Imaged + Drop> OpenLog<S, C> {
    pub fn new(heap: Global, store: S, compression: C) -> OpenLog<S, C> {
        OpenLog {
            log: Log::new(store, compression),
            entries: Vec::new(heap),
        }
    }

    fn leaf<'a>(&self, session: &Session, words: &[&'a str]) -> Result<Answer, Failure<'a>> {
        let [i] = *exactly::<_, 1>(words)?;
        match self.log.leaf(number(i)?) {
            Some(digest) => Ok(Answer::Bytes(bytes_of(session.heap, digest)?)),
            None => Ok(Answer::Missing),
        }
    }

    fn append<'a>(&mut self, session: &Session, words: &[&'a str]) -> Result<Answer, Failure<'a>> {
        let [entry] = *exactly::<_, 1>(words)?;
        let entry = word_bytes(session, entry)?;
        let lent = session.lent.entries;
        // By as much as is lent and no more: the library's doubling would take twice as much.
        if self.entries.len() < lent {
            self.entries.reserve_exact(lent - self.entries.len())?;
            self.entries.resize(lent, 0)?;
        }
        let file = &mut self.entries.as_mut_slice()[0..lent];
        Ok(Answer::Number(self.log.append(entry.as_slice(), file)?))
    }

    fn head<'a>(&self, session: &Session, words: &[&'a str]) -> Result<Answer, Failure<'a>> {
        let [n] = *exactly::<_, 1>(words)?;
        let n = small(n)?;
        record::<C, _>(session, |cells, out| self.log.head(n, cells, out))
    }

    fn prove<'a>(&self, session: &Session, words: &[&'a str]) -> Result<Answer, Failure<'a>> {
        let [i, n] = *exactly::<_, 2>(words)?;
        let i = small(i)?;
        let n = small(n)?;
        let mut spans = spans(session)?;
        record::<C, _>(session, |cells, out| {
            self.log.prove(i, n, spans.as_mut_slice(), cells, out)
        })
    }

    fn link<'a>(&self, session: &Session, words: &[&'a str]) -> Result<Answer, Failure<'a>> {
        let [m, n] = *exactly::<_, 2>(words)?;
        let m = small(m)?;
        let n = small(n)?;
        let mut spans = spans(session)?;
        record::<C, _>(session, |cells, out| {
            self.log.link(m, n, spans.as_mut_slice(), cells, out)
        })
    }

    fn show<'a>(&self, session: &Session, words: &[&'a str]) -> Result<Answer, Failure<'a>> {
        let [what] = *exactly::<_, 1>(words)?;
        let shown = match what {
            "entries" => Some(self.used_entries()),
            "image" => self.log.store().image(),
            _ => None,
        };
        let bytes = shown.ok_or(Fault::NotShown(what))?;
        Ok(Answer::Bytes(Vec::from_slice(session.heap, bytes)?))
    }

    fn used_entries(&self) -> &[u8] {
        let entries = self.entries.as_slice();
        &entries[0..self.log.used().min(entries.len())]
    }
}

// A number of 32 bits.
fn small<'a>(word: &'a str) -> Result<u32, Fault<'a>> {
    u32::try_from(number(word)?).map_err(|_| Fault::BadNumber(word))
}

fn spans(session: &Session) -> Result<Vec<Span>, AllocError> {
    vec![in session.heap; Span::default(); session.lent.cells]
}

// The record that a call writes at the front of the output that it is lent, beside its cells.
fn record<'a, C: Compression, F>(session: &Session, call: F) -> Result<Answer, Failure<'a>>
where
    F: FnOnce(&mut [Subtree<C::Value>], &mut [u8]) -> Result<usize, Refusal>,
    requires { F.IsAlwaysCallable call }
{
    let mut cells = vec![in session.heap; Subtree::default(); session.lent.cells]?;
    let mut out = vec![in session.heap; 0; session.lent.output]?;
    let len = call(cells.as_mut_slice(), out.as_mut_slice())?;
    out.truncate(len);
    Ok(Answer::Bytes(out))
}
