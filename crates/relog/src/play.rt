// Plays a script: a command a line, on a log where one was made.
ghost use Rattle.std.specs.Prelude.{◌<◌, length, IfOk, IfSome};

use crate::command::{Outcome, Request, StoreKind, answer_line};
use crate::line::Line;
use crate::mode::UnderCompression;
use crate::session::Session;
use crate::target::{Imaged, NoLog, OpenLog, Target};
use cipher::words::Words;
use hash::compress::Compression;
use std::io;
use store::Store;
use store::image::Image;
use store::table::Table;
use tree::leaves::Leaves;

// A store that a line asked for, and the lines after it.
#[derive(Drop)]
struct Asked<'a> {
    line: Line<'a>,
    request: Request,
    rest: &'a [String],
}

// Each log lives as long as no other store is asked for.
pub fn play(rt: &HostRuntime, lines: &[String]) -> io::Result<()> {
    let mut session = Session::new(rt.alloc());
    let mut asked = play_on(rt, &mut session, &mut NoLog, lines)?;
    while let Some(next) = asked {
        let mode = next.request.mode;
        asked = mode.run(PlayOver {
            rt,
            session: &mut session,
            asked: next,
        })?;
    }
    Ok(())
}

// Answers lines until a store is asked for.
fn play_on<'a, T: Target>(
    rt: &HostRuntime,
    session: &mut Session,
    target: &mut T,
    lines: &'a [String],
) -> io::Result<Option<Asked<'a>>>
    ensures { IfOk result (λ o. IfSome o (λ a. length a.rest.now < length lines.now)) }
{
    for (i, text) in lines.iter().enumerate() {
        let line = Line::read(session.heap, text.as_str())?;
        if line.is_empty() {
            continue;
        }
        match answer_line(session, target, &line) {
            Ok(Outcome::Answered(answer)) => println!(rt; "{line}: {answer}")?,
            Ok(Outcome::Requested(request)) => {
                let rest = &lines[i + 1..];
                return Ok(Some(Asked {
                    line,
                    request,
                    rest,
                }));
            }
            Err(failure) => println!(rt; "{line}: {failure}")?,
        }
    }
    Ok(None)
}

// Makes the store that was asked for, and plays on with a log over it.
#[derive(Drop)]
struct PlayOver<'s, 'a> {
    rt: &'s HostRuntime,
    session: &'s mut Session,
    asked: Asked<'a>,
}

impl<'s, 'a> UnderCompression for PlayOver<'s, 'a> {
    type Output = io::Result<Option<Asked<'a>>>;

    ghost gives = { λ x r. IfOk r (λ o. IfSome o (λ a. length a.rest.now < length x.asked.rest.now)) };

    fn run<C: Compression + Drop>(self, compression: C) -> io::Result<Option<Asked<'a>>> {
        let heap = self.session.heap;
        let size = self.asked.request.size;
        match self.asked.request.kind {
            StoreKind::Table => {
                let mut cells = vec![in heap; C::Value::default(); size]?;
                self.over(Table::new(cells.as_mut_slice()), compression)
            }
            StoreKind::Image => {
                let mut bytes = vec![in heap; 0; size]?;
                self.over(Image::new(bytes.as_mut_slice()), compression)
            }
        }
    }
}

impl<'s, 'a> PlayOver<'s, 'a> {
    fn over<C: Compression + Drop, S: Store + Leaves<Item = C::Value> + Imaged + Drop>(
        self,
        store: S,
        compression: C,
    ) -> io::Result<Option<Asked<'a>>>
        ensures { IfOk result (λ o. IfSome o (λ a. length a.rest.now < length self.entry.asked.rest.now)) }
    {
        let PlayOver { rt, session, asked } = self;
        println!(rt; "{}: ok", asked.line)?;
        let mut log = OpenLog::new(session.heap, store, compression);
        play_on(rt, session, &mut log, asked.rest)
    }
}
