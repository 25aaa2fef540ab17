// What keeps a command from an answer.
ghost use Rattle.std.specs.Prelude.{◌≡◌};
ghost use Rattle.relog.specs.declared.fault.Fault.TheVariants.{NoMemory};
ghost use Rattle.relog.specs.declared.fault.Failure.TheVariants.{Fault as Faulty, Refused};

use crate::argument::LIMIT;
use refusal::Refusal;
use std::alloc::AllocError;
use std::fmt;

// What keeps a command from being run. A fault that is about one word holds it.
#[derive(Clone, Copy)]
pub enum Fault<'a> {
    NoCommand,
    UnknownCommand,
    WordCount { takes: usize, given: usize },
    BadName(&'a str),
    NotKept(&'a str),
    BadHexadecimal(&'a str),
    BadNumber(&'a str),
    UnknownCompression(&'a str),
    NotLent(&'a str),
    NotShown(&'a str),
    NoCompression,
    NoStore,
    TooManyBytes,
    NoMemory,
}

impl<'a> fmt::Display for Fault<'a> {
    fn fmt<W: fmt::Write>(&self, f: &mut fmt::Formatter<W>) -> fmt::Result {
        match self {
            Fault::NoCommand => write!(f, "no command"),
            Fault::UnknownCommand => write!(f, "unknown command"),
            Fault::WordCount { takes, given } => {
                let what = if given < takes {
                    "missing word"
                } else {
                    "too many words"
                };
                write!(f, "{what}: takes {takes}, given {given}")
            }
            Fault::BadName(word) => write!(f, "bad name: {word}"),
            Fault::NotKept(name) => write!(f, "nothing is kept under the name {name}"),
            Fault::BadHexadecimal(word) => write!(f, "bad hexadecimal: {word}"),
            Fault::BadNumber(word) => write!(f, "bad number: {word}"),
            Fault::UnknownCompression(word) => write!(f, "unknown compression: {word}"),
            Fault::NotLent(word) => write!(f, "cannot lend {word}"),
            Fault::NotShown(word) => write!(f, "cannot show {word}"),
            Fault::NoCompression => write!(f, "no compression in use"),
            Fault::NoStore => write!(f, "no store"),
            Fault::TooManyBytes => write!(f, "more than {LIMIT} bytes"),
            Fault::NoMemory => write!(f, "out of memory"),
        }
    }
}

impl<'a> From<AllocError> for Fault<'a> {
    ghost from_gives = { λ _ y. y ≡ NoMemory };

    fn from(_e: AllocError) -> Fault<'a> {
        Fault::NoMemory
    }
}

// A command that was not run, or a call that was refused.
#[derive(Clone, Copy)]
pub enum Failure<'a> {
    Fault(Fault<'a>),
    Refused(Refusal),
}

impl<'a> fmt::Display for Failure<'a> {
    fn fmt<W: fmt::Write>(&self, f: &mut fmt::Formatter<W>) -> fmt::Result {
        match self {
            Failure::Fault(fault) => write!(f, "error: {fault}"),
            Failure::Refused(refusal) => write!(f, "{}", refusal.returned()),
        }
    }
}

impl<'a> From<Fault<'a>> for Failure<'a> {
    ghost from_gives = { λ x y. y ≡ Faulty x };

    fn from(fault: Fault<'a>) -> Failure<'a> {
        Failure::Fault(fault)
    }
}

impl<'a> From<AllocError> for Failure<'a> {
    ghost from_gives = { λ _ y. y ≡ Faulty NoMemory };

    fn from(e: AllocError) -> Failure<'a> {
        Failure::Fault(Fault::from(e))
    }
}

impl<'a> From<Refusal> for Failure<'a> {
    ghost from_gives = { λ x y. y ≡ Refused x };

    fn from(refusal: Refusal) -> Failure<'a> {
        Failure::Refused(refusal)
    }
}
