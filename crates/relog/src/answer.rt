// What a command that was run answers.
ghost use Rattle.std.specs.Prelude.{◌≡◌};
ghost use Rattle.relog.specs.Answers.{written};

use hexadecimal::Hex;
use std::fmt;

#[derive(Drop)]
pub enum Answer {
    Done,
    Number(usize),
    Missing,
    Bytes(Vec<u8>),
}

impl Answer {
    // The bytes that the command wrote.
    pub fn written(&self) -> &[u8]
        ensures { result.now ≡ written self.now }
    {
        match self {
            Answer::Done | Answer::Number(_) | Answer::Missing => &[],
            Answer::Bytes(bytes) => bytes.as_slice(),
        }
    }
}

impl fmt::Display for Answer {
    fn fmt<W: fmt::Write>(&self, f: &mut fmt::Formatter<W>) -> fmt::Result {
        match self {
            Answer::Done => write!(f, "ok"),
            Answer::Number(n) => write!(f, "{n}"),
            Answer::Missing => write!(f, "none"),
            Answer::Bytes(bytes) if bytes.is_empty() => write!(f, "-"),
            Answer::Bytes(bytes) => write!(f, "{}", Hex(bytes.as_slice())),
        }
    }
}
