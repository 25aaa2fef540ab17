// A line of a script, cut into words.
ghost use Rattle.std.specs.Prelude.{◌≡◌, ℕ, ◌<◌, List, ◌++◌, length, ◌≢◌, slice_index};
ghost use Rattle.relog.specs.Comments.{Comment};

use std::alloc::{AllocError, Global};
use std::fmt;

// The words of a line, without its comment.
#[derive(Drop)]
pub struct Line<'a> {
    words: Vec<&'a str>,
}

impl<'a> Line<'a> {
    pub fn read(heap: Global, text: &'a str) -> Result<Line<'a>, AllocError> {
        let words = uncommented(text).split_ascii_whitespace().collect(heap)?;
        Ok(Line { words })
    }

    pub fn is_empty(&self) -> bool {
        self.words.is_empty()
    }

    // The word that stands before `=`, if the line begins so, and the words of the command.
    pub fn parts(&self) -> (Option<&'a str>, &[&'a str]) {
        let words = self.words.as_slice();
        match words {
            [name, "=", command @ ..] => (Some(*name), command),
            _ => (None, words),
        }
    }
}

impl<'a> fmt::Display for Line<'a> {
    fn fmt<W: fmt::Write>(&self, f: &mut fmt::Formatter<W>) -> fmt::Result {
        f.write_joined(self.words.iter(), " ")
    }
}

// What stands before the first `#`.
fn uncommented(text: &str) -> &str
    ensures cut { (rest : List ℕ) × (text.now ≡ result.now ++ rest) × Comment rest }
    ensures code { (i : ℕ) → i < length result.now → slice_index result.now i ≢ 35 }
{
    text.split_once('#').map_or(text, |(code, _)| code)
}
