// The arguments of commands.
ghost use Rattle.std.specs.Prelude.{◌≡◌, ◌≢◌, ◌≤◌, ◌+◌, ◌*◌, [], ◌∷◌, ◌++◌, length, IfOk, vec_len, MatchResult, OnOk};
ghost use Rattle.std.specs.Str.Parse.{digits_value};
ghost use Rattle.std.specs.List.{repeat as times_over};
ghost use Rattle.relog.specs.Arguments.{Number, most_bytes};

use crate::fault::Fault;
use crate::kept::is_name;
use crate::session::Session;
use hexadecimal::decode;
use std::alloc::AllocError;

// How many bytes a command's arguments may have.
pub const LIMIT: usize = 16777216;

// A word that stands for bytes.
#[derive(Clone, Copy)]
enum Argument<'a> {
    Empty,
    Kept(&'a str),
    Hexadecimal { digits: &'a str, times: usize },
}

impl<'a> TryFrom<&'a str> for Argument<'a> {
    type Error = Fault<'a>;

    fn try_from(word: &'a str) -> Result<Argument<'a>, Fault<'a>> {
        if word == "-" {
            return Ok(Argument::Empty);
        }
        if let Some(name) = word.strip_prefix('@') {
            return if is_name(name) {
                Ok(Argument::Kept(name))
            } else {
                Err(Fault::BadName(word))
            };
        }
        let (digits, times) = match word.split_once('*') {
            Some((digits, times)) => (digits, number(times)?),
            None => (word, 1),
        };
        if digits.is_empty() {
            return Err(Fault::BadHexadecimal(word));
        }
        Ok(Argument::Hexadecimal { digits, times })
    }
}

// A decimal number, of digits alone.
pub fn number(word: &str) -> Result<usize, Fault<'_>>
    ensures { MatchResult result (λ n. Number word.now × (n ≡ digits_value 10 word.now)) (λ _. Number word.now → ⊥) }
{
    if word.starts_with('+') {
        return Err(Fault::BadNumber(word));
    }
    word.parse().map_err(|_| Fault::BadNumber(word))
}

// The words, if a command that takes `N` of them has as many.
pub fn exactly<'w, 'a, T, const N: usize>(words: &'w [T]) -> Result<&'w [T; N], Fault<'a>>
    ensures { MatchResult result (λ y. y.now ≡ words.now) (λ _. length words.now ≢ N) }
{
    words.as_array().ok_or(Fault::WordCount {
        takes: N,
        given: words.len(),
    })
}

// Adds the bytes `times` times, if that does not make too many. They go straight to the end: the library's `repeat` first makes a copy
// of its own, byte by byte.
fn repeat<'a>(all: &mut Vec<u8>, bytes: &[u8], times: usize) -> Result<(), Fault<'a>>
    ensures items { OnOk result (all.new.items ≡ all.old.items ++ times_over times bytes.now) }
    ensures few { OnOk result (vec_len all.new ≤ most_bytes) }
{
    match bytes.len().checked_mul(times) {
        Some(more) if more <= LIMIT && all.len() <= LIMIT - more => {
            match bytes {
                [byte] => add_byte(all, *byte, times)?,
                _ => add_bytes(all, bytes, times)?,
            }
            Ok(())
        }
        _ => Err(Fault::TooManyBytes),
    }
}

// Adds a byte so many times. A push costs less than a slice of one byte.
fn add_byte(all: &mut Vec<u8>, byte: u8, times: usize) -> Result<(), AllocError>
    ensures items { OnOk result (all.new.items ≡ all.old.items ++ times_over times (byte ∷ [])) }
    ensures long { OnOk result (vec_len all.new ≡ vec_len all.old + times) }
{
    for _ in 0..times {
        all.push(byte)?;
    }
    Ok(())
}

// Adds bytes so many times.
fn add_bytes(all: &mut Vec<u8>, bytes: &[u8], times: usize) -> Result<(), AllocError>
    ensures items { OnOk result (all.new.items ≡ all.old.items ++ times_over times bytes.now) }
    ensures long { OnOk result (vec_len all.new ≡ vec_len all.old + length bytes.now * times) }
{
    for _ in 0..times {
        all.extend_from_slice(bytes)?;
    }
    Ok(())
}

// Adds the bytes that a word stands for.
fn add<'a>(all: &mut Vec<u8>, session: &Session, word: &'a str) -> Result<(), Fault<'a>>
    requires { vec_len all.old ≤ most_bytes }
    ensures { OnOk result (vec_len all.new ≤ most_bytes) }
{
    match Argument::try_from(word)? {
        Argument::Empty => Ok(()),
        Argument::Kept(name) => {
            let bytes = session.kept.get(name).ok_or(Fault::NotKept(name))?;
            repeat(all, bytes, 1)
        }
        Argument::Hexadecimal { digits, times } => {
            let bytes = decode(session.heap, digits)?.ok_or(Fault::BadHexadecimal(word))?;
            repeat(all, bytes.as_slice(), times)
        }
    }
}

// The bytes that a word stands for.
pub fn word_bytes<'a>(session: &Session, word: &'a str) -> Result<Vec<u8>, Fault<'a>>
    ensures { IfOk result (λ v. vec_len v ≤ most_bytes) }
{
    joined_bytes(session, &[word])
}

// The bytes that the words stand for, joined.
pub fn joined_bytes<'a>(session: &Session, words: &[&'a str]) -> Result<Vec<u8>, Fault<'a>>
    ensures { IfOk result (λ v. vec_len v ≤ most_bytes) }
{
    let mut all = Vec::new(session.heap);
    for word in words {
        add(&mut all, session, word)?;
    }
    Ok(all)
}
