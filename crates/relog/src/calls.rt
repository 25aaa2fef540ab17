// The commands that work with the compression in use, and with no store.
ghost use Rattle.std.specs.Prelude.{◌≡◌, ◌⊎◌, IfOk, Some, Err};
ghost use Rattle.hash.specs.Hash.{from_zeros, hash_answer};
ghost use Rattle.relog.specs.declared.fault.Fault.TheVariants.{NoMemory};
ghost use Rattle.relog.specs.declared.fault.Failure.TheVariants.{Fault as Faulty};
ghost use Rattle.relog.specs.Answers.{told};

use crate::answer::Answer;
use crate::argument::{exactly, word_bytes};
use crate::fault::{Failure, Fault};
use crate::mode::UnderCompression;
use crate::session::Session;
use cipher::words::Words;
use hash::compress::Compression;
use hash::digest::hash;
use std::alloc::{AllocError, Global};

pub fn hash_message<'a>(session: &Session, words: &[&'a str]) -> Result<Answer, Failure<'a>> {
    let mode = session.mode.ok_or(Fault::NoCompression)?;
    let [message] = *exactly::<_, 1>(words)?;
    let message = word_bytes(session, message)?;
    mode.run(Message {
        heap: session.heap,
        bytes: message.as_slice(),
    })
}

// A message that is to be hashed.
#[derive(Drop)]
struct Message<'m> {
    heap: Global,
    bytes: &'m [u8],
}

impl<'m> UnderCompression for Message<'m> {
    type Output = Result<Answer, Failure<'static>>;

    fn run<C: Compression + Drop>(self, compression: C) -> Result<Answer, Failure<'static>> {
        hash_answer(&compression, self.heap, self.bytes)
    }
}

fn hash_answer<'a, C: Compression>(
    c: &C,
    heap: Global,
    message: &[u8],
) -> Result<Answer, Failure<'a>>
    ensures { (result ≡ Err (Faulty NoMemory)) ⊎ (told result ≡ Some (hash_answer (from_zeros C.Value.Words.width C.Compression.f) message.now)) }
{
    let digest = hash(c, message)?;
    Ok(Answer::Bytes(bytes_of(heap, digest)?))
}

// A copy of the bytes that words stand for.
pub fn bytes_of<D: Words>(heap: Global, words: D) -> Result<Vec<u8>, AllocError>
    ensures { IfOk result (λ v. v.items ≡ D.bytes words) }
{
    let mut all = vec![in heap; 0; D::size()]?;
    words.store(all.as_mut_slice(), 0);
    Ok(all)
}
