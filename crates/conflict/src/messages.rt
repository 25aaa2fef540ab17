// Two messages of one digest.
ghost use Rattle.std.specs.Prelude.{◌≡◌, ℕ, List, length};
ghost use Rattle.hash.specs.Hash.{from_zeros};
ghost use Rattle.release_log.specs.Buffers.{length_of, output_after};
ghost use Rattle.conflict.specs.Conflicts.{conflict_messages_answer};
ghost use Rattle.conflict.specs.Laws.{MessagesExact, MessagesWritten};

use crate::inputs::inputs_apart;
use crate::laws::{messages_exact, messages_written};
use crate::write::write_pair;
use cipher::words::Words;
use hash::compress::Compression;
use hash::digest::{LONGEST, digest};
use refusal::{Refusal, must};

// Writes the collision behind two messages of one digest at the front of the output, and says how long it is. Equal messages
// alone are refused as equal; what is written passes the check of collisions.
pub fn conflict_messages<C: Compression>(
    c: &C,
    x: &[u8],
    y: &[u8],
    out: &mut [u8],
) -> Result<usize, Refusal>
    ensures answer { result ≡ length_of (conflict_messages_answer (from_zeros C.Value.Words.width C.Compression.f) (length out.old) x.now y.now) }
    ensures output { out.new ≡ output_after (conflict_messages_answer (from_zeros C.Value.Words.width C.Compression.f) (length out.old) x.now y.now) out.old }
    ensures exact { MessagesExact (from_zeros C.Value.Words.width C.Compression.f) }
    ensures written { MessagesWritten (from_zeros C.Value.Words.width C.Compression.f) }
{
    messages_exact::<C>();
    messages_written::<C>();
    found(c, x, y, out)
}

fn found<C: Compression>(c: &C, x: &[u8], y: &[u8], out: &mut [u8]) -> Result<usize, Refusal>
    ensures answer { result ≡ length_of (conflict_messages_answer (from_zeros C.Value.Words.width C.Compression.f) (length out.old) x.now y.now) }
    ensures output { out.new ≡ output_after (conflict_messages_answer (from_zeros C.Value.Words.width C.Compression.f) (length out.old) x.now y.now) out.old }
{
    must(x.len() <= LONGEST, Refusal::TooLong { input: 1 })?;
    must(y.len() <= LONGEST, Refusal::TooLong { input: 2 })?;
    must(x != y, Refusal::EqualMessages)?;
    must(digest(c, x) == digest(c, y), Refusal::UnequalDigests)?;
    let pair = inputs_apart(c, x, y).ok_or(Refusal::EqualMessages)?;
    write_pair(pair, out)
}
