// A collision as a record at the front of an output.
ghost use Rattle.std.specs.Prelude.{◌≡◌, length};
ghost use Rattle.release_log.specs.Buffers.{fitting, length_of, output_after};
ghost use Rattle.record.specs.Records.{collision, spelled};
ghost use Rattle.record.specs.Views.{input_of};

use cipher::words::Words;
use record::collisions::Collision;
use record::sizes::collision_len;
use record::write::write_collision;
use refusal::Refusal;
use release_log::buffers::fits;

// Writes the record, if there is room for all of it, and says how long it is.
pub fn write_pair<D: Words>(pair: Collision<D>, out: &mut [u8]) -> Result<usize, Refusal>
    ensures answer { result ≡ length_of (fitting (length out.old) (spelled (collision (input_of D.Words.bytes pair.first) (input_of D.Words.bytes pair.second)))) }
    ensures output { out.new ≡ output_after (fitting (length out.old) (spelled (collision (input_of D.Words.bytes pair.first) (input_of D.Words.bytes pair.second)))) out.old }
{
    let len = collision_len::<D>();
    fits(len, out.len())?;
    write_collision(pair, out, 0);
    Ok(len)
}
