// Check of a collision.
ghost use Rattle.std.specs.Prelude.{◌≡◌, ℕ, List};
ghost use Rattle.hash.specs.Hash.{from_zeros};
ghost use Rattle.record.specs.Views.{input_of};
ghost use Rattle.checks.specs.Checks.{collide, check_collision_answer};

use hash::compress::Compression;
use record::collisions::Collision;
use record::single::read_collision;
use refusal::{Refusal, must};

// That two inputs of the compression differ and have one output.
pub fn check_collision<C: Compression>(c: &C, collision: &[u8]) -> Result<(), Refusal>
    ensures { result ≡ check_collision_answer (from_zeros C.Value.Words.width C.Compression.f) collision.now }
{
    let pair = read_collision::<C::Value>(1, collision)?;
    must(collides(c, pair), Refusal::NoCollision { input: 1 })
}

fn collides<C: Compression>(c: &C, pair: Collision<C::Value>) -> bool
    ensures { result ≡ collide (from_zeros C.Value.Words.width C.Compression.f) (input_of C.Value.Words.bytes pair.first) (input_of C.Value.Words.bytes pair.second) }
{
    let first = pair.first;
    let second = pair.second;
    first != second && c.compress(first.h, first.m) == c.compress(second.h, second.m)
}
