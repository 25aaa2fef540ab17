// What a call needs of the cells and buffers that it is lent.
ghost use Rattle.std.specs.Prelude.{◌≡◌, nat_le};
ghost use Rattle.refusal.specs.Refusals.{must};
ghost use Rattle.refusal.specs.declared.Refusal.TheVariants.{OutputShort};
ghost use Rattle.release_log.specs.Buffers.{enough};

use refusal::{Refusal, must};
use roots::range::CELLS;

// Stack cells for a call that works out or rebuilds roots, paths or links.
pub fn enough(cells: usize) -> Result<(), Refusal>
    ensures { result ≡ enough cells }
{
    must(cells >= CELLS, Refusal::TooFewCells)
}

// An output of `out` bytes has to take a record of `len`.
pub fn fits(len: usize, out: usize) -> Result<(), Refusal>
    ensures { result ≡ must (nat_le len out) OutputShort }
{
    must(len <= out, Refusal::OutputShort)
}
