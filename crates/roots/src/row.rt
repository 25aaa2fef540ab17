// Leaves that lie in a row.
ghost use Rattle.std.specs.Prelude.{List, map};

use cipher::words::Words;
use tree::leaves::Leaves;

#[derive(Drop)]
pub struct Row<'a, D> {
    pub digests: &'a [D],
}

impl<D: Words> Leaves for Row<'_, D> {
    type Item = D;

    ghost items = { λ r. map D.Words.bytes r.digests.now };

    fn count(&self) -> usize {
        self.digests.len()
    }

    fn leaf(&self, i: usize) -> Option<D> {
        self.digests.get(i).copied()
    }
}
