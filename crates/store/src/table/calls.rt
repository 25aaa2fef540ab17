// What a table does.
ghost use Rattle.std.specs.Prelude.{◌≡◌, [], length};
ghost use Rattle.store.specs.Stores.{append_answer, items_after, space_after, most_of};
ghost use Rattle.store.specs.Tables.{table_items, table_space, cells_after};

use super::Table;
use crate::Store;
use crate::places::most;
use cipher::words::Words;
use refusal::{Refusal, must};
use tree::leaves::Leaves;

impl<'a, D: Words> Table<'a, D> {
    // An empty table over these very cells, so that whoever lent them knows them afterwards.
    pub fn new(cells: &'a mut [D]) -> Table<'a, D>
        ensures items { table_items D.Words.bytes result ≡ [] }
        ensures space { table_space result ≡ most_of (length cells.old) }
        ensures cells { result.cells.now ≡ cells.old }
        ensures lent { result.cells.ghost_name ≡ cells.entry.ghost_name }
    {
        Table { cells, count: 0 }
    }
}

impl<'a, D: Words> Leaves for Table<'a, D> {
    type Item = D;

    ghost items = { table_items D.Words.bytes };

    fn count(&self) -> usize {
        self.count
    }

    fn leaf(&self, i: usize) -> Option<D> {
        self.cells[..self.count].get(i).copied()
    }
}

impl<'a, D: Words> Store for Table<'a, D> {
    ghost space = { table_space };

    fn room(&self) -> usize {
        most(self.cells.len()) - self.count
    }

    // It also promises what the lent cells are afterwards.
    fn append(&mut self, digest: D) -> Result<usize, Refusal>
        ensures answer { result ≡ append_answer (length (table_items D.Words.bytes self.old)) (table_space self.old) }
        ensures items { table_items D.Words.bytes self.new ≡ items_after (table_items D.Words.bytes self.old) (table_space self.old) (D.Words.bytes digest) }
        ensures space { table_space self.new ≡ space_after (table_space self.old) }
        ensures cells { self.new.cells.now ≡ cells_after self.old digest }
        ensures lent { self.new.cells.ghost_name ≡ self.old.cells.ghost_name }
    {
        must(self.room() > 0, Refusal::StoreFull)?;
        let at = self.count;
        self.cells[at] = digest;
        self.count += 1;
        Ok(at)
    }
}
