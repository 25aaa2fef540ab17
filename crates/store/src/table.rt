// A store over lent digests.
ghost use Rattle.std.specs.Prelude.{◌≤◌, length};
ghost use Rattle.store.specs.Stores.{most_of};

mod calls;

// The digests are the first `count` cells. The cells are lent, since no library of the log allocates: so the count stands beside them.
#[derive(Drop)]
pub struct Table<'a, D> {
    cells: &'a mut [D],
    count: usize,
    ghost within: { count ≤ most_of (length cells.now) },
}
