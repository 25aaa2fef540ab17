// A stack over lent cells, for any kind of cell.
#![tactic(auto)]

ghost use Rattle.std.specs.Prelude.{◌≡◌, ℕ, ◌≤◌, length};

mod top;

// The cells are lent, since no library of the log allocates: so their number in use stands beside them.
#[derive(Drop)]
pub struct Stack<'a, T> {
    cells: &'a mut [T],
    len: usize,
    ghost ok: { len ≤ length cells.now },
}

impl<'a, T: Copy> Stack<'a, T> {
    // An empty stack over the cells.
    pub fn new(cells: &'a mut [T]) -> Stack<'a, T>
        ensures empty { result.len ≡ 0 }
        ensures same { result.cells.now ≡ cells.old }
    {
        Stack { cells, len: 0 }
    }

    // How many cells are in use.
    pub fn len(&self) -> usize
        ensures { result ≡ self.now.len }
    {
        self.len
    }
}
