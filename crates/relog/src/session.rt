// What a script has set up so far.
use crate::kept::Kept;
use crate::mode::Mode;
use std::alloc::Global;

// How much is lent to each call: cells of each kind of stack, and bytes.
#[derive(Clone, Copy)]
pub struct Lent {
    pub cells: usize,
    pub output: usize,
    pub entries: usize,
    pub evidence: usize,
}

impl Default for Lent {
    fn default() -> Lent {
        Lent {
            cells: 21,
            output: 4096,
            entries: 65536,
            evidence: 65536,
        }
    }
}

#[derive(Drop)]
pub struct Session {
    pub heap: Global,
    pub mode: Option<Mode>,
    pub lent: Lent,
    pub kept: Kept,
}

impl Session {
    pub fn new(heap: Global) -> Session {
        Session {
            heap,
            mode: None,
            lent: Lent::default(),
            kept: Kept::new(heap),
        }
    }
}
