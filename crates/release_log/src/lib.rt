// A log of entries over any store of leaf digests and any compression.
#![tactic(auto)]

pub mod buffers;
mod calls;
mod questions;

// The store keeps the leaf digests. Of the entry file, which is lent to each append, `used` bytes are used. A log that
// was made over a store with leaves is not opened: it has none.
#[derive(Drop)]
pub struct Log<S, C> {
    store: S,
    compression: C,
    used: Option<usize>,
}
