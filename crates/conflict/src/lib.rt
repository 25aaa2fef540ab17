// Two messages, proofs or links that contradict each other, and the collision of the compression behind them.
#![tactic(auto)]

mod inputs;
mod laws;
mod links;
mod messages;
mod papers;
mod proofs;
mod two;
mod write;

pub use inputs::inputs_apart;
pub use links::conflict_links;
pub use messages::conflict_messages;
pub use papers::{links_apart, proofs_apart};
pub use proofs::conflict_proofs;
pub use write::write_pair;
