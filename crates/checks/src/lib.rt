// Checks of proofs, links and collisions, for whoever holds them.
#![tactic(auto)]

pub mod accept;
mod collide;
mod laws;
mod links;
mod proofs;

pub use collide::check_collision;
pub use links::check_link;
pub use proofs::check_proof;
