// Paths and links: written from the leaves, and the roots that they rebuild.
#![tactic(auto)]

pub mod apart;
mod beside;
mod digests;
pub mod rebuild;
pub mod write;
