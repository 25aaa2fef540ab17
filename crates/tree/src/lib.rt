// The Merkle tree: leaf and node digests, where leaves come from, and how long paths and links are.
#![tactic(auto)]

pub mod descents;
pub mod digests;
pub mod laws;
pub mod leaves;
pub mod spans;
pub mod ways;
