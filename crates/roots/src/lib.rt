// The root over a range of leaves, and leaves that lie in a row.
#![tactic(auto)]

pub mod range;
pub mod row;
