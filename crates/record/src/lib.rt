// The six records of a log, read and written: a record is the length of its payload and its kind, two bytes each with the
// lowest first, and the payload.
#![tactic(auto)]

pub mod collisions;
mod frame;
pub mod heads;
pub mod kinds;
pub mod laws;
mod payload;
pub mod reader;
pub mod records;
pub mod single;
pub mod sizes;
pub mod write;
