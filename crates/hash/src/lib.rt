// A hash over any compression, and the compressions over any cipher.
#![tactic(auto)]

pub mod compress;
pub mod digest;
pub mod laws;
pub mod padding;
#[cfg(test)]
mod tests;
