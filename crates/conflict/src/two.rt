// Two papers of one kind that were accepted. Proofs and links are not one type with a parameter: a proof stands under a head with
// its entry, a link between two heads, and what is read and compared of them differs at each step.
use record::records::{Link, Proof};

#[derive(Clone, Copy)]
pub(crate) struct TwoProofs<'a, 'b> {
    pub(crate) first: Proof<'a>,
    pub(crate) second: Proof<'b>,
}

// Each link stands with its old root.
#[derive(Clone, Copy)]
pub(crate) struct TwoLinks<'a, 'b, D> {
    pub(crate) old: D,
    pub(crate) first: Link<'a>,
    pub(crate) other_old: D,
    pub(crate) second: Link<'b>,
}
